//! The terms of a report: the limits of its layouts, and which of a row's expected values it compares.
ghost use Rattle.std.specs.Prelude.{◌≡◌};
ghost use Rattle.report.specs.ReadExpected.{strict_terms};

use units::level::Level;
use units::limits::Limits;

/// Which parts of a row's expected values are compared.
#[derive(Clone, Copy, Debug, PartialEq, Eq)]
pub enum Parts {
    /// The level of the first paragraph, the levels and the order.
    All,
    /// The order alone.
    OrderAlone,
}

/// At which positions the expected levels and the expected order are compared.
#[derive(Clone, Copy, Debug, PartialEq, Eq)]
pub enum Positions {
    /// All positions.
    All,
    /// The shown positions, which X9 does not remove. An implementation may keep the others, and then has a level and a
    /// place in the order for each (UAX #9, section 5.2).
    Shown,
}

impl Positions {
    ghost use Rattle.report.specs.ReadExpected.{is_compared};

    /// Returns whether a position with this level, or without one if X9 removes it, is compared.
    pub fn has(self, level: Option<Level>) -> bool
        ensures { result ≡ is_compared self level }
    {
        match self {
            Positions::All => true,
            Positions::Shown => level.is_some(),
        }
    }
}

/// Which expected values are compared, for engines that differ from the layout as the standard permits.
#[derive(Clone, Copy, Debug, PartialEq, Eq)]
pub struct Leniency {
    /// The parts that are compared.
    pub parts: Parts,
    /// The positions that are compared.
    pub positions: Positions,
}

/// The terms of a report.
#[derive(Clone, Copy)]
pub struct Terms {
    /// The limits of each layout.
    pub limits: Limits,
    /// Which of each row's expected values are compared.
    pub leniency: Leniency,
}

impl Terms {
    /// Returns the terms with these limits that compare everything, as a judge does.
    pub fn strict(limits: Limits) -> Terms
        ensures { result ≡ strict_terms limits }
    {
        Terms {
            limits,
            leniency: Leniency {
                parts: Parts::All,
                positions: Positions::All,
            },
        }
    }
}
