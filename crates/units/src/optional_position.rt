ghost use Rattle.std.specs.Prelude.{◌≡◌, ◌<◌, Option, Some, None};

use std::marker::Model;

/// A position of a paragraph, or none, in four bytes. Contracts see an `Option`.
#[derive(Clone, Copy, Debug, PartialEq, Eq)]
pub struct OptionalPosition {
    number: u32,
}

impl Model for OptionalPosition {
    ghost use Rattle.std.specs.Prelude.{Option, ℕ};
    ghost use Rattle.units.specs.OptionalPositions.{position_of, number_of};

    ghost Value = { Option ℕ };

    ghost view = { λ s. position_of s.number };

    ghost inverse = { λ p. record { number = number_of p } };
}

impl OptionalPosition {
    /// Returns no position.
    pub fn none() -> Self
        ensures { result ≡ None }
    {
        OptionalPosition { number: u32::MAX }
    }

    /// Returns this position.
    pub fn some(position: usize) -> Self
        requires { position < u32.MAX }
        ensures { result ≡ Some position }
    {
        OptionalPosition {
            number: position as u32,
        }
    }

    /// Returns the position, if there is one.
    pub fn get(self) -> Option<usize>
        ensures { result ≡ self }
    {
        if self.number == u32::MAX {
            None
        } else {
            Some(self.number as usize)
        }
    }
}
