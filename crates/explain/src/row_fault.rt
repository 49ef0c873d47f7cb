//! Why a search returns no row.

use bidtests::verdict::Cause;
use units::memory::Memory;

/// Why a line is not a row.
#[derive(Clone, Copy, Debug, PartialEq, Eq)]
pub enum RowFault {
    /// The given line is malformed for this cause. It is the requested line or an earlier one.
    Malformed { line: u64, cause: Cause },
    /// The line is not a row, or there are fewer lines.
    NoRow,
}

/// Why a search returns no row.
#[derive(Clone, Copy, Debug, PartialEq, Eq)]
pub enum SearchFault {
    /// The line is not a row, or it or an earlier one is malformed.
    OfRow(RowFault),
    /// The source failed.
    Read,
    /// An allocation failed.
    Memory,
}

impl From<RowFault> for SearchFault {
    ghost use Rattle.std.specs.Prelude.{◌≡◌};
    ghost use Rattle.explain.specs.declared.row_fault.SearchFault.TheVariants.{OfRow};

    ghost from_gives = { λ fault given. given ≡ OfRow fault };

    fn from(fault: RowFault) -> Self {
        SearchFault::OfRow(fault)
    }
}

impl From<Memory> for SearchFault {
    ghost use Rattle.std.specs.Prelude.{◌≡◌};
    ghost use Rattle.explain.specs.declared.row_fault.SearchFault.TheVariants as fault;

    ghost from_gives = { λ _ given. given ≡ fault.Memory };

    fn from(_memory: Memory) -> Self {
        SearchFault::Memory
    }
}
