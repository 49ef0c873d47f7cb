//! The verdict of a judge.

use units::level::Direction;

/// Why a line of a test file is malformed.
#[derive(Clone, Copy, Debug, PartialEq, Eq)]
pub enum Cause {
    /// The line has more than 65,536 bytes before its LF.
    LineTooLong,
    /// A content begins with `@`, but with none of `@Levels:`, `@Reorder:` and `@Type:`.
    Directive,
    /// An item of a list of levels is neither `x` nor a number of 0 to 126.
    LevelItem,
    /// An item of an order is not a number of 0 to 65,535.
    OrderItem,
    /// An item of a row is not the short name of a class.
    ClassItem,
    /// The second field of a row is not a number of 1 to 15.
    BitSet,
    /// There is no `@Levels:` line or no `@Reorder:` line before the row.
    NoExpectation,
    /// A row doesn't have as many fields as the file's kind has.
    FieldCount,
    /// An item is not a code point, or it is a surrogate.
    CodePoint,
    /// The direction field is not `0`, `1`, `2` or `3`.
    DirectionField,
    /// The paragraph level field is neither `0` nor `1`.
    ParaField,
    /// A row has no items.
    EmptyRow,
}

/// Where the layout of a row differs from the expected one.
#[derive(Clone, Copy, Debug, PartialEq, Eq)]
pub enum Place {
    /// The level of the first paragraph.
    ParaLevel,
    /// The first index at which the lists of levels differ or one of them ends.
    Levels(usize),
    /// The first index at which the orders differ or one of them ends.
    Order(usize),
}

/// The verdict on a test file.
#[derive(Clone, Copy, Debug, PartialEq, Eq)]
pub enum Verdict {
    /// The file is well formed and each case is right. The numbers of rows and cases are at most 2^64 - 1.
    Yes {
        rows: u64,
        cases: u64,
    },
    /// This is the first line that is malformed or wrong, and it is malformed. Lines are numbered from 1.
    Malformed {
        line: u64,
        cause: Cause,
    },
    /// This is the first line that is malformed or wrong, and this is its first wrong case, with the first wrong place.
    Wrong {
        line: u64,
        direction: Direction,
        place: Place,
    },
}
