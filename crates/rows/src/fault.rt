//! The reasons why texts can't be enumerated or drawn.

/// The reason why texts can't be enumerated or drawn.
#[derive(Clone, Copy, Debug, PartialEq, Eq)]
pub enum RowsFault {
    /// The alphabet has no letter.
    NoLetter,
    /// The least length is 0, but a row needs a letter.
    NoLength,
    /// The greatest length is above `LONGEST_ROW`.
    TooLong,
    /// There are 2^64 or more texts of the greatest length, so they can't be enumerated.
    TooMany,
    /// The least length is above the greatest, so there is no length to draw.
    NoneBetween,
}
