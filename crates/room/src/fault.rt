//! Why a text is not laid out.
use lines::breaks::BreakFault;
use thiserror::Error;

/// Why a text is not laid out, or not broken into lines again.
#[derive(Clone, Copy, Debug, PartialEq, Eq, Error)]
pub enum LayoutFault {
    /// The text is one in code units, and the room has no offsets.
    #[error("a text in code units, and a room without offsets")]
    NoOffsets,
    /// The text has more units than the room can hold.
    #[error("more units than the room can hold")]
    TooLong,
    /// The unit at this offset isn't part of a character, isn't a class, or has a number of no class or bracket. All
    /// units before it are well formed.
    #[error("the unit at offset {0} is ill-formed")]
    IllFormed(usize),
    /// A break is out of range, or not above the one before.
    #[error("a break is out of range, or not above the one before")]
    Break(BreakFault),
    /// The break with this index is inside a character.
    #[error("break {0} is inside a character")]
    BreakInside(usize),
}
