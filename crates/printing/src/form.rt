//! The two forms in which a text is printed.
use std::num::NonZeroU16;

/// The form in which a text is printed.
#[derive(Clone, Copy, Debug, PartialEq, Eq)]
pub enum Form {
    /// The levels, position by position.
    Levels,
    /// The lines as they are shown, with breaks at columns if `columns` is some.
    Reorder { columns: Option<NonZeroU16> },
}
