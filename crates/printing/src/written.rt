//! Whether the output was written completely.

/// How much of the output was written when reading ended.
#[derive(Clone, Copy, Debug, PartialEq, Eq)]
pub enum Written {
    /// All of it.
    Whole,
    /// It is not known how much: a write failed.
    CutOff,
}
