//! How ill-formed code units are treated.

/// How code units that spell no character are treated.
#[derive(Clone, Copy)]
pub enum Faults {
    /// The text is rejected.
    Rejected,
    /// They are read as U+FFFD.
    Replaced,
}
