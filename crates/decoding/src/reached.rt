//! How much of a text is decoded.

use paragraph::class_set::ClassSet;

/// How many characters of a text were decoded, and how many code units spell them.
#[derive(Clone, Copy)]
pub(crate) struct Reached {
    pub(crate) characters: usize,
    pub(crate) code_units: usize,
}

/// How much of a text is decoded, and the set of the classes of the decoded characters.
#[derive(Clone, Copy)]
pub(crate) struct Passed {
    pub(crate) reached: Reached,
    pub(crate) classes: ClassSet,
}
