//! What is known of a decoded text.

use paragraph::class_set::ClassSet;

/// The characters of a decoded text, and their classes.
#[derive(Clone, Copy)]
pub struct Decoded {
    /// How many characters it has.
    pub characters: usize,
    /// The set of their classes, if it is known.
    pub classes: Option<ClassSet>,
}

/// The characters of a decoded text, and the set of their classes.
#[derive(Clone, Copy)]
pub(crate) struct KnownText {
    pub characters: usize,
    pub classes: ClassSet,
}
