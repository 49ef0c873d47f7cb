// What comes before a part of a text.

/// How many paragraphs and how many characters of a text come before a part of it.
#[derive(Clone, Copy)]
pub(crate) struct Passed {
    pub(crate) paragraphs: usize,
    pub(crate) characters: usize,
}
