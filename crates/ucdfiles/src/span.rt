// What a line of a property file states.
ghost use Rattle.std.specs.Prelude.{◌≡◌};

use crate::fault::Fault;

/// The code points from the first to the last, both inclusive, and the value that a line gives them.
#[derive(Clone, Copy, Debug, Drop, PartialEq, Eq)]
pub struct Span<V> {
    /// The first code point.
    pub first: u32,
    /// The last code point.
    pub last: u32,
    /// The value of each of them.
    pub value: V,
}

impl<V> Span<V> {
    ghost use Rattle.ucdfiles.specs.Spans.{holds as holds_code};

    /// Returns whether the span contains the code point.
    pub fn holds(&self, code: u32) -> bool
        ensures { result ≡ holds_code code self.now }
    {
        self.first <= code && code <= self.last
    }
}

/// What a line states by itself.
#[derive(Clone, Copy, Debug, Drop, PartialEq, Eq)]
pub enum FileLine<V> {
    /// Nothing: the line is empty, or has only a comment.
    Silent,
    /// A data line.
    Data(Span<V>),
    /// A default line, of `@missing:`.
    Default(Span<V>),
    /// The first fault of the line.
    Faulty(Fault),
}
