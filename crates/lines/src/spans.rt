//! Spans of a text: consecutive positions, with the levels of the text.
ghost use Rattle.std.specs.Prelude.{◌≤◌, length};

use units::level::Level;

/// A line of a text, or a run of it.
#[derive(Clone, Copy)]
pub struct LineSpan<'a> {
    /// The levels of the whole text after L1; a position that X9 removed has none.
    pub levels: &'a [Option<Level>],
    /// The position at which it begins.
    pub start: usize,
    /// The position after its last one.
    pub end: usize,
    pub ghost forward: { start ≤ end },
    pub ghost within: { end ≤ length levels.now },
}
