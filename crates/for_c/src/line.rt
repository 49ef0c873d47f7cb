//! Lines, as C gets them.
ghost use Rattle.std.specs.Prelude.{◌≡◌};
ghost use Rattle.for_c.specs.Lines.{line_for_c};

use room::lookups::Line;

/// Where a line begins and ends, and how many positions its order has.
#[repr(C)]
#[derive(Clone, Copy)]
pub struct BidiLine {
    /// The position of the text at which it begins.
    pub start: usize,
    /// The position of the text after its last one.
    pub end: usize,
    /// The number of its positions that remain (X9), which is the length of its order.
    pub shown: usize,
}

/// Returns a line as C gets it.
pub fn line_for_c(line: Line) -> BidiLine
    ensures { result ≡ line_for_c line }
{
    BidiLine {
        start: line.start,
        end: line.end,
        shown: line.shown,
    }
}
