//! A line with its order.
ghost use Rattle.std.specs.Prelude.{◌≤◌, ◌<◌, length};
ghost use Rattle.std.specs.List.{All};

use units::level::{Level, ParaLevel};

/// A line of a text, with its order.
#[derive(Clone, Copy)]
pub struct OrderedLine<'a> {
    /// The levels of the whole text after L1; a position that X9 removed has none.
    pub levels: &'a [Option<Level>],
    /// The position at which the line begins.
    pub start: usize,
    /// The position after its last one.
    pub end: usize,
    /// Its remaining positions from left to right (L2), as positions of the whole text.
    pub order: &'a [usize],
    /// The level of the paragraph that contains it.
    pub para_level: ParaLevel,
    pub ghost forward: { start ≤ end },
    pub ghost within: { end ≤ length levels.now },
    pub ghost places: { All (λ p. p < length levels.now) order.now },
}
