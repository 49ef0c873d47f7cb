//! A wrong case: its line, and how the row's expected values differ from the layout.

use bidtests::verdict::Place;
use units::level::{Direction, Level};

/// The item at a place of a row's expected values or of a layout.
#[derive(Clone, Copy, Debug, PartialEq, Eq)]
pub enum Item {
    /// Nothing: the list ends before the place.
    Ended,
    /// A position that X9 removes.
    Removed,
    /// A level, of a position or of the first paragraph.
    Level(Level),
    /// A position of the text.
    Position(usize),
}

/// A row that is wrong under one of its directions.
#[derive(Clone, Copy, Debug, PartialEq, Eq)]
pub struct WrongCase {
    /// The number of its line, from 1 and at most 2^64 - 1.
    pub line: u64,
    /// The direction.
    pub direction: Direction,
    /// The first place where the expected values, as they are read, differ from the layout under that direction. If not
    /// all positions of an order are compared, its index counts those that are.
    pub place: Place,
    /// The expected item there.
    pub claimed: Item,
    /// The item there by the rules P1 to L2.
    pub defined: Item,
}
