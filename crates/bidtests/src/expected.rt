//! What a row expects.
use units::bracket::Unit;
use units::level::{Direction, Level, ParaLevel};

/// The text of a row, the directions of its cases, and the layout that the row expects under each of them.
#[derive(Clone, Copy)]
pub struct Expected<'a> {
    pub text: &'a [Unit],
    pub directions: &'a [Direction],
    /// The expected level of the first paragraph; rows of classes have none.
    pub para_level: Option<ParaLevel>,
    pub levels: &'a [Option<Level>],
    pub order: &'a [usize],
}
