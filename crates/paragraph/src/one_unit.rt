//! A paragraph of one unit, which most classes leave at the paragraph's level (P2 to I2).
ghost use Rattle.std.specs.Prelude.{◌≡◌, false, MatchOption};
ghost use Rattle.paragraph.specs.Resolvers.{IsRemainingUnit, keeps_unit};

use crate::contents::Contents;
use crate::fast_paths::level_unless_removed_at;
use units::bracket::Unit;
use units::level::{Direction, Level, ParaLevel};

/// The levels of a paragraph of one unit that keeps the paragraph's level.
#[derive(Clone, Copy)]
pub struct RemainingUnit {
    /// The paragraph's level (P2, P3).
    pub para: ParaLevel,
    /// The unit's resolved level (X1 to I2); none if X9 removes the unit.
    pub level: Option<Level>,
}

/// Returns the levels of a paragraph of this unit alone. Returns `None` if the unit does not keep the paragraph's
/// level.
#[inline(always)]
pub fn remaining_unit(unit: Unit, direction: Direction) -> Option<RemainingUnit>
    ensures { MatchOption result (keeps_unit direction unit ≡ false) (IsRemainingUnit direction unit) }
{
    let para = Contents::of_class(unit.class).uniform_level(direction)?;
    let level = level_unless_removed_at(false, para.level(), unit.class);
    Some(RemainingUnit { para, level })
}
