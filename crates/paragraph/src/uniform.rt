//! A paragraph whose positions keep its level (P2 to I2).
ghost use Rattle.std.specs.Prelude.{◌≡◌, ◌+◌, ◌≤◌, IfSome, IsNone, false, length, map, take, true};
ghost use Rattle.units.specs.Classes.{classes_of};
ghost use Rattle.units.specs.Isolates.{level_of_para, para_level_of};
ghost use Rattle.units.specs.Limits.{LimitsOf};
ghost use Rattle.explicit.specs.Uniform.{level_unless_removed_at};
ghost use Rattle.paragraph.specs.Contents.{Describes, keeps_level};
ghost use Rattle.paragraph.specs.Resolvers.{IsResolved};

use crate::contents::Contents;
use crate::fast_paths::write_level;
use std::sync::ledger::Ledger;
use units::bracket::Unit;
use units::level::{Direction, Level, ParaLevel};
use units::steps::Steps;

/// Resolves a paragraph with these contents, if each position that remains (X9) keeps the level of the paragraph.
/// Returns this level, and writes the resolved levels to the front of `levels`, with a step for each. Returns `None`
/// and does nothing if a position may leave that level.
#[inline(always)]
pub fn resolve_uniform<L: Ledger>(
    para: &[Unit],
    contents: Contents,
    direction: Direction,
    levels: &mut [Option<Level>],
    steps: &mut Steps<L>,
) -> Option<ParaLevel>
    requires contents { Describes contents (classes_of para.now) }
    requires levels { length para.now ≤ length levels.old }
    ensures resolved { IfSome result (λ level. (limits : LimitsOf)
        → IsResolved limits para.now direction (record { level = level; uniform = true })
        (take (length para.now) levels.new)) }
    ensures written { IfSome result (λ level. take (length para.now) levels.new
        ≡ map (λ unit. level_unless_removed_at (level_of_para level) unit.class) para.now) }
    ensures steps { IfSome result (λ _. steps.new ≡ steps.old + length para.now) }
    ensures none { IsNone result
        → keeps_level (para_level_of (classes_of para.now) direction) (classes_of para.now) ≡ false }
    ensures levels { IsNone result → levels.new ≡ levels.old }
    ensures no_steps { IsNone result → steps.new ≡ steps.old }
{
    let level = contents.uniform_level(direction)?;
    let levels = &mut levels[..para.len()];
    write_level(para, contents, level.level(), levels, steps);
    Some(level)
}
