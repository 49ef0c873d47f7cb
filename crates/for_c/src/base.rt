//! The direction of a text, without a layout.
ghost use Rattle.std.specs.Prelude.{IfErr, IfOk};
ghost use Rattle.sources.specs.Seen.{source_seen};
ghost use Rattle.for_c.specs.Base.{IsBaseLevel, IsLeftToRight, PutsBaseLevels, RejectsBase, RejectsText};

use crate::call_error::CallError;
use crate::directions::direction_numbered;
use crate::reasons::error_of_text;
use room::base_levels::{base_level, base_levels, is_left_to_right};
use room::fault::LayoutFault;
use sources::source::Source;
use ucdfiles::tables::Tables;

/// Returns the level of the first paragraph of a text under the direction with this number (P1 to P3). Fails with
/// `NoDirection`, or with the first unit that is not part of a character. It takes no memory.
pub fn base_level_of(tables: &Tables, source: Source<'_>, direction: u32) -> Result<u8, CallError>
    ensures level { IfOk result (IsBaseLevel tables.now (source_seen source.entry) direction) }
    ensures reason { IfErr result (RejectsBase (source_seen source.entry) direction) }
{
    let Some(direction) = direction_numbered(direction) else {
        return Err(CallError::NoDirection);
    };
    match base_level(tables, source, direction) {
        Ok(level) => Ok(level.level().get()),
        Err(at) => Err(error_of_text(source, LayoutFault::IllFormed(at))),
    }
}

/// Writes the level of each paragraph of a text under the direction with this number (P1 to P3) to the front of
/// `levels`, if all fit there, and to `count` how many there are. Fails as `base_level_of` does, and nothing is
/// written.
pub fn write_base_levels(
    tables: &Tables,
    source: Source<'_>,
    direction: u32,
    levels: &mut [u8],
    count: &mut usize,
) -> Result<(), CallError>
    ensures { PutsBaseLevels tables.now (source_seen source.entry) direction
        levels.old levels.new count.old count.new result }
{
    let Some(direction) = direction_numbered(direction) else {
        return Err(CallError::NoDirection);
    };
    match base_levels(tables, source, direction, levels) {
        Ok(found) => {
            *count = found;
            Ok(())
        }
        Err(at) => Err(error_of_text(source, LayoutFault::IllFormed(at))),
    }
}

/// Returns 1 if a text has only classes that stay at level 0, else 0. If it returns 1, all levels of the text are 0,
/// unless its paragraphs are asked to be right-to-left. Fails with the first unit that is not part of a character. It
/// takes no memory.
pub fn left_to_right(tables: &Tables, source: Source<'_>) -> Result<u8, CallError>
    ensures stays { IfOk result (IsLeftToRight tables.now (source_seen source.entry)) }
    ensures reason { IfErr result (RejectsText (source_seen source.entry)) }
{
    match is_left_to_right(tables, source) {
        Ok(true) => Ok(1),
        Ok(false) => Ok(0),
        Err(at) => Err(error_of_text(source, LayoutFault::IllFormed(at))),
    }
}
