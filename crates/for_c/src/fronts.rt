//! L1 and L2 on a caller's own arrays, and properties of whole arrays: for engines with their own front.
ghost use Rattle.std.specs.Prelude.{◌≡◌, length, OnOk, IfErr};
ghost use Rattle.std.specs.Char.{IsScalar};
ghost use Rattle.sources.specs.Kinds.{AllAre, IsFirstOther};
ghost use Rattle.visual.specs.GivenLevels.{levels_reset_in};
ghost use Rattle.for_c.specs.Fronts.{AreProperties, IsLevelNumber, PutsProperties, RejectsLevels, RejectsLine};
ghost use Rattle.for_c.specs.Fronts.{Reorders, ResetsLine, classes_numbered};
ghost use Rattle.for_c.specs.Statuses.{Puts};

use crate::call_error::CallError;
use crate::properties::{bracket_number, class_number};
use sources::class_numbers::{check_classes, class_numbered};
use sources::codes::check_codes;
use ucdfiles::tables::Tables;
use units::class::Class;
use units::level::Level;
use visual::by_levels::write_order;
use visual::own_resets::reset_levels_by;

/// Does what `visual::own_resets::reset_levels` does, with the numbers of classes.
fn reset_numbered(classes: &[u8], para_level: Level, levels: &mut [u8])
    requires { length classes.now ≡ length levels.old }
    ensures { levels.new ≡ levels_reset_in (classes_numbered classes.now) para_level levels.old }
{
    reset_levels_by(
        classes,
        |number| class_numbered(number).unwrap_or(Class::L),
        para_level,
        levels,
    );
}

/// Resets the levels of a line by L1. Separators get the level of their paragraph. So do white space, isolate
/// formatting characters and what X9 removes, before a separator or at the line's end. `classes` are the numbers of the
/// line's classes. The front of `levels` must have the level of each of its positions.
///
/// Fails with `TooSmall` if `levels` has fewer items than there are classes, or else with `NoLevel` if the paragraph's
/// level is above 126, or else with `NoClass` at the first number that is no class.
pub fn reset_levels(classes: &[u8], para_level: u8, levels: &mut [u8]) -> Result<(), CallError>
    ensures { Puts (ResetsLine classes.now para_level levels.old) (RejectsLine classes.now para_level levels.old)
        levels.old levels.new result }
{
    if levels.len() < classes.len() {
        return Err(CallError::TooSmall);
    }
    let Some(para_level) = Level::new(para_level) else {
        return Err(CallError::NoLevel(0));
    };
    if let Err(index) = check_classes(classes) {
        return Err(CallError::NoClass(index));
    }
    reset_numbered(classes, para_level, &mut levels[..classes.len()]);
    Ok(())
}

/// Fails with the index of the first number that is above the greatest level.
fn check_levels(levels: &[u8]) -> Result<(), usize>
    ensures fault { IfErr result (IsFirstOther IsLevelNumber levels.now) }
    ensures levels { OnOk result (AllAre IsLevelNumber levels.now) }
{
    for i in 0..levels.len() {
        if levels[i] > 126 {
            return Err(i);
        }
    }
    Ok(())
}

/// Writes all positions from left to right (L2), as their levels give them, to the front of `order`. Fails with
/// `TooSmall` if that has fewer items than there are levels, or else with `NoLevel` at the first level that is above
/// 126.
pub fn reorder(levels: &[u8], order: &mut [usize]) -> Result<(), CallError>
    ensures { Puts (Reorders levels.now order.old) (RejectsLevels levels.now order.old) order.old order.new result }
{
    if order.len() < levels.len() {
        return Err(CallError::TooSmall);
    }
    if let Err(index) = check_levels(levels) {
        return Err(CallError::NoLevel(index));
    }
    write_order(levels, &mut order[..levels.len()]);
    Ok(())
}

/// Writes the numbers of the classes of code points, and of what their brackets do. All must be scalar values.
fn write_numbers(tables: &Tables, codes: &[u32], classes: &mut [u8], brackets: &mut [u8])
    requires scalars { AllAre IsScalar codes.now }
    requires classes { length classes.old ≡ length codes.now }
    requires brackets { length brackets.old ≡ length codes.now }
    ensures { AreProperties tables.now codes.now classes.new brackets.new }
{
    let borrowed = tables.units();
    for i in 0..codes.len() {
        // SAFETY: it is a scalar value.
        let c = unsafe { char::from_u32_unchecked(codes[i]) };
        let unit = borrowed.unit(c);
        classes[i] = class_number(unit.class);
        brackets[i] = bracket_number(unit.bracket);
    }
}

/// Writes the number of the class of each code point to the front of `classes`, and that of what its bracket does to
/// the front of `brackets`: 0 if it is no bracket, 1 if it opens, 2 if it closes. Fails with `TooSmall` if one of them
/// has fewer items than there are code points, or else with `NoCharacter` at the first code point that isn't a scalar
/// value.
pub fn write_properties(
    tables: &Tables,
    codes: &[u32],
    classes: &mut [u8],
    brackets: &mut [u8],
) -> Result<(), CallError>
    ensures { PutsProperties tables.now codes.now classes.old classes.new brackets.old brackets.new result }
{
    if classes.len() < codes.len() || brackets.len() < codes.len() {
        return Err(CallError::TooSmall);
    }
    if let Err(index) = check_codes(codes) {
        return Err(CallError::NoCharacter(index));
    }
    write_numbers(
        tables,
        codes,
        &mut classes[..codes.len()],
        &mut brackets[..codes.len()],
    );
    Ok(())
}
