//! Calls for engines that have their own front: class look-up, levels or lines of their own.
ghost use Rattle.std.specs.Prelude.{◌≡◌, map};
ghost use Rattle.units.specs.Limits.{standard};
ghost use Rattle.sources.specs.Sources.{Classes, Units};
ghost use Rattle.ucdfiles.specs.Tables.{TablesOf};
ghost use Rattle.for_c.specs.Base.{IsBaseLevel, RejectsBase};
ghost use Rattle.for_c.specs.Fronts.{RejectsLevels, RejectsLine, Reorders, ResetsLine};
ghost use Rattle.for_c.specs.LimitsGiven.{ByLimits};
ghost use Rattle.for_c.specs.Statuses.{ReturnsStatusNaming, Puts, place_named};
ghost use Rattle.for_c.specs.LevelBytes.{level_byte};
ghost use Rattle.room.specs.Written.{WritesWhole};
ghost use Rattle.bidi_c.specs.Fronts.{PairsAt, PutsPropertiesAt, WritesWholeLevelsAt, resolved_at};
ghost use Rattle.bidi_c.specs.ContentsAt.{contents_at, room_at, tables_at};
ghost use Rattle.bidi_c.specs.LayingOut.{LaysOutWithoutTables};

use crate::bidi_handle::BidiHandle;
use crate::laying_out::lay_out_without_tables;
use crate::putting::put;
use for_c::base::base_level_of;
use for_c::call_error::{CallError, status_and_place};
use for_c::columns::write_levels;
use for_c::fronts::{reorder, reset_levels, write_properties};
use for_c::limits::BidiLimits;
use for_c::pairs::paired_bracket;
use sources::numbered_units::NumberedUnit;
use sources::source::Source;
use units::limits::Limits;

/// Writes the number of the class of each code point to the front of `classes`, and what it does as a bracket (BD14,
/// BD15) to the front of `brackets`: 0 if it is none, 1 if it opens, 2 if it closes. If there are no tables, or an
/// array has fewer items than there are code points, or one of these isn't a scalar value, both are unchanged.
#[unsafe(no_mangle)]
#[tactic(auto, using(crate::proofs::Needed::no_tables_named, crate::proofs::FrontsNeeded::no_tables_no_properties))]
pub extern "C" fn bidi_classes(
    tables: &mut BidiHandle,
    codes: &[u32],
    classes: &mut [u8],
    brackets: &mut [u8],
    place: &mut u64,
) -> u32
    ensures tables { contents_at tables.new ≡ contents_at tables.old }
    ensures properties { ReturnsStatusNaming place_named (PutsPropertiesAt (tables_at tables.old) codes.now
        classes.old classes.new brackets.old brackets.new) result place.old place.new }
{
    match tables.tables() {
        Some(by) => status_and_place(write_properties(by, codes, classes, brackets), place),
        None => status_and_place(Err(CallError::NoTables), place),
    }
}

/// Returns the bracket that a code point pairs with (BD14 to BD16): the one that closes it or that it closes. Returns 0
/// if it is no bracket or pairs with none, and without tables.
#[unsafe(no_mangle)]
pub extern "C" fn bidi_paired_bracket(tables: &mut BidiHandle, code: u32) -> u32
    ensures tables { contents_at tables.new ≡ contents_at tables.old }
    ensures paired { PairsAt (tables_at tables.old) code result }
{
    match tables.tables() {
        Some(by) => paired_bracket(by, code),
        None => 0,
    }
}

/// Writes the level of the first paragraph of a text of classes, given as numbers, under a direction (P1 to P3) to
/// `level`. If `direction` is no direction, or one of the numbers is no class, `level` is unchanged.
#[unsafe(no_mangle)]
pub extern "C" fn bidi_base_level_classes(
    classes: &[u8],
    direction: u32,
    level: &mut u8,
    place: &mut u64,
) -> u32
    ensures { (tables : TablesOf) →
        ReturnsStatusNaming place_named (Puts (IsBaseLevel tables (Classes classes.now) direction)
        (RejectsBase (Classes classes.now) direction) level.old level.new) result place.old place.new }
{
    let unused = standard::tables();
    let found = base_level_of(&unused, Source::Classes(classes), direction);
    status_and_place(put(found, level), place)
}

/// Resets the levels of one line by L1. Separators get the level of their paragraph. So do white space, isolate
/// formatting characters and what X9 removes, before a separator or at the line's end. The front of `levels` has the
/// line's levels. If it has fewer items than there are classes, or the level is out of range, or a number is no class,
/// `levels` is unchanged.
#[unsafe(no_mangle)]
pub extern "C" fn bidi_reset_levels(
    classes: &[u8],
    para_level: u8,
    levels: &mut [u8],
    place: &mut u64,
) -> u32
    ensures { ReturnsStatusNaming place_named (Puts (ResetsLine classes.now para_level levels.old)
        (RejectsLine classes.now para_level levels.old) levels.old levels.new) result place.old place.new }
{
    status_and_place(reset_levels(classes, para_level, levels), place)
}

/// Writes all positions of a line from left to right (L2), as their levels give them, to the front of `order`. If that
/// has fewer items than there are levels, or a number is no level, it is unchanged.
#[unsafe(no_mangle)]
pub extern "C" fn bidi_reorder(levels: &[u8], order: &mut [usize], place: &mut u64) -> u32
    ensures { ReturnsStatusNaming place_named (Puts (Reorders levels.now order.old) (RejectsLevels levels.now order.old)
        order.old order.new) result place.old place.new }
{
    status_and_place(reorder(levels, order), place)
}

/// Writes the levels before L1 of the text's characters to `levels`, if all fit there: 255 for a character that was
/// removed (X9). Returns how many there are, 0 without a room.
#[unsafe(no_mangle)]
pub extern "C" fn bidi_resolved_levels(room: &mut BidiHandle, levels: &mut [u8]) -> usize
    ensures room { contents_at room.new ≡ contents_at room.old }
    ensures levels { WritesWhole (map level_byte (resolved_at (room_at room.old))) result levels.old levels.new }
{
    let Some(contents) = room.contents() else {
        return 0;
    };
    match contents.room() {
        Some(room) => write_levels(room.resolved_levels(), levels),
        None => 0,
    }
}

/// Writes the levels after L1 of all characters of the text to `levels`, if all fit there. A removed character (X9) has
/// the level of the one before it. At the start of a paragraph, or if L1 resets what is around it, it has the level of
/// the paragraph. Returns how many there are, 0 without a room.
#[unsafe(no_mangle)]
pub extern "C" fn bidi_whole_levels(room: &mut BidiHandle, levels: &mut [u8]) -> usize
    ensures room { contents_at room.new ≡ contents_at room.old }
    ensures levels { WritesWholeLevelsAt (room_at room.old) result levels.old levels.new }
{
    let Some(contents) = room.contents() else {
        return 0;
    };
    match contents.room() {
        Some(room) => room.whole_levels(levels),
        None => 0,
    }
}

/// Lays out a text of units, given as numbers, in the room, as `bidi_lay_out` does one of code points. Each unit has
/// its class, what it does as a bracket, and the number by which an opening bracket and a closing one pair.
#[unsafe(no_mangle)]
pub extern "C" fn bidi_lay_out_units(
    room: &mut BidiHandle,
    units: &[NumberedUnit],
    direction: u32,
    breaks: &[usize],
    place: &mut u64,
) -> u32
    ensures { ReturnsStatusNaming place_named (LaysOutWithoutTables (Units units.now) standard direction breaks.now
        (contents_at room.old) (contents_at room.new)) result place.old place.new }
{
    let source = Source::Units(units);
    let done = lay_out_without_tables(room, source, direction, breaks, Limits::standard());
    status_and_place(done, place)
}

/// Lays out a text of units as `bidi_lay_out_units` does, with these limits in place of the standard ones.
#[unsafe(no_mangle)]
#[tactic(auto, using(crate::proofs::LimitsRejected::limits_rejected_named))]
pub extern "C" fn bidi_lay_out_units_with(
    room: &mut BidiHandle,
    units: &[NumberedUnit],
    direction: u32,
    breaks: &[usize],
    limits: BidiLimits,
    place: &mut u64,
) -> u32
    ensures { ReturnsStatusNaming place_named (ByLimits limits (λ limits. LaysOutWithoutTables (Units units.now) limits
        direction breaks.now) (contents_at room.old) (contents_at room.new)) result place.old place.new }
{
    let source = Source::Units(units);
    match limits.allowed() {
        Ok(limits) => {
            let done = lay_out_without_tables(room, source, direction, breaks, limits);
            status_and_place(done, place)
        }
        Err(error) => status_and_place(Err(error), place),
    }
}
