//! The direction of a text, without a layout.
ghost use Rattle.std.specs.Prelude.{◌≡◌};
ghost use Rattle.decoding.specs.declared.fault.Faults.TheVariants.{Rejected};
ghost use Rattle.sources.specs.Seen.{source_seen};
ghost use Rattle.sources.specs.Sources.{Codes, Utf16, Utf8};
ghost use Rattle.for_c.specs.Statuses.{ReturnsStatusNaming, place_named};
ghost use Rattle.bidi_c.specs.BaseAt.{PutsBaseLevelAt, PutsBaseLevelsAt, PutsLeftToRightAt};
ghost use Rattle.bidi_c.specs.ContentsAt.{contents_at, tables_at};

use crate::bidi_handle::BidiHandle;
use crate::putting::put;
use decoding::fault::Faults;
use for_c::base::{base_level_of, left_to_right, write_base_levels};
use for_c::call_error::{CallError, status_and_place};
use sources::source::Source;

#[tactic(auto, using(crate::proofs::Needed::not_contained))]
fn base_level(
    tables: &mut BidiHandle,
    source: Source<'_>,
    direction: u32,
    level: &mut u8,
) -> Result<(), CallError>
    ensures tables { contents_at tables.new ≡ contents_at tables.old }
    ensures level { PutsBaseLevelAt (tables_at tables.old) (source_seen source.entry) direction level.old level.new
        result }
{
    match tables.tables() {
        Some(by) => put(base_level_of(by, source, direction), level),
        None => Err(CallError::NoTables),
    }
}

#[tactic(auto, using(crate::proofs::Needed::no_tables_no_levels))]
fn base_levels(
    tables: &mut BidiHandle,
    source: Source<'_>,
    direction: u32,
    levels: &mut [u8],
    count: &mut usize,
) -> Result<(), CallError>
    ensures tables { contents_at tables.new ≡ contents_at tables.old }
    ensures levels { PutsBaseLevelsAt (tables_at tables.old) (source_seen source.entry) direction levels.old levels.new
        count.old count.new result }
{
    match tables.tables() {
        Some(by) => write_base_levels(by, source, direction, levels, count),
        None => Err(CallError::NoTables),
    }
}

#[tactic(auto, using(crate::proofs::Needed::not_contained))]
fn is_left_to_right(
    tables: &mut BidiHandle,
    source: Source<'_>,
    stays: &mut u8,
) -> Result<(), CallError>
    ensures tables { contents_at tables.new ≡ contents_at tables.old }
    ensures stays { PutsLeftToRightAt (tables_at tables.old) (source_seen source.entry) stays.old stays.new result }
{
    match tables.tables() {
        Some(by) => put(left_to_right(by, source), stays),
        None => Err(CallError::NoTables),
    }
}

/// Writes the level of the first paragraph of a text of code points under a direction (P1 to P3) to `level`. If there
/// are no tables, or the number is no direction, or a code point isn't a scalar value, `level` is unchanged.
#[unsafe(no_mangle)]
pub extern "C" fn bidi_base_level(
    tables: &mut BidiHandle,
    codes: &[u32],
    direction: u32,
    level: &mut u8,
    place: &mut u64,
) -> u32
    ensures tables { contents_at tables.new ≡ contents_at tables.old }
    ensures level { ReturnsStatusNaming place_named (PutsBaseLevelAt (tables_at tables.old) (Codes codes.now) direction
        level.old level.new) result place.old place.new }
{
    let source = Source::Codes(codes);
    status_and_place(base_level(tables, source, direction, level), place)
}

/// Writes the level of each paragraph of a text of code points under a direction (P1 to P3), in their order, to
/// `levels`, if all fit there, and to `count` how many there are. If it fails as `bidi_base_level` does, both are
/// unchanged.
#[unsafe(no_mangle)]
pub extern "C" fn bidi_base_levels(
    tables: &mut BidiHandle,
    codes: &[u32],
    direction: u32,
    levels: &mut [u8],
    count: &mut usize,
    place: &mut u64,
) -> u32
    ensures tables { contents_at tables.new ≡ contents_at tables.old }
    ensures levels { ReturnsStatusNaming place_named
        (PutsBaseLevelsAt (tables_at tables.old) (Codes codes.now) direction
        levels.old levels.new count.old count.new) result place.old place.new }
{
    let source = Source::Codes(codes);
    status_and_place(base_levels(tables, source, direction, levels, count), place)
}

/// Writes 1 to `stays` if a text of code points has only classes that stay at level 0, else 0. If it writes 1, all
/// levels of the text are 0, unless its paragraphs are asked to be right-to-left. If there are no tables, or a code
/// point isn't a scalar value, `stays` is unchanged.
#[unsafe(no_mangle)]
pub extern "C" fn bidi_is_left_to_right(
    tables: &mut BidiHandle,
    codes: &[u32],
    stays: &mut u8,
    place: &mut u64,
) -> u32
    ensures tables { contents_at tables.new ≡ contents_at tables.old }
    ensures stays { ReturnsStatusNaming place_named (PutsLeftToRightAt (tables_at tables.old) (Codes codes.now)
        stays.old stays.new) result place.old place.new }
{
    let source = Source::Codes(codes);
    status_and_place(is_left_to_right(tables, source, stays), place)
}

/// Writes the level of the first paragraph of a text of bytes of UTF-8 under a direction (P1 to P3) to `level`. If
/// there are no tables, or the number is no direction, or the bytes aren't UTF-8, `level` is unchanged.
#[unsafe(no_mangle)]
pub extern "C" fn bidi_base_level_utf8(
    tables: &mut BidiHandle,
    text: &[u8],
    direction: u32,
    level: &mut u8,
    place: &mut u64,
) -> u32
    ensures tables { contents_at tables.new ≡ contents_at tables.old }
    ensures level { ReturnsStatusNaming place_named
        (PutsBaseLevelAt (tables_at tables.old) (Utf8 text.now Rejected) direction
        level.old level.new) result place.old place.new }
{
    let utf8 = Source::Utf8(text, Faults::Rejected);
    status_and_place(base_level(tables, utf8, direction, level), place)
}

/// Writes the level of each paragraph of a text of bytes of UTF-8 under a direction (P1 to P3), in their order, to
/// `levels`, if all fit there, and to `count` how many there are. If it fails as `bidi_base_level_utf8` does, both are
/// unchanged.
#[unsafe(no_mangle)]
pub extern "C" fn bidi_base_levels_utf8(
    tables: &mut BidiHandle,
    text: &[u8],
    direction: u32,
    levels: &mut [u8],
    count: &mut usize,
    place: &mut u64,
) -> u32
    ensures tables { contents_at tables.new ≡ contents_at tables.old }
    ensures levels { ReturnsStatusNaming place_named (PutsBaseLevelsAt (tables_at tables.old) (Utf8 text.now Rejected)
        direction levels.old levels.new count.old count.new) result place.old place.new }
{
    let utf8 = Source::Utf8(text, Faults::Rejected);
    status_and_place(base_levels(tables, utf8, direction, levels, count), place)
}

/// Writes 1 to `stays` if a text of bytes of UTF-8 has only classes that stay at level 0, else 0. If it writes 1, all
/// levels of the text are 0, unless its paragraphs are asked to be right-to-left. If there are no tables, or the bytes
/// aren't UTF-8, `stays` is unchanged.
#[unsafe(no_mangle)]
pub extern "C" fn bidi_is_left_to_right_utf8(
    tables: &mut BidiHandle,
    text: &[u8],
    stays: &mut u8,
    place: &mut u64,
) -> u32
    ensures tables { contents_at tables.new ≡ contents_at tables.old }
    ensures stays { ReturnsStatusNaming place_named (PutsLeftToRightAt (tables_at tables.old) (Utf8 text.now Rejected)
        stays.old stays.new) result place.old place.new }
{
    let utf8 = Source::Utf8(text, Faults::Rejected);
    status_and_place(is_left_to_right(tables, utf8, stays), place)
}

/// Writes the level of the first paragraph of a text of code units of UTF-16 under a direction (P1 to P3) to `level`.
/// If there are no tables, or the number is no direction, or there is a lone surrogate, `level` is unchanged.
#[unsafe(no_mangle)]
pub extern "C" fn bidi_base_level_utf16(
    tables: &mut BidiHandle,
    text: &[u16],
    direction: u32,
    level: &mut u8,
    place: &mut u64,
) -> u32
    ensures tables { contents_at tables.new ≡ contents_at tables.old }
    ensures level { ReturnsStatusNaming place_named
        (PutsBaseLevelAt (tables_at tables.old) (Utf16 text.now Rejected) direction
        level.old level.new) result place.old place.new }
{
    let utf16 = Source::Utf16(text, Faults::Rejected);
    status_and_place(base_level(tables, utf16, direction, level), place)
}

/// Writes the level of each paragraph of a text of code units of UTF-16 under a direction (P1 to P3), in their order,
/// to `levels`, if all fit there, and to `count` how many there are. If it fails as `bidi_base_level_utf16` does, both
/// are unchanged.
#[unsafe(no_mangle)]
pub extern "C" fn bidi_base_levels_utf16(
    tables: &mut BidiHandle,
    text: &[u16],
    direction: u32,
    levels: &mut [u8],
    count: &mut usize,
    place: &mut u64,
) -> u32
    ensures tables { contents_at tables.new ≡ contents_at tables.old }
    ensures levels { ReturnsStatusNaming place_named (PutsBaseLevelsAt (tables_at tables.old) (Utf16 text.now Rejected)
        direction levels.old levels.new count.old count.new) result place.old place.new }
{
    let utf16 = Source::Utf16(text, Faults::Rejected);
    status_and_place(base_levels(tables, utf16, direction, levels, count), place)
}

/// Writes 1 to `stays` if a text of code units of UTF-16 has only classes that stay at level 0, else 0. If it writes 1,
/// all levels of the text are 0, unless its paragraphs are asked to be right-to-left. If there are no tables, or there
/// is a lone surrogate, `stays` is unchanged.
#[unsafe(no_mangle)]
pub extern "C" fn bidi_is_left_to_right_utf16(
    tables: &mut BidiHandle,
    text: &[u16],
    stays: &mut u8,
    place: &mut u64,
) -> u32
    ensures tables { contents_at tables.new ≡ contents_at tables.old }
    ensures stays { ReturnsStatusNaming place_named (PutsLeftToRightAt (tables_at tables.old) (Utf16 text.now Rejected)
        stays.old stays.new) result place.old place.new }
{
    let utf16 = Source::Utf16(text, Faults::Rejected);
    status_and_place(is_left_to_right(tables, utf16, stays), place)
}
