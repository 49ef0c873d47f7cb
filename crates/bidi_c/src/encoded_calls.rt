//! What a room says about a text in code units, copied out in offsets.
ghost use Rattle.std.specs.Prelude.{◌≡◌, true, MatchOption, min};
ghost use Rattle.room.specs.Looking.{line_in};
ghost use Rattle.room.specs.Rooms.{characters_in, offset_in};
ghost use Rattle.room.specs.ShownUnits.{shown_utf16, shown_utf8};
ghost use Rattle.room.specs.Written.{WritesWhole};
ghost use Rattle.for_c.specs.InUnits.{IsIndexAt, IsLevelByteAt, IsParaByteAt, IsUnitLine, IsUnitRun, WritesLevelBytes};
ghost use Rattle.for_c.specs.InUnits.{WritesUnitPlaces};
ghost use Rattle.for_c.specs.LineRuns.{WritesRuns};
ghost use Rattle.for_c.specs.Positions.{RejectsLine};
ghost use Rattle.for_c.specs.Runs.{RejectsRun};
ghost use Rattle.for_c.specs.Shown.{WritesNothing};
ghost use Rattle.for_c.specs.Statuses.{ReturnsStatus, Puts};
ghost use Rattle.bidi_c.specs.AtHandles.{AtARoom};
ghost use Rattle.bidi_c.specs.ContentsAt.{encoded_at, contents_at, tables_at};
ghost use Rattle.bidi_c.specs.ShownAt.{WritesUnitsAt};

use crate::bidi_handle::BidiHandle;
use crate::putting::put;
use for_c::call_error::{CallError, status};
use for_c::in_units::{
    index_at, level_byte_at, offset_at, para_byte_at, unit_line_at, unit_run_of, write_level_bytes,
    write_unit_order, write_unit_places,
};
use for_c::line::BidiLine;
use for_c::line_runs::write_runs;
use for_c::runs::BidiRun;
use for_c::shown::{write_shown_utf8, write_shown_utf16};

/// Returns the index of the character that the code unit at an offset belongs to. From the text's end on it returns the
/// number of characters. Returns 0 without a room for code units.
#[unsafe(no_mangle)]
pub extern "C" fn bidi_index_of(room: &mut BidiHandle, at: usize) -> usize
    ensures room { contents_at room.new ≡ contents_at room.old }
    ensures index { MatchOption (encoded_at room.old) (result ≡ 0) (λ room. IsIndexAt room at result) }
{
    let Some(contents) = room.contents() else {
        return 0;
    };
    match contents.room_for(true) {
        Some(room) => index_at(room, at),
        None => 0,
    }
}

/// Returns the offset at which the character with this index begins. From the number of characters on it returns the
/// text's end. Returns 0 without a room for code units.
#[unsafe(no_mangle)]
pub extern "C" fn bidi_offset_of(room: &mut BidiHandle, index: usize) -> usize
    ensures room { contents_at room.new ≡ contents_at room.old }
    ensures offset { MatchOption (encoded_at room.old) (result ≡ 0)
        (λ room. result ≡ offset_in room (min index (characters_in room))) }
{
    let Some(contents) = room.contents() else {
        return 0;
    };
    match contents.room_for(true) {
        Some(room) => offset_at(room, index),
        None => 0,
    }
}

/// Returns the level after L1 of the character of the code unit at an offset. Returns 255 if the character was removed
/// (X9), from the text's end on, and without a room for code units.
#[unsafe(no_mangle)]
pub extern "C" fn bidi_level_at(room: &mut BidiHandle, at: usize) -> u8
    ensures room { contents_at room.new ≡ contents_at room.old }
    ensures level { MatchOption (encoded_at room.old) (result ≡ 255) (λ room. IsLevelByteAt room at result) }
{
    let Some(contents) = room.contents() else {
        return 255;
    };
    match contents.room_for(true) {
        Some(room) => level_byte_at(room, at),
        None => 255,
    }
}

/// Writes the line with the number `k`, counted from 0, to `line`: the offsets at which it begins and ends, and how
/// many of its characters are shown. If there is none, `line` is unchanged.
#[unsafe(no_mangle)]
#[tactic(auto, using(crate::proofs::Needed::no_room, crate::proofs::Needed::not_contained))]
pub extern "C" fn bidi_encoded_line(room: &mut BidiHandle, k: usize, line: &mut BidiLine) -> u32
    ensures room { contents_at room.new ≡ contents_at room.old }
    ensures line { ReturnsStatus (AtARoom (encoded_at room.old)
        (λ room. Puts (IsUnitLine room k) (RejectsLine room.layout k)) line.old line.new) result }
{
    let Some(contents) = room.contents() else {
        return status(Err(CallError::NoRoom));
    };
    match contents.room_for(true) {
        Some(room) => status(put(unit_line_at(room, k), line)),
        None => status(Err(CallError::NoRoom)),
    }
}

/// Writes the levels of the text's code units after L1, each that of its character, to `levels`, if all fit there: 255
/// if the character was removed (X9). Returns how many there are, 0 without a room for code units.
#[unsafe(no_mangle)]
pub extern "C" fn bidi_encoded_levels(room: &mut BidiHandle, levels: &mut [u8]) -> usize
    ensures room { contents_at room.new ≡ contents_at room.old }
    ensures levels { MatchOption (encoded_at room.old) (WritesNothing result levels.old levels.new)
        (λ room. WritesLevelBytes room result levels.old levels.new) }
{
    let Some(contents) = room.contents() else {
        return 0;
    };
    match contents.room_for(true) {
        Some(room) => write_level_bytes(room, levels),
        None => 0,
    }
}

/// Writes the offsets at which the shown characters of the line with the number `k` begin, from left to right (L2), to
/// `order`, if all fit there. Returns how many there are, 0 without such a line or a room for code units.
#[unsafe(no_mangle)]
pub extern "C" fn bidi_encoded_order(room: &mut BidiHandle, k: usize, order: &mut [usize]) -> usize
    ensures room { contents_at room.new ≡ contents_at room.old }
    ensures order { MatchOption (encoded_at room.old) (WritesNothing result order.old order.new)
        (λ room. WritesWhole (line_in room k).order result order.old order.new) }
{
    let Some(contents) = room.contents() else {
        return 0;
    };
    match contents.room_for(true) {
        Some(room) => write_unit_order(room, k, order),
        None => 0,
    }
}

/// Writes the run of the line with the number `k` that begins at the place `from` to `run`, as `bidi_run` does, but
/// with its beginning and its length in code units.
#[unsafe(no_mangle)]
#[tactic(auto, using(crate::proofs::Needed::no_room, crate::proofs::Needed::not_contained))]
pub extern "C" fn bidi_encoded_run(
    room: &mut BidiHandle,
    k: usize,
    from: usize,
    run: &mut BidiRun,
) -> u32
    ensures room { contents_at room.new ≡ contents_at room.old }
    ensures run { ReturnsStatus (AtARoom (encoded_at room.old)
        (λ room. Puts (IsUnitRun room k from) (RejectsRun room.layout k from)) run.old run.new) result }
{
    let Some(contents) = room.contents() else {
        return status(Err(CallError::NoRoom));
    };
    match contents.room_for(true) {
        Some(room) => status(put(unit_run_of(room, k, from), run)),
        None => status(Err(CallError::NoRoom)),
    }
}

/// Writes the visual runs of the line with the number `k` to `runs`, as `bidi_runs` does, but with their beginnings and
/// lengths in code units. Returns how many there are, 0 without such a line or a room for code units.
#[unsafe(no_mangle)]
pub extern "C" fn bidi_encoded_runs(room: &mut BidiHandle, k: usize, runs: &mut [BidiRun]) -> usize
    ensures room { contents_at room.new ≡ contents_at room.old }
    ensures runs { MatchOption (encoded_at room.old) (WritesNothing result runs.old runs.new)
        (λ room. WritesRuns room true k result runs.old runs.new) }
{
    let Some(contents) = room.contents() else {
        return 0;
    };
    match contents.room_for(true) {
        Some(room) => write_runs(room, k, true, runs),
        None => 0,
    }
}

/// Writes the place of each code unit of the line with the number `k`, in the line's order, to `places`, if all fit
/// there: that of its character, `SIZE_MAX` if the character was removed (X9). Returns how many code units the line
/// has, 0 without such a line or a room for code units.
#[unsafe(no_mangle)]
pub extern "C" fn bidi_encoded_places(
    room: &mut BidiHandle,
    k: usize,
    places: &mut [usize],
) -> usize
    ensures room { contents_at room.new ≡ contents_at room.old }
    ensures places { MatchOption (encoded_at room.old) (WritesNothing result places.old places.new)
        (λ room. WritesUnitPlaces room k result places.old places.new) }
{
    let Some(contents) = room.contents() else {
        return 0;
    };
    match contents.room_for(true) {
        Some(room) => write_unit_places(room, k, places),
        None => 0,
    }
}

/// Returns the level of the paragraph (P2, P3) in which the code unit at an offset lies: 255 from the text's end on,
/// and without a room for code units.
#[unsafe(no_mangle)]
pub extern "C" fn bidi_encoded_para_level_at(room: &mut BidiHandle, at: usize) -> u8
    ensures room { contents_at room.new ≡ contents_at room.old }
    ensures level { MatchOption (encoded_at room.old) (result ≡ 255) (λ room. IsParaByteAt room at result) }
{
    let Some(contents) = room.contents() else {
        return 255;
    };
    match contents.room_for(true) {
        Some(room) => para_byte_at(room, at),
        None => 255,
    }
}

/// Writes the characters of the line with the number `k` as they are shown, as `bidi_shown` does, but in UTF-8. `text`
/// is the whole text in UTF-8 that was laid out. Returns how many bytes there are, 0 if there is no such line, no room
/// for code units or no tables, and if the text that was laid out has another length.
#[unsafe(no_mangle)]
pub extern "C" fn bidi_encoded_shown_utf8(
    room: &mut BidiHandle,
    tables: &mut BidiHandle,
    text: &[u8],
    k: usize,
    shown: &mut [u8],
) -> usize
    ensures room { contents_at room.new ≡ contents_at room.old }
    ensures tables { contents_at tables.new ≡ contents_at tables.old }
    ensures shown { WritesUnitsAt shown_utf8 (encoded_at room.old) (tables_at tables.old) text.now k
        result shown.old shown.new }
{
    let Some(contents) = room.contents() else {
        return 0;
    };
    let Some(room) = contents.room_for(true) else {
        return 0;
    };
    match tables.tables() {
        Some(tables) => write_shown_utf8(room, tables, text, k, shown),
        None => 0,
    }
}

/// Writes the characters of the line with the number `k` as they are shown, as `bidi_shown` does, but in UTF-16. `text`
/// is the whole text in UTF-16 that was laid out. Returns how many code units there are, 0 if there is no such line, no
/// room for code units or no tables, and if the text that was laid out has another length.
#[unsafe(no_mangle)]
pub extern "C" fn bidi_encoded_shown_utf16(
    room: &mut BidiHandle,
    tables: &mut BidiHandle,
    text: &[u16],
    k: usize,
    shown: &mut [u16],
) -> usize
    ensures room { contents_at room.new ≡ contents_at room.old }
    ensures tables { contents_at tables.new ≡ contents_at tables.old }
    ensures shown { WritesUnitsAt shown_utf16 (encoded_at room.old) (tables_at tables.old) text.now k
        result shown.old shown.new }
{
    let Some(contents) = room.contents() else {
        return 0;
    };
    let Some(room) = contents.room_for(true) else {
        return 0;
    };
    match tables.tables() {
        Some(tables) => write_shown_utf16(room, tables, text, k, shown),
        None => 0,
    }
}
