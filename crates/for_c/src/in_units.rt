//! What a room says about its text in the units of the text's source.
ghost use Rattle.std.specs.Prelude.{◌≡◌, ◌≤◌, ◌+◌, min, IfErr, IfOk, length};
ghost use Rattle.lines.specs.OneLevel.{AllHaveLevel};
ghost use Rattle.room.specs.Looking.{line_in, size_in};
ghost use Rattle.room.specs.Rooms.{characters_in, offset_in};
ghost use Rattle.room.specs.Written.{WritesWhole};
ghost use Rattle.for_c.specs.InUnits.{AreLevelBytes, IsIndexAt, IsLevelByteAt, IsUnitLine, IsParaByteAt, IsUnitRun};
ghost use Rattle.for_c.specs.InUnits.{WritesLevelBytes, WritesUnitPlaces, run_in_units};
ghost use Rattle.for_c.specs.Positions.{RejectsLine};
ghost use Rattle.for_c.specs.Runs.{RejectsRun};

use crate::call_error::CallError;
use crate::columns::byte_of;
use crate::line::{BidiLine, line_for_c};
use crate::runs::{BidiRun, run_of};
use room::places::put;
use room::room::Room;
use units::level::Level;

/// Returns the index of the character that a unit belongs to. From the text's end on it returns the number of
/// characters.
pub fn index_at(room: &Room, at: usize) -> usize
    ensures { IsIndexAt room.now at result }
{
    match room.index_of(at) {
        Some(index) => index,
        None => room.characters(),
    }
}

/// Returns the offset at which the character with this index begins. From the number of characters on it returns the
/// text's end.
pub fn offset_at(room: &Room, index: usize) -> usize
    ensures { result ≡ offset_in room.now (min index (characters_in room.now)) }
{
    room.offset_of(index.min(room.characters()))
}

/// Returns the level of a unit as a byte: 255 if its character was removed (X9), and from the text's end on.
pub fn level_byte_at(room: &Room, at: usize) -> u8
    ensures { IsLevelByteAt room.now at result }
{
    byte_of(room.level_at(at))
}

/// Does what `fill_level_bytes` does, for a text whose characters all have this level.
#[tactic(auto, using(crate::proofs::OneLevel::unit_bytes))]
fn fill_at_level(room: &Room, level: Level, out: &mut [u8])
    requires size { length out.old ≡ size_in room.now }
    requires level { AllHaveLevel level room.now.layout.levels }
    ensures len { length out.new ≡ length out.old }
    ensures levels { AreLevelBytes room.now out.new }
{
    room.offsets_rise();
    let _count = room.characters();
    out.fill(level.get());
}

/// Does what `fill_level_bytes` does, for any text.
#[tactic(auto, using(room::proofs::LevelPass::one_more))]
fn fill_by_character(room: &Room, out: &mut [u8])
    requires { length out.old ≡ size_in room.now }
    ensures len { length out.new ≡ length out.old }
    ensures levels { AreLevelBytes room.now out.new }
{
    room.offsets_rise();
    let layout = room.layout();
    let levels = layout.levels();
    let mut from = 0;
    for k in 0..levels.len() {
        let to = room.offset_of(k + 1);
        put(byte_of(levels[k]), from, to, out);
        from = to;
    }
}

/// Writes the level of each unit as a byte to `out`, which has as many items.
fn fill_level_bytes(room: &Room, out: &mut [u8])
    requires { length out.old ≡ size_in room.now }
    ensures len { length out.new ≡ length out.old }
    ensures levels { AreLevelBytes room.now out.new }
{
    match room.one_level() {
        Some(level) => fill_at_level(room, level, out),
        None => fill_by_character(room, out),
    }
}

/// Writes the level of each unit as a byte to the front of `out`, if all fit there. Returns how many units there are.
pub fn write_level_bytes(room: &Room, out: &mut [u8]) -> usize
    ensures { WritesLevelBytes room.now result out.old out.new }
{
    let text_len = room.text_len();
    if text_len <= out.len() {
        fill_level_bytes(room, &mut out[..text_len]);
    }
    text_len
}

/// Returns the line with the number `k`. Fails with `NoLine` if there is none.
pub fn unit_line_at(room: &Room, k: usize) -> Result<BidiLine, CallError>
    ensures line { IfOk result (IsUnitLine room.now k) }
    ensures reason { IfErr result (RejectsLine room.now.layout k) }
{
    if room.line_count() <= k {
        return Err(CallError::NoLine);
    }
    Ok(line_for_c(room.line(k)))
}

/// Writes where the shown characters of the line with the number `k` begin, from left to right, to the front of `out`,
/// if all fit there. Returns how many there are, 0 if there is no such line.
pub fn write_unit_order(room: &Room, k: usize, out: &mut [usize]) -> usize
    ensures { WritesWhole (line_in room.now k).order result out.old out.new }
{
    if room.line_count() <= k {
        return 0;
    }
    room.order(k, out)
}

/// Writes the place of each unit of the line with the number `k`, in the line's order, to the front of `out`, if all
/// fit there. Returns how many units the line has, 0 if there is no such line.
pub fn write_unit_places(room: &Room, k: usize, out: &mut [usize]) -> usize
    ensures { WritesUnitPlaces room.now k result out.old out.new }
{
    if room.line_count() <= k {
        return 0;
    }
    room.places(k, out)
}

/// Returns the level of the paragraph (P2, P3) in which a unit lies, 255 from the text's end on.
pub fn para_byte_at(room: &Room, at: usize) -> u8
    ensures { IsParaByteAt room.now at result }
{
    match room.para_level_at(at) {
        Some(level) => level.level().get(),
        None => 255,
    }
}

/// Returns a run of characters in units.
fn run_in_units(room: &Room, run: BidiRun) -> BidiRun
    requires { run.start + run.length ≤ characters_in room.now }
    ensures { result ≡ run_in_units room.now run }
{
    room.offsets_rise();
    let _count = room.characters();
    let start = room.offset_of(run.start);
    BidiRun {
        start,
        length: room.offset_of(run.start + run.length).saturating_sub(start),
        shown: run.shown,
        level: run.level,
    }
}

/// Returns the run of the line with the number `k` that begins at a place. Fails with `NoLine` if there is no such
/// line, else with `NoPlace` if there is no such place.
pub fn unit_run_of(room: &Room, k: usize, from: usize) -> Result<BidiRun, CallError>
    ensures run { IfOk result (IsUnitRun room.now k from) }
    ensures reason { IfErr result (RejectsRun room.now.layout k from) }
{
    let layout = room.layout();
    let run = run_of(&layout, k, from)?;
    Ok(run_in_units(room, run))
}
