//! A line from left to right, copied out in positions of characters.
ghost use Rattle.std.specs.Prelude.{◌≡◌, false, MatchOption};
ghost use Rattle.for_c.specs.LineRuns.{WritesRuns};
ghost use Rattle.for_c.specs.Positions.{WritesPlaces};
ghost use Rattle.for_c.specs.Runs.{IsVisualRun, RejectsRun};
ghost use Rattle.for_c.specs.Shown.{WritesNothing};
ghost use Rattle.for_c.specs.Statuses.{ReturnsStatus, Puts};
ghost use Rattle.lines.specs.Layouts.{line_at};
ghost use Rattle.bidi_c.specs.AtHandles.{AtARoom};
ghost use Rattle.bidi_c.specs.ContentsAt.{contents_at, line_of_room, room_at, tables_at};
ghost use Rattle.bidi_c.specs.ShownAt.{WritesShownAt};

use crate::bidi_handle::BidiHandle;
use crate::putting::put;
use for_c::call_error::{CallError, status};
use for_c::line_runs::write_runs;
use for_c::positions::write_places;
use for_c::runs::{BidiRun, run_of};
use for_c::shown::write_shown;

/// Writes the place of each position of the line with the number `k`, in the line's order, to `places`, if all fit
/// there: `SIZE_MAX` for a position that was removed (X9). The first is for the position at which the line begins.
/// Returns how many positions the line has, 0 if there is no such line.
#[unsafe(no_mangle)]
pub extern "C" fn bidi_places(room: &mut BidiHandle, k: usize, places: &mut [usize]) -> usize
    ensures room { contents_at room.new ≡ contents_at room.old }
    ensures places { WritesPlaces (line_of_room room.old k) result places.old places.new }
{
    let Some(contents) = room.contents() else {
        return 0;
    };
    match contents.room() {
        Some(room) => write_places(&room.layout(), k, places),
        None => 0,
    }
}

/// Writes the run of the line with the number `k` that begins at the place `from` to `run`: all places from there on up
/// to the next whose position has another level. The runs of a line are those from 0, and from the end of each one.
#[unsafe(no_mangle)]
#[tactic(auto, using(crate::proofs::Needed::no_room, crate::proofs::Needed::not_contained))]
pub extern "C" fn bidi_run(room: &mut BidiHandle, k: usize, from: usize, run: &mut BidiRun) -> u32
    ensures room { contents_at room.new ≡ contents_at room.old }
    ensures run { ReturnsStatus (AtARoom (room_at room.old) (λ room. Puts
        (IsVisualRun room.layout.levels (line_at room.layout k).order from) (RejectsRun room.layout k from))
        run.old run.new) result }
{
    let Some(contents) = room.contents() else {
        return status(Err(CallError::NoRoom));
    };
    match contents.room() {
        Some(room) => status(put(run_of(&room.layout(), k, from), run)),
        None => status(Err(CallError::NoRoom)),
    }
}

/// Writes the visual runs of the line with the number `k` to `runs`, if all fit there, from left to right (L2). Each
/// position of the line is in one of them, removed ones too (X9). Returns how many there are, 0 without such a line or
/// a room.
#[unsafe(no_mangle)]
pub extern "C" fn bidi_runs(room: &mut BidiHandle, k: usize, runs: &mut [BidiRun]) -> usize
    ensures room { contents_at room.new ≡ contents_at room.old }
    ensures runs { MatchOption (room_at room.old) (WritesNothing result runs.old runs.new)
        (λ room. WritesRuns room false k result runs.old runs.new) }
{
    let Some(contents) = room.contents() else {
        return 0;
    };
    match contents.room() {
        Some(room) => write_runs(room, k, false, runs),
        None => 0,
    }
}

/// Writes the characters of the line with the number `k` as they are shown to `shown`, if all fit there: from left to
/// right, each at an odd level as its mirrored character, if it has one (L4). `codes` are the code points of the whole
/// text that was laid out. Returns how many there are, 0 if there is no such line, if there are no tables, and if the
/// text that was laid out has another length.
#[unsafe(no_mangle)]
pub extern "C" fn bidi_shown(
    room: &mut BidiHandle,
    tables: &mut BidiHandle,
    codes: &[u32],
    k: usize,
    shown: &mut [u32],
) -> usize
    ensures room { contents_at room.new ≡ contents_at room.old }
    ensures tables { contents_at tables.new ≡ contents_at tables.old }
    ensures shown { WritesShownAt (room_at room.old) (tables_at tables.old) codes.now k result shown.old shown.new }
{
    let Some(contents) = room.contents() else {
        return 0;
    };
    let Some(room) = contents.room() else {
        return 0;
    };
    match tables.tables() {
        Some(tables) => write_shown(room, tables, codes, k, shown),
        None => 0,
    }
}
