//! All visual runs of a line, removed positions included.
ghost use Rattle.std.specs.Prelude.{◌≡◌, ◌≤◌, length};
ghost use Rattle.visual.specs.VisualRuns.{IsInOrder};
ghost use Rattle.room.specs.Rooms.{characters_in};
ghost use Rattle.room.specs.RunsIn.{PutsRuns};
ghost use Rattle.for_c.specs.LineRuns.{WritesRuns, returned_run};

use crate::runs::{BidiRun, run_for_c};
use room::room::Room;
use room::runs::ordered_line;
use visual::line::OrderedLine;
use visual::line_runs::{Runs, put, runs_above};
use visual::runs::VisualRun;

/// Returns a run as C gets it, in units of the text's source or in positions of its characters.
fn returned_run(room: &Room, in_units: bool, run: VisualRun) -> BidiRun
    requires forward { run.start ≤ run.end }
    requires inside { run.end ≤ characters_in room.now }
    ensures { result ≡ returned_run room.now in_units run }
{
    room.offsets_rise();
    if in_units {
        run_for_c(room.in_units(run))
    } else {
        run_for_c(run)
    }
}

/// Writes the runs of a line from left to right to the front of `out`, as far as there are places. Returns how many
/// there are.
fn put_runs(room: &Room, line: &OrderedLine<'_>, in_units: bool, out: &mut [BidiRun]) -> usize
    requires order { IsInOrder line.now }
    requires inside { line.now.end ≤ characters_in room.now }
    ensures len { length out.new ≡ length out.old }
    ensures runs { PutsRuns (returned_run room.now in_units) line.now result out.old out.new }
{
    let mut count = 0;
    for run in Runs::of(*line) {
        put(out, count, returned_run(room, in_units, run));
        count += 1;
    }
    count
}

/// Writes the visual runs of the line with the number `k` from left to right to the front of `out`, if all fit there.
/// Each position of the line is in one of them, removed ones too (`visual::line_runs`). Returns how many there are, 0
/// if there is no such line.
#[tactic(auto, using(crate::proofs::LineRunLists::no_runs))]
pub fn write_runs(room: &Room, k: usize, in_units: bool, out: &mut [BidiRun]) -> usize
    ensures { WritesRuns room.now in_units k result out.old out.new }
{
    let layout = room.layout();
    if layout.line_count() <= k {
        return 0;
    }
    let start = layout.line(k).start;
    let line = ordered_line(&layout, k, room.para_level_of(start));
    if let Some(count) = runs_above(&line, out.len()) {
        return count;
    }
    put_runs(room, &line, in_units, out)
}
