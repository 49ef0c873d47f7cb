//! The visual runs of a line, in the units of the text's source.
ghost use Rattle.std.specs.Prelude.{◌<◌, length};
ghost use Rattle.lines.specs.Layouts.{view_of};
ghost use Rattle.visual.specs.VisualRuns.{IsInOrder};
ghost use Rattle.room.specs.OrderedLines.{LinesHaveOrder};
ghost use Rattle.room.specs.RunsIn.{IsOrderedLine};

use crate::room::Room;
use lines::layout::Layout;
use units::level::ParaLevel;
use visual::line::OrderedLine;
use visual::line_runs::{Runs, put, runs_above};
use visual::runs::VisualRun;

/// Returns the line with the number `k` of a layout, in a paragraph of this level.
pub fn ordered_line<'a>(layout: &'a Layout<'_>, k: usize, para_level: ParaLevel) -> OrderedLine<'a>
    requires { k < length (view_of layout.now).lines }
    ensures line { IsOrderedLine (view_of layout.now) k para_level result }
    ensures order { LinesHaveOrder (view_of layout.now) → IsInOrder result }
{
    let line = layout.line(k);
    OrderedLine {
        levels: layout.levels(),
        start: line.start,
        end: line.end,
        order: line.order,
        para_level,
    }
}

impl Room {
    ghost use Rattle.std.specs.Prelude.{◌≡◌, ◌<◌, ◌≤◌, length};
    ghost use Rattle.room.specs.RunsIn.{PutsRuns, WritesRuns, run_in};
    ghost use Rattle.room.specs.Rooms.{characters_in};
    ghost use Rattle.visual.specs.VisualRuns.{IsInOrder};

    /// Returns a run of characters in the units of the source.
    pub fn in_units(&self, run: VisualRun) -> VisualRun
        requires start { run.start ≤ characters_in self.now }
        requires end { run.end ≤ characters_in self.now }
        ensures { result ≡ run_in self.now run }
    {
        VisualRun {
            start: self.offset_of(run.start),
            end: self.offset_of(run.end),
            level: run.level,
            shown: run.shown,
        }
    }

    /// Writes the runs of a line from left to right to the front of `out`, as far as there are places. Returns how many
    /// there are.
    fn put_runs(&self, line: &OrderedLine<'_>, out: &mut [VisualRun]) -> usize
        requires order { IsInOrder line.now }
        requires inside { line.now.end ≤ characters_in self.now }
        ensures len { length out.new ≡ length out.old }
        ensures runs { PutsRuns (run_in self.now) line.now result out.old out.new }
    {
        let mut count = 0;
        for run in Runs::of(*line) {
            put(out, count, self.in_units(run));
            count += 1;
        }
        count
    }

    /// Writes the visual runs of the line with the number `k`, counted from 0, from left to right to the front of
    /// `out`, if all fit there. Returns how many there are. Each unit of the line is in one of them, including those of
    /// removed characters (`visual::line_runs`).
    pub fn runs(&self, k: usize, out: &mut [VisualRun]) -> usize
        requires { k < length self.now.layout.lines }
        ensures { WritesRuns self.now k result out.old out.new }
    {
        let layout = self.layout();
        let start = layout.line(k).start;
        let line = ordered_line(&layout, k, self.para_level_of(start));
        if let Some(count) = runs_above(&line, out.len()) {
            return count;
        }
        self.put_runs(&line, out)
    }
}
