// Judging of lines, one after the other.
ghost use Rattle.std.specs.Prelude.{◌≡◌, ◌≤◌, IfOk, OnOk, length};
ghost use Rattle.std.specs.Result.{result_err};
ghost use Rattle.units.specs.Text.{longest_line};
ghost use Rattle.bidtests.specs.LineFaults.{line_fault_of};
ghost use Rattle.lines.specs.Scratches.{room_of};

use crate::compare::judge_expected;
use crate::kind::Kind;
use crate::line_fault::LineFault;
use crate::line_reader::{LineReader, MOST_UNITS};
use crate::verdict::Verdict;
use lines::scratch::Scratch;
use std::alloc::Global;
use std::marker::Model;
use units::limits::Limits;
use units::memory::Memory;

/// Judges lines, one after the other. It has the limits and the `Scratch` for layouts, the reader of lines, and the
/// counts.
#[derive(Drop)]
pub struct LineJudge {
    limits: Limits,
    scratch: Scratch,
    reader: LineReader,
    rows: u64,
    cases: u64,
}

impl Model for LineJudge {
    ghost use Rattle.std.specs.Prelude.{◌≡◌};
    ghost use Rattle.lines.specs.Scratches.{room_of};
    ghost use Rattle.bidtests.specs.Carried.{Carried};
    ghost use Rattle.bidtests.specs.LineReadings.{levels_in, order_in};
    ghost use Rattle.bidtests.specs.declared.line_reader.TheConstants.{MOST_UNITS};

    ghost Value = { Carried };

    ghost view = { λ s. record {
      limits = s.limits;
      levels = levels_in s.reader;
      order = order_in s.reader;
      rows = s.rows;
      cases = s.cases;
    } };

    ghost invariant = { λ s. room_of s.scratch ≡ MOST_UNITS };
}

impl LineJudge {
    ghost use Rattle.bidtests.specs.Carried.{at_start, no_at, after_line, comes_to_after, with_right_row};

    /// Creates a judge before the first line.
    pub fn new(alloc: Global, limits: Limits) -> Result<Self, Memory>
        ensures { IfOk result (λ judge. judge ≡ at_start limits) }
    {
        let reader = LineReader::new(alloc)?;
        let scratch = Scratch::reserve(alloc, MOST_UNITS)?;
        Ok(LineJudge {
            limits,
            scratch,
            reader,
            rows: 0,
            cases: 0,
        })
    }

    /// Counts a right row and its cases.
    fn count(&mut self, cases: usize)
        ensures { self.new ≡ with_right_row cases self.old }
    {
        self.rows = self.rows.saturating_add(1);
        self.cases = self.cases.saturating_add(cases as u64);
    }

    /// Judges the next line of a file of this kind, with the lists in force after the lines before it.
    fn judge(&mut self, kind: Kind<'_>, line: &[u8]) -> Result<(), LineFault>
        requires { length line.now ≤ longest_line }
        ensures fault { result_err result
            ≡ line_fault_of self.old.limits (comes_to_after kind.entry self.old line.now) }
        ensures carried { OnOk result (self.new ≡ after_line kind.entry line.now self.old) }
    {
        let Some(asked) = self.reader.read_line(kind, line)? else {
            return Ok(());
        };
        judge_expected(&mut self.scratch, self.reader.expected(asked), self.limits)?;
        self.count(asked.directions.len());
        Ok(())
    }

    /// Judges the line of this number of a file of this kind, with the lists in force after the lines before it. The
    /// error is the failing verdict.
    pub fn judge_line(&mut self, kind: Kind<'_>, number: u64, line: &[u8]) -> Result<(), Verdict>
        requires { length line.now ≤ longest_line }
        ensures no { result_err result ≡ no_at kind.entry self.old number line.now }
        ensures carried { OnOk result (self.new ≡ after_line kind.entry line.now self.old) }
    {
        self.judge(kind, line).map_err(|fault| fault.no(number))
    }

    /// Returns the verdict `Yes` with the counts so far: the verdict if no line follows.
    pub fn yes(&self) -> Verdict
        ensures { result ≡ Verdict.Yes self.now.rows self.now.cases }
    {
        Verdict::Yes {
            rows: self.rows,
            cases: self.cases,
        }
    }
}
