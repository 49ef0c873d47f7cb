// Reports on lines, one after the other.
ghost use Rattle.std.specs.Prelude.{◌≡◌, ◌≤◌, [], IfOk, OnErr, OnOk, length, vec_capacity};
ghost use Rattle.std.specs.Result.{result_err};
ghost use Rattle.units.specs.Text.{longest_line};
ghost use Rattle.lines.specs.Scratches.{room_of};
ghost use Rattle.bidtests.specs.declared.line_reader.TheConstants.{MOST_UNITS};

use crate::case_counts::CaseCounts;
use crate::row_cases::find_wrong_cases;
use crate::terms::Terms;
use crate::wrong_case::WrongCase;
use bidtests::kind::Kind;
use bidtests::line_reader::{LineReader, MOST_UNITS};
use bidtests::verdict::Cause;
use lines::scratch::Scratch;
use std::alloc::Global;
use std::marker::Model;
use units::memory::Memory;

/// The maximum number of wrong cases of a row: one for each direction.
const MOST_CASES: usize = 4;

/// Reports on lines, one after the other. It stores the terms, the `Scratch` for layouts, the line reader, the counts,
/// and the wrong cases of the last line.
#[derive(Drop)]
pub struct LineReport {
    terms: Terms,
    scratch: Scratch,
    reader: LineReader,
    case_counts: CaseCounts,
    found: Vec<WrongCase>,
}

impl Model for LineReport {
    ghost use Rattle.std.specs.Prelude.{◌≡◌, vec_capacity};
    ghost use Rattle.lines.specs.Scratches.{room_of};
    ghost use Rattle.bidtests.specs.declared.line_reader.TheConstants.{MOST_UNITS};
    ghost use Rattle.report.specs.Reporting.{LineReporting};
    ghost use Rattle.report.specs.declared.line_report.TheConstants.{MOST_CASES};

    ghost Value = { LineReporting };

    ghost view = { λ s. record {
      terms = s.terms;
      reading = s.reader;
      case_counts = s.case_counts;
      found = s.found.items;
    } };

    ghost invariant = { λ s. (room_of s.scratch ≡ MOST_UNITS) × (vec_capacity s.found ≡ MOST_CASES) };
}

// Returns an empty list with capacity for the wrong cases of a row.
fn list(alloc: Global) -> Result<Vec<WrongCase>, Memory>
    ensures none { IfOk result (λ list. list.items ≡ []) }
    ensures room { IfOk result (λ list. vec_capacity list ≡ MOST_CASES) }
{
    Ok(Vec::with_capacity(alloc, MOST_CASES)?)
}

impl LineReport {
    ghost use Rattle.bidtests.specs.LineReadings.{finding_after};
    ghost use Rattle.report.specs.Reporting.{IsAtStart, IsAfterLine, HasNothingNew, cause_of, forgotten};

    /// Makes a report before its first line. Fails with `Memory` if memory is refused.
    pub fn new(alloc: Global, terms: Terms) -> Result<Self, Memory>
        ensures { IfOk result (IsAtStart terms) }
    {
        let reader = LineReader::new(alloc)?;
        let found = list(alloc)?;
        let scratch = Scratch::reserve(alloc, MOST_UNITS)?;
        Ok(LineReport {
            terms,
            scratch,
            reader,
            case_counts: CaseCounts::new(),
            found,
        })
    }

    /// Returns the wrong cases of the last line.
    pub fn found(&self) -> &[WrongCase]
        ensures { result.now ≡ self.now.found }
    {
        &self.found
    }

    /// Returns the counts.
    pub fn case_counts(&self) -> CaseCounts
        ensures { result ≡ self.now.case_counts }
    {
        self.case_counts
    }

    /// Forgets the wrong cases of the last line.
    pub fn forget(&mut self)
        ensures { self.new ≡ forgotten self.old }
    {
        self.found.clear();
    }

    /// Reports on the line with this number of a file of this kind, after the lines before it: finds its wrong cases,
    /// and counts them. Fails with the cause if the line is malformed.
    pub fn report_line(&mut self, kind: Kind<'_>, number: u64, line: &[u8]) -> Result<(), Cause>
        requires short { length line.now ≤ longest_line }
        requires none { self.old.found ≡ [] }
        ensures cause { result_err result ≡ cause_of (finding_after kind.entry self.old.reading line.now) }
        ensures after { OnOk result (IsAfterLine kind.entry number line.now self.old self.new) }
        ensures ended { OnErr result (HasNothingNew self.old self.new) }
    {
        let Some(asked) = self.reader.read_line(kind, line)? else {
            return Ok(());
        };
        let expected = self.reader.expected(asked);
        find_wrong_cases(
            &mut self.scratch,
            number,
            expected,
            &self.terms,
            &mut self.found,
        );
        self.case_counts = self
            .case_counts
            .with_row(asked.directions.len(), &self.found);
        Ok(())
    }
}
