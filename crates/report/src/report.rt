//! The report on a test file of either kind.
ghost use Rattle.std.specs.Prelude.{◌≡◌, ◌≤◌, ◌<◌, ◌++◌, ℕ, List, [], IfOk, IfSome, OnErr, OnOk, length, take};
ghost use Rattle.std.specs.Result.{result_err};
ghost use Rattle.units.specs.LineReturns.{CutIsShort};
ghost use Rattle.units.specs.Text.{longest_line};
ghost use Rattle.bidtests.specs.FileKinds.{stored_tables};
ghost use Rattle.bidtests.specs.declared.kind.Kind.{Kind as FileKind};
ghost use Rattle.report.specs.declared.terms.Terms.{Terms as TermsOf};
ghost use Rattle.report.specs.declared.wrong_case.WrongCase.{WrongCase as Reported};
ghost use Rattle.report.specs.FileReports.{is_right, report_of};
ghost use Rattle.report.specs.Reporting.{IsAfterLast, IsAfterCut, HasNothingNew, Reports, ReportsWith};
ghost use Rattle.report.specs.Reporting.{malformed_by, malformed_last, report_at_end};

use crate::case_counts::CaseCounts;
use crate::line_report::LineReport;
use crate::terms::Terms;
use crate::wrong_case::WrongCase;
use bidtests::kind::{Kind, StoredKind};
use bidtests::verdict::Cause;
use std::alloc::Global;
use std::marker::Model;
use units::line_cut::{Cut, LineCut};
use units::memory::Memory;

/// Reports on the bytes of a test file, in whatever pieces they come: its wrong cases, line by line, and their counts.
/// It stores one line, one row's text, the lists in force and the wrong cases of one row. It ends at the first
/// malformed line. Contracts name its terms, the bytes that it was given (its pieces, joined), and the wrong cases that
/// it has reported.
#[derive(Drop)]
pub struct Report<'t> {
    kind: StoredKind<'t>,
    splitter: LineCut,
    lines: LineReport,
    malformed: Option<(u64, Cause)>,
}

impl<'t> Model for Report<'t> {
    ghost use Rattle.bidtests.specs.FileKinds.{stored_tables};
    ghost use Rattle.report.specs.Reporting.{Reporting};

    ghost Value = { Reporting };

    ghost view = { λ s. record {
      tables = stored_tables s.kind;
      cutting = s.splitter;
      lines = s.lines;
      malformed = s.malformed;
    } };
}

/// Reports on the line that a cut ends, if it ends one. Fails with its number and cause if it is malformed.
fn report_cut(kind: Kind<'_>, lines: &mut LineReport, taken: Cut<'_>) -> Result<(), (u64, Cause)>
    requires short { CutIsShort taken }
    requires none { lines.old.found ≡ [] }
    ensures malformed { result_err result ≡ malformed_by kind.entry lines.old taken.entry }
    ensures after { OnOk result (IsAfterCut kind.entry taken.entry lines.old lines.new) }
    ensures ended { OnErr result (HasNothingNew lines.old lines.new) }
{
    match taken {
        Cut::More => Ok(()),
        Cut::Line { number, text } => lines
            .report_line(kind, number, text)
            .map_err(|cause| (number, cause)),
        Cut::TooLong { number } => Err((number, Cause::LineTooLong)),
    }
}

/// Reports on the line that has begun, if one has, at the end of a file. Fails with its number and cause if it is
/// malformed.
fn report_last(
    kind: Kind<'_>,
    lines: &mut LineReport,
    last: Option<(u64, &[u8])>,
) -> Result<(), (u64, Cause)>
    requires short { IfSome last (λ line. length line.1.now ≤ longest_line) }
    requires none { lines.old.found ≡ [] }
    ensures malformed { result_err result ≡ malformed_last kind.entry lines.old last.entry }
    ensures after { OnOk result (IsAfterLast kind.entry last.entry lines.old lines.new) }
    ensures ended { OnErr result (HasNothingNew lines.old lines.new) }
{
    match last {
        None => Ok(()),
        Some((number, text)) => lines
            .report_line(kind, number, text)
            .map_err(|cause| (number, cause)),
    }
}

impl<'t> Report<'t> {
    /// Makes a report on a file of this kind, before its first byte, with these terms. It takes all of its memory here.
    /// Fails with `Memory` if some of it is refused.
    pub fn new(alloc: Global, kind: StoredKind<'t>, terms: Terms) -> Result<Report<'t>, Memory>
        ensures represents { IfOk result (λ report. ReportsWith terms (stored_tables kind.entry) report [] []) }
        ensures none { IfOk result (λ report. report.lines.found ≡ []) }
    {
        let lines = LineReport::new(alloc, terms)?;
        Ok(Report {
            kind,
            splitter: LineCut::new(),
            lines,
            malformed: None,
        })
    }

    /// Takes the next bytes of the file, through the end of a line at most, and returns how many. Call it until the
    /// piece is used up, and look at `found` each time. Where pieces begin and end changes nothing. After a malformed
    /// line further bytes change nothing. It takes no memory and always succeeds.
    pub fn take(&mut self, piece: &[u8]) -> usize
        ensures used { result ≤ length piece.now }
        ensures some { 0 < length piece.now → 0 < result }
        ensures reports { (terms : TermsOf) (kind : FileKind) (reported : List Reported) (b : List ℕ)
            → Reports terms kind self.old reported b
            → Reports terms kind self.new (reported ++ self.new.lines.found) (b ++ take result piece.now) }
    {
        self.lines.forget();
        if self.malformed.is_some() {
            return piece.len();
        }
        let (used, taken) = self.splitter.take(piece);
        self.malformed = report_cut(self.kind.kind(), &mut self.lines, taken).err();
        used
    }

    /// Returns the wrong cases of the line that the last bytes, or the end of the file, ended, in the order auto, LTR,
    /// RTL, AutoRtl.
    pub fn found(&self) -> &[WrongCase]
        ensures { result.now ≡ self.now.lines.found }
    {
        self.lines.found()
    }

    /// Takes the end of the file, which also ends the line that has begun. Afterwards `found` returns the wrong cases
    /// of a last line that no LF ends, `case_counts` the counts of the file, and `malformed` its first malformed line.
    /// It takes no memory and always succeeds. The contract doesn't say which bytes the report represents afterwards.
    pub fn finish(&mut self)
        ensures { (terms : TermsOf) (kind : FileKind) (reported : List Reported) (b : List ℕ)
            → Reports terms kind self.old reported b → report_of terms kind b ≡ report_at_end reported self.new }
    {
        self.lines.forget();
        if self.malformed.is_none() {
            let last = self.splitter.finish();
            self.malformed = report_last(self.kind.kind(), &mut self.lines, last).err();
        }
    }

    /// Returns the counts of the lines so far, up to the first malformed one.
    pub fn case_counts(&self) -> CaseCounts
        ensures { result ≡ self.now.lines.case_counts }
    {
        self.lines.case_counts()
    }

    /// Returns the number of the first malformed line and why it is malformed, if there is one.
    pub fn malformed(&self) -> Option<(u64, Cause)>
        ensures { result ≡ self.now.malformed }
    {
        self.malformed
    }

    /// Returns whether a file is right, at its end: no line is malformed, and no case wrong.
    pub fn is_right(&self) -> bool
        ensures { (terms : TermsOf) (kind : FileKind) (reported : List Reported) (b : List ℕ)
            → report_of terms kind b ≡ report_at_end reported self.now → result ≡ is_right (report_of terms kind b) }
    {
        self.case_counts().wrong_cases == 0 && self.malformed.is_none()
    }
}
