//! A report whose wrong cases are asked for one by one.
ghost use Rattle.std.specs.Prelude.{◌≡◌, ◌↔◌, ◌≤◌, ◌<◌, [], true, IfErr, IfOk, MatchOption, OnOk, length, take};
ghost use Rattle.bidtests.specs.FileKinds.{stored_tables};
ghost use Rattle.for_c.specs.ReportCalls.{Ends, EndsReport, AcceptsBytes, RejectsBytes, Returns, ReturnsNext, Takes};
ghost use Rattle.for_c.specs.ReportCalls.{TakesBytes};
ghost use Rattle.for_c.specs.ReportsForC.{IsNewReport, cases_left};

use crate::call_error::CallError;
use crate::counts::{BidiCounts, counts_for_c};
use crate::wrong_case::{BidiWrongCase, case_for_c};
use bidtests::kind::StoredKind;
use report::report::Report;
use report::terms::Terms;
use report::wrong_case::WrongCase;
use std::alloc::Global;
use units::limits::Limits;

/// A report whose wrong cases are asked for one by one. It borrows nothing.
#[derive(Drop)]
pub struct ReportForC {
    report: Report<'static>,
    /// The number of wrong cases of the line that it judged last that it has returned.
    returned: usize,
    /// Whether it has taken the end of the file.
    ended: bool,
}

impl ReportForC {
    /// Makes a report on a file of this kind, before its first byte, that lays out with these limits. It is boxed
    /// because it contains a line. Fails with `Memory`.
    pub fn new(
        alloc: Global,
        kind: StoredKind<'static>,
        limits: Limits,
    ) -> Result<Box<ReportForC>, CallError>
        ensures made { IfOk result (λ report. IsNewReport limits (stored_tables kind.entry) report.value) }
        ensures reason { IfErr result (λ error. error ≡ CallError.Memory) }
    {
        let Ok(report) = Report::new(alloc, kind, Terms::strict(limits)) else {
            return Err(CallError::Memory);
        };
        let report = ReportForC {
            report,
            returned: 0,
            ended: false,
        };
        match Box::new(alloc, report) {
            Ok(report) => Ok(report),
            Err(_) => Err(CallError::Memory),
        }
    }

    /// Returns whether it has wrong cases that it has not yet returned.
    fn has_cases(&self) -> bool
        ensures { (result ≡ true) ↔ (0 < length (cases_left self.now)) }
    {
        self.returned < self.report.found().len()
    }

    /// Tests whether it can take bytes, or the end of its file. Fails with `NoReport` if the file has ended, and else
    /// with `CasesLeft` if it has wrong cases that it has not yet returned.
    fn check_accepts(&self) -> Result<(), CallError>
        ensures accepts { OnOk result (AcceptsBytes self.now) }
        ensures reason { IfErr result (RejectsBytes self.now) }
    {
        if self.ended {
            return Err(CallError::NoReport);
        }
        if self.has_cases() {
            return Err(CallError::CasesLeft);
        }
        Ok(())
    }

    /// Takes the next bytes of the file, through the end of a line at most. Returns how many.
    fn take_line(&mut self, piece: &[u8]) -> usize
        requires { cases_left self.old ≡ [] }
        ensures used { result ≤ length piece.now }
        ensures some { 0 < length piece.now → 0 < result }
        ensures takes { Takes self.old self.new (take result piece.now) }
    {
        let used = self.report.take(piece);
        self.returned = 0;
        used
    }

    /// Takes the next bytes of the file, through the end of the first line that has wrong cases. Returns how many.
    fn take_piece(&mut self, piece: &[u8]) -> usize
        requires { cases_left self.old ≡ [] }
        ensures used { result ≤ length piece.now }
        ensures takes { Takes self.old self.new (take result piece.now) }
        ensures stops { result < length piece.now → 0 < length (cases_left self.new) }
    {
        let mut at = 0;
        while at < piece.len() && !self.has_cases() {
            at += self.take_line(&piece[at..]);
        }
        at
    }

    /// Takes the next bytes of the file, through the end of the first line that has wrong cases, or all. Returns how
    /// many. It takes no memory.
    ///
    /// Fails with `NoReport` if the file has ended, and else with `CasesLeft` if it has wrong cases that it has not yet
    /// returned; then it is unchanged.
    pub fn feed(&mut self, piece: &[u8]) -> Result<usize, CallError>
        ensures { TakesBytes piece.now self.old self.new result }
    {
        self.check_accepts()?;
        Ok(self.take_piece(piece))
    }

    /// Returns the next wrong case of the line that it judged last, if it has one that it has not yet returned.
    fn next_case(&mut self) -> Option<WrongCase>
        ensures { MatchOption result ((cases_left self.old ≡ []) × (self.new ≡ self.old))
            (Returns self.old self.new) }
    {
        let case = *self.report.found().get(self.returned)?;
        self.returned += 1;
        Some(case)
    }

    /// Returns the next wrong case of the line that it judged last. It takes no memory. Fails with `NoCase` if it has
    /// returned all; then it is unchanged.
    pub fn next(&mut self) -> Result<BidiWrongCase, CallError>
        ensures { ReturnsNext self.old self.new result }
    {
        match self.next_case() {
            Some(case) => Ok(case_for_c(case)),
            None => Err(CallError::NoCase),
        }
    }

    /// Takes the end of the file. Returns the counts.
    fn end(&mut self) -> BidiCounts
        requires { cases_left self.old ≡ [] }
        ensures { Ends self.old self.new result }
    {
        self.report.finish();
        self.returned = 0;
        self.ended = true;
        counts_for_c(&self.report.case_counts(), self.report.malformed())
    }

    /// Takes the end of the file. Returns the counts of the whole file. Afterwards it has the wrong cases of a last
    /// line without LF. It takes no memory.
    ///
    /// Fails with `NoReport` if the file has ended before, and else with `CasesLeft` if it has wrong cases that it has
    /// not yet returned; then it is unchanged.
    pub fn finish(&mut self) -> Result<BidiCounts, CallError>
        ensures { EndsReport self.old self.new result }
    {
        self.check_accepts()?;
        Ok(self.end())
    }
}
