//! Prints a report while its file is read.
ghost use Rattle.std.specs.Prelude.{◌≡◌, ◌≢◌, ℕ, List, IfOk, IfErr, OnOk};
ghost use Rattle.std.specs.Io.KnownBytes.{Appends};
ghost use Rattle.report.specs.declared.wrong_case.WrongCase.{WrongCase as Reported};
ghost use Rattle.std.specs.IoError.{error_kind};
ghost use Rattle.std.specs.declared.io.ErrorKind.TheVariants.{BrokenPipe};
ghost use Rattle.report.specs.PrintedReports.{BreaksOff, EndsUnwritten, HasReported, HasWrittenFirst};
ghost use Rattle.report.specs.PrintedReports.{IsFaultOf, IsWriteFault, Prints, PrintsEnd, ReportsCut};
ghost use Rattle.report.specs.ReportText.{wrong_cases_text};

use crate::report::Report;
use crate::report_text::{print_foot, print_wrong_case};
use crate::wrong_case::WrongCase;
use printing::output::Output;
use printing::written::Written;
use std::io;
use std::io::ErrorKind;
use units::source::ByteSource;

/// Why a report broke off.
#[derive(Clone, Copy, Debug, PartialEq, Eq)]
pub enum ReportFault {
    /// The source failed.
    Read { written: Written },
    /// A write failed. The source has ended.
    Write,
    /// A write failed because nobody reads what is written any more. The source was not read further.
    NobodyReads,
}

impl From<io::Error> for ReportFault {
    ghost use Rattle.report.specs.PrintedReports.{IsFaultOf};

    ghost from_gives = { λ error fault. IsFaultOf error fault };

    fn from(error: io::Error) -> Self {
        match error.kind() {
            ErrorKind::BrokenPipe => ReportFault::NobodyReads,
            _ => ReportFault::Write,
        }
    }
}

/// Writes the lines of these wrong cases.
fn print_cases<W: Output>(w: &mut W, cases: &[WrongCase]) -> io::Result<()>
    ensures written { OnOk result (Appends (W.contents w.old) (W.contents w.new) (wrong_cases_text cases.now)) }
    ensures failed { IfErr result (W.failed_with w.new) }
{
    for case in cases {
        print_wrong_case(w, case)?;
    }
    Ok(())
}

/// Writes the lines of the first of these wrong cases, at most `most`. Returns how many more may follow.
fn print_first<W: Output>(w: &mut W, cases: &[WrongCase], most: u64) -> io::Result<u64>
    ensures written { IfOk result (HasWrittenFirst most cases.now (W.contents w.old) (W.contents w.new)) }
    ensures failed { IfErr result (W.failed_with w.new) }
{
    let count = most.min(cases.len() as u64);
    print_cases(w, &cases[..count as usize])?;
    Ok(most - count)
}

/// Passes the next bytes of the file to the report, and writes the lines of the first wrong cases that it reports, at
/// most `most`. Returns how many more may follow.
fn print_piece<W: Output>(
    w: &mut W,
    report: &mut Report<'_>,
    piece: &[u8],
    most: u64,
) -> io::Result<u64>
    ensures written { IfOk result (λ remaining. (reported : List Reported) ×
        HasReported report.old reported piece.now report.new
        × HasWrittenFirst most reported (W.contents w.old) (W.contents w.new) remaining) }
    ensures failed { IfErr result (W.failed_with w.new) }
{
    let mut rest = piece;
    let mut remaining = most;
    while !rest.is_empty() {
        let used = report.take(rest);
        remaining = print_first(w, report.found(), remaining)?;
        rest = &rest[used..];
    }
    Ok(remaining)
}

/// Reads the source to its end after a write failed, and returns the fault that comes first.
fn read_on<S: ByteSource>(source: &mut S) -> ReportFault
    ensures { (given : List ℕ) × S.gives source.old given source.new
        × EndsUnwritten (S.failures source.new ≡ 1) (S.ended source.new) result }
{
    let written = Written::CutOff;
    let mut piece = [0; 4096];
    loop {
        match source.read(&mut piece) {
            Err(_) => return ReportFault::Read { written },
            Ok(0) => return ReportFault::Write,
            Ok(_) => {}
        }
    }
}

/// Returns the fault of a report if a write failed with this error. Reads the source to its end, as `read_on` does,
/// unless nobody reads what is written any more.
fn end_unwritten<S: ByteSource>(error: io::Error, source: &mut S) -> ReportFault
    ensures unread { error_kind error ≡ BrokenPipe → (result ≡ ReportFault.NobodyReads) × (source.new ≡ source.old) }
    ensures write { error_kind error ≢ BrokenPipe → (given : List ℕ) × S.gives source.old given source.new
        × EndsUnwritten (S.failures source.new ≡ 1) (S.ended source.new) result }
{
    match ReportFault::from(error) {
        ReportFault::Write => read_on(source),
        fault => fault,
    }
}

/// Reads the source to its end, passes its bytes to the report, and writes the lines of the first wrong cases that it
/// reports, at most `most`. Returns how many more may follow.
fn print_source<S: ByteSource, W: Output>(
    w: &mut W,
    report: &mut Report<'_>,
    source: &mut S,
    most: u64,
) -> Result<u64, ReportFault>
    ensures whole { OnOk result (S.ended source.new) }
    ensures reported { IfOk result (λ remaining. (given : List ℕ) × (reported : List Reported)
        × S.gives source.old given source.new × HasReported report.old reported given report.new
        × HasWrittenFirst most reported (W.contents w.old) (W.contents w.new) remaining) }
    ensures fault { IfErr result (λ fault. (given : List ℕ) × S.gives source.old given source.new
        × BreaksOff (S.failures source.new ≡ 1) (S.ended source.new) report.old most given
        (W.contents w.old) (W.contents w.new) fault) }
    ensures cut_off { IfErr result (ReportsCut (W.failed_with w.new)) }
{
    let written = Written::Whole;
    let mut remaining = most;
    let mut piece = [0; 4096];
    loop {
        match source.read(&mut piece) {
            Err(_) => return Err(ReportFault::Read { written }),
            Ok(0) => return Ok(remaining),
            Ok(n) => match print_piece(w, report, &piece[..n], remaining) {
                Ok(more) => remaining = more,
                Err(error) => return Err(end_unwritten(error, source)),
            },
        }
    }
}

/// Writes the rest of an ended report: the lines of the first of its wrong cases, at most `most`, and then the foot.
/// Returns whether the file is right.
fn print_end<W: Output>(w: &mut W, ended: &Report<'_>, most: u64) -> Result<bool, ReportFault>
    ensures printed { IfOk result (PrintsEnd most ended.now (W.contents w.old) (W.contents w.new)) }
    ensures fault { IfErr result IsWriteFault }
{
    print_first(w, ended.found(), most)?;
    print_foot(w, ended.malformed(), &ended.case_counts())?;
    Ok(ended.is_right())
}

/// Reads the source to its end and writes the report on its bytes: a line for each of the first wrong cases, at most
/// `most`, and then the foot (`report_text`). Each wrong case is written as soon as its line is read. The report must
/// be a new one, so that the source is the whole file. Returns whether the file is right: no line is malformed, and no
/// case wrong.
///
/// It reads on after a malformed line. It reads 4,096 bytes at a time, and takes no memory.
///
/// Fails with `Read` if the source has failed, and else with `Write` if a write failed. So the source is read to its
/// end after a failed write, and nothing more is written. `Read` says whether a write failed before. If none did, the
/// lines of the wrong cases on the lines that have ended are written. Fails at once with `NobodyReads` if a write fails
/// with `ErrorKind::BrokenPipe`; the source is not read further.
pub fn print_report<S: ByteSource, W: Output>(
    w: &mut W,
    mut report: Report<'_>,
    source: &mut S,
    most: u64,
) -> Result<bool, ReportFault>
    ensures whole { OnOk result (S.ended source.new) }
    ensures printed { IfOk result (λ right. (given : List ℕ) × S.gives source.old given source.new
        × Prints report.entry most given (W.contents w.old) (W.contents w.new) right) }
    ensures fault { IfErr result (λ fault. (given : List ℕ) × S.gives source.old given source.new
        × BreaksOff (S.failures source.new ≡ 1) (S.ended source.new) report.entry most given
        (W.contents w.old) (W.contents w.new) fault) }
    ensures cut_off { IfErr result (ReportsCut (W.failed_with w.new)) }
{
    let remaining = print_source(w, &mut report, source, most)?;
    report.finish();
    print_end(w, &report, remaining)
}
