//! Reports on test files.
ghost use Rattle.std.specs.Prelude.{◌≡◌, None, Some};
ghost use Rattle.units.specs.Limits.{standard};
ghost use Rattle.bidtests.specs.FileKinds.{stored_tables};
ghost use Rattle.for_c.specs.LimitsGiven.{ByLimits};
ghost use Rattle.for_c.specs.ReportCalls.{EndsReport, ReturnsNext, TakesBytes};
ghost use Rattle.for_c.specs.Statuses.{ReturnsStatus};
ghost use Rattle.bidi_c.specs.ContentsAt.{contents_at};
ghost use Rattle.bidi_c.specs.ReportsAt.{AtReport, MakesReport, MakesTableReport};

use crate::bidi_handle::BidiHandle;
use crate::contents::Contents;
use crate::putting::put;
use bidtests::kind::{Kind, StoredKind};
use for_c::call_error::{CallError, status};
use for_c::counts::BidiCounts;
use for_c::limits::BidiLimits;
use for_c::report_for_c::ReportForC;
use for_c::wrong_case::BidiWrongCase;
use std::alloc::Global;
use units::limits::Limits;

/// Makes a report on a file of this kind with these limits, and puts it into the handle.
fn make_report(
    alloc: Global,
    report: &mut BidiHandle,
    kind: StoredKind<'static>,
    limits: Limits,
) -> Result<(), CallError>
    ensures { MakesReport (stored_tables kind.entry) limits (contents_at report.old)
        (contents_at report.new) result }
{
    let made = ReportForC::new(alloc, kind, limits)?;
    report.hold(alloc, Contents::Report(made))
}

/// Makes a report on a BidiTest.txt with the standard limits, before its first byte. Once it is made, what the handle
/// contained before is freed. Fails with `Memory`; then the handle is unchanged.
#[unsafe(no_mangle)]
pub extern "C" fn bidi_report_new_classes(alloc: Global, report: &mut BidiHandle) -> u32
    ensures { ReturnsStatus (MakesReport None standard (contents_at report.old) (contents_at report.new)) result }
{
    status(make_report(
        alloc,
        report,
        StoredKind::Borrowed(Kind::Classes),
        Limits::standard(),
    ))
}

/// Makes a report on a BidiTest.txt as `bidi_report_new_classes` does, with these limits in place of the standard ones.
#[unsafe(no_mangle)]
#[tactic(auto, using(crate::proofs::LimitsRejected::limits_rejected))]
pub extern "C" fn bidi_report_new_classes_with(
    alloc: Global,
    report: &mut BidiHandle,
    limits: BidiLimits,
) -> u32
    ensures { ReturnsStatus (ByLimits limits (MakesReport None) (contents_at report.old) (contents_at report.new))
        result }
{
    match limits.allowed() {
        Ok(limits) => status(make_report(
            alloc,
            report,
            StoredKind::Borrowed(Kind::Classes),
            limits,
        )),
        Err(error) => status(Err(error)),
    }
}

/// Makes a report that shares the tables of a handle, and puts it into the other handle.
fn make_characters_report(
    alloc: Global,
    tables: &mut BidiHandle,
    report: &mut BidiHandle,
    limits: Limits,
) -> Result<(), CallError>
    ensures tables { contents_at tables.new ≡ contents_at tables.old }
    ensures report { MakesTableReport (contents_at tables.old) limits (contents_at report.old)
        (contents_at report.new) result }
{
    let Some(contents) = tables.contents() else {
        return Err(CallError::NoTables);
    };
    let shared = contents.share_tables()?;
    make_report(alloc, report, StoredKind::Shared(shared), limits)
}

/// Makes a report on a BidiCharacterTest.txt with the standard limits, before its first byte, that shares the tables.
/// Their handle may be freed before the report. Once the report is made, what its handle contained before is freed.
/// Fails with `NoTables` and with `Memory`; then that handle is unchanged.
#[unsafe(no_mangle)]
pub extern "C" fn bidi_report_new_characters(
    alloc: Global,
    tables: &mut BidiHandle,
    report: &mut BidiHandle,
) -> u32
    ensures tables { contents_at tables.new ≡ contents_at tables.old }
    ensures report { ReturnsStatus (MakesTableReport (contents_at tables.old) standard (contents_at report.old)
        (contents_at report.new)) result }
{
    status(make_characters_report(alloc, tables, report, Limits::standard()))
}

/// Makes a report on a BidiCharacterTest.txt as `bidi_report_new_characters` does, with these limits in place of the
/// standard ones.
#[unsafe(no_mangle)]
#[tactic(auto, using(crate::proofs::LimitsRejected::limits_rejected))]
pub extern "C" fn bidi_report_new_characters_with(
    alloc: Global,
    tables: &mut BidiHandle,
    report: &mut BidiHandle,
    limits: BidiLimits,
) -> u32
    ensures tables { contents_at tables.new ≡ contents_at tables.old }
    ensures report { ReturnsStatus (ByLimits limits (MakesTableReport (contents_at tables.old)) (contents_at report.old)
        (contents_at report.new)) result }
{
    match limits.allowed() {
        Ok(limits) => status(make_characters_report(alloc, tables, report, limits)),
        Err(error) => status(Err(error)),
    }
}

/// Frees a report, and its tables if they have no other owner. The handle is all zero then, as it may be before.
#[unsafe(no_mangle)]
pub extern "C" fn bidi_report_free(alloc: Global, report: &mut BidiHandle)
    ensures { contents_at report.new ≡ None }
{
    report.empty(alloc);
}

/// Passes the next bytes of the file to the report, if it is one.
fn feed_report(contents: &mut Contents, piece: &[u8], used: &mut usize) -> Result<(), CallError>
    ensures { AtReport (TakesBytes piece.now) (Some contents.old) (Some contents.new) used.old used.new result }
{
    match contents {
        Contents::Report(report) => put(report.feed(piece), used),
        _ => Err(CallError::NoReport),
    }
}

/// Writes the next wrong case of the report, if it is one.
fn next_of_report(contents: &mut Contents, case: &mut BidiWrongCase) -> Result<(), CallError>
    ensures { AtReport ReturnsNext (Some contents.old) (Some contents.new) case.old case.new result }
{
    match contents {
        Contents::Report(report) => put(report.next(), case),
        _ => Err(CallError::NoReport),
    }
}

/// Writes the counts of the report at the end of its file, if it is one.
fn finish_report(contents: &mut Contents, counts: &mut BidiCounts) -> Result<(), CallError>
    ensures { AtReport EndsReport (Some contents.old) (Some contents.new) counts.old counts.new result }
{
    match contents {
        Contents::Report(report) => put(report.finish(), counts),
        _ => Err(CallError::NoReport),
    }
}

/// Passes the next bytes of the file, through the end of the first line that has wrong cases, or all: `used` is how
/// many they are. It takes no memory. Fails with `NoReport` if the file has ended, and with `CasesLeft` if the report
/// has wrong cases that it has not yet returned; then all is unchanged.
#[unsafe(no_mangle)]
#[tactic(auto, using(crate::proofs::AtReports::no_report))]
pub extern "C" fn bidi_report_feed(report: &mut BidiHandle, piece: &[u8], used: &mut usize) -> u32
    ensures { ReturnsStatus (AtReport (TakesBytes piece.now) (contents_at report.old)
        (contents_at report.new) used.old used.new)
        result }
{
    match report.contents() {
        Some(contents) => status(feed_report(contents, piece, used)),
        None => status(Err(CallError::NoReport)),
    }
}

/// Writes the next wrong case of the line that the report judged last. It takes no memory. Fails with `NoCase` if the
/// report has returned all; then all is unchanged.
#[unsafe(no_mangle)]
#[tactic(auto, using(crate::proofs::AtReports::no_report))]
pub extern "C" fn bidi_report_next(report: &mut BidiHandle, case: &mut BidiWrongCase) -> u32
    ensures { ReturnsStatus (AtReport ReturnsNext (contents_at report.old) (contents_at report.new) case.old case.new)
        result }
{
    match report.contents() {
        Some(contents) => status(next_of_report(contents, case)),
        None => status(Err(CallError::NoReport)),
    }
}

/// Passes the end of the file, and writes the counts of all of it. The report has then the wrong cases of a last line
/// without LF. It takes no memory. Fails with `NoReport` if the file has ended before, and with `CasesLeft` if the
/// report has wrong cases that it has not yet returned; then all is unchanged.
#[unsafe(no_mangle)]
#[tactic(auto, using(crate::proofs::AtReports::no_report))]
pub extern "C" fn bidi_report_finish(report: &mut BidiHandle, counts: &mut BidiCounts) -> u32
    ensures { ReturnsStatus (AtReport EndsReport (contents_at report.old)
        (contents_at report.new) counts.old counts.new) result }
{
    match report.contents() {
        Some(contents) => status(finish_report(contents, counts)),
        None => status(Err(CallError::NoReport)),
    }
}
