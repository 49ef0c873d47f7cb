// A run of the command.
ghost use Rattle.std.specs.Prelude.{◌≡◌, ◌≤◌, OnErr, OnOk, true};
ghost use Rattle.std.specs.Io.KnownBytes.{Appends};
ghost use Rattle.clap.specs.Walk.{texts};
ghost use Rattle.command.specs.Outcomes.{RequestCameToNo, EndsWithout, EndsAsRead, HasRun, HasComeToNo, version_text};
ghost use Rattle.command.specs.Rejections.{no_request_text};
ghost use Rattle.requests.specs.FaultText.{EndsBy};
ghost use Rattle.requests.specs.Outcomes.{EndsWell};

use crate::help::BIDI_VERSION;
use crate::invocation::Invocation;
use crate::rejection::{NoRequest, WordsFault};
use crate::words::invocation_of;
use clap::Error;
use clap::error::ErrorKind;
use requests::fault::{Detail, Fault};
use requests::files::Files;
use requests::outcome::Ended;
use requests::run::run_request;
use std::alloc::Global;
use std::io;
use std::io::Write;

fn print_help<W: Write>(out: &mut W, help: &Error) -> io::Result<()> {
    write!(out, "{help}")?;
    out.flush()
}

/// Writes the version text.
fn print_version<W: Write>(out: &mut W) -> io::Result<()>
    ensures { OnOk result (Appends (W.contents out.old) (W.contents out.new) version_text) }
{
    let version = BIDI_VERSION;
    writeln!(out, "bidi {version}")?;
    out.flush()
}

/// Ends a run that shows help or the version: without a fault if that was written, and otherwise with the fault of a
/// write.
fn end_shown<E: Write>(shown: io::Result<()>, err: &mut E) -> Ended
    ensures well { OnOk shown (EndsWell 0 (E.contents err.old) (E.contents err.new) result) }
    ensures fault { OnErr shown
        (EndsBy Detail.Brief Fault.CannotWrite (E.contents err.old) (E.contents err.new) result) }
{
    match shown {
        Ok(()) => Ended {
            status: 0,
            is_written: true,
            is_reported: true,
        },
        Err(_) => Fault::CannotWrite.report(err, Detail::Brief),
    }
}

/// Reports why the arguments are rejected, and returns how the run ends. The status is the same if the report can't be
/// written.
fn reject<E: Write>(rejection: &Error, err: &mut E) -> Ended
    ensures status { result.status ≡ 2 }
    ensures written { result.is_written ≡ true }
{
    let written = write!(err, "{rejection}");
    let flushed = err.flush();
    Ended {
        status: 2,
        is_written: true,
        is_reported: written.is_ok() && flushed.is_ok(),
    }
}

/// Reports why accepted arguments make no request, and returns how the run ends.
fn say_no_request<E: Write>(why: NoRequest, err: &mut E) -> Ended
    ensures status { result.status ≡ 2 }
    ensures written { result.is_written ≡ true }
    ensures noted { result.is_reported ≡ true →
        Appends (E.contents err.old) (E.contents err.new) (no_request_text why) }
{
    let written = write!(err, "{why}");
    let flushed = err.flush();
    Ended {
        status: 2,
        is_written: true,
        is_reported: written.is_ok() && flushed.is_ok(),
    }
}

/// Ends a run for which `clap` returns an error: prints help or the version, or reports why the arguments are rejected.
fn run_without_request<W: Write, E: Write>(error: &Error, out: &mut W, err: &mut E) -> Ended
    ensures { EndsWithout (W.contents out.old) (W.contents out.new)
        (E.contents err.old) (E.contents err.new) error.now result }
{
    match error.kind() {
        ErrorKind::OutOfMemory => Fault::OutOfMemory.report(err, Detail::Brief),
        ErrorKind::DisplayHelp => end_shown(print_help(out, error), err),
        ErrorKind::DisplayVersion => end_shown(print_version(out), err),
        _ => reject(error, err),
    }
}

/// Performs what the arguments ask for, as they were read, and returns how the run ends.
fn run_as_read<F: Files, W: Write, E: Write>(
    alloc: Global,
    read: Result<Invocation<'_>, WordsFault>,
    files: &F,
    out: &mut W,
    err: &mut E,
) -> Ended
    ensures status { result.status ≤ 3 }
    ensures ended { EndsAsRead (F.facts files.now) (W.contents out.old) (W.contents out.new)
        (E.contents err.old) (E.contents err.new) read.entry result }
    ensures no { result.status ≡ 1
        → RequestCameToNo (F.facts files.now) (W.contents out.old) (W.contents out.new) read.entry }
    ensures silent { result.status ≤ 1 → E.contents err.new ≡ E.contents err.old }
{
    match read {
        Ok(invocation) => {
            let Invocation { request, detail } = invocation;
            run_request(alloc, request, detail, files, out, err)
        }
        Err(WordsFault::ByClap(error)) => run_without_request(&error, out, err),
        Err(WordsFault::NoRequest(why)) => say_no_request(why, err),
    }
}

/// Performs what the arguments ask for, and returns how the run ends. The first argument is the program's name. The
/// exit status is:
/// - 0 if a text, an explanation or rows were printed, and after a yes, a report on a right file, help or the version;
/// - 1 after a no, or after a report on a file that is not right, if it was written;
/// - 2 if the arguments are rejected, if tables are needed and none are named, if an option's value is not allowed or
///   too long, if texts can't be enumerated or drawn, or if the line that is to be explained is not a row;
/// - 3 if a file or standard input can't be read, if a table, the text or a line up to the row is faulty, or if a write
///   or an allocation fails.
///
/// With status 2 and 3, the fault is reported to `err`, with its reason if the arguments ask for it, and the result
/// says whether `err` took the report. With status 0 and 1, nothing is written to `err`.
pub fn run<F: Files, W: Write, E: Write>(
    alloc: Global,
    words: &[&str],
    files: &F,
    out: &mut W,
    err: &mut E,
) -> Ended
    ensures status { result.status ≤ 3 }

    // The status is that of what the arguments ask for, and the fault is reported in what `err` grew by.
    ensures outcome { HasRun (F.facts files.now) (W.contents out.old) (W.contents out.new)
        (E.contents err.old) (E.contents err.new) (texts words.now) result }

    // The status is 1 only if the arguments ask for a judgement or a report, the result for all bytes of the file is a
    // no or a report on a file that is not right, and that result was written.
    ensures no { result.status ≡ 1
        → HasComeToNo (F.facts files.now) (W.contents out.old) (W.contents out.new) (texts words.now) }
    ensures silent { result.status ≤ 1 → E.contents err.new ≡ E.contents err.old }
{
    run_as_read(alloc, invocation_of(alloc, words), files, out, err)
}
