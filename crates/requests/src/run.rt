// Runs a request to its end.
ghost use Rattle.std.specs.Prelude.{◌≡◌, ◌≤◌, IfOk, IfErr};
ghost use Rattle.std.specs.Io.KnownBytes.{Keeps};
ghost use Rattle.requests.specs.Outcomes.{Fails, HasEnded, IsDone, RequestLeaves};

use crate::fault::{Detail, Fault};
use crate::files::Files;
use crate::outcome::{Ended, Outcome};
use crate::performing::perform;
use crate::request::Request;
use std::alloc::Global;
use std::io::Write;

/// Flushes the output. Fails with `CannotWrite` if that fails.
fn flush<W: Write>(out: &mut W) -> Result<(), Fault<'static>>
    ensures bytes { Keeps (W.contents out.old) (W.contents out.new) }
    ensures fault { IfErr result (λ fault. fault ≡ Fault.CannotWrite) }
{
    match out.flush() {
        Ok(()) => Ok(()),
        Err(_) => Err(Fault::CannotWrite),
    }
}

/// Performs the request, and flushes the output.
fn perform_and_flush<'a, F: Files, W: Write>(
    alloc: Global,
    request: Request<'a>,
    files: &F,
    out: &mut W,
) -> Result<Outcome, Fault<'a>>
    ensures done { IfOk result (IsDone (F.facts files.now)
        (W.contents out.old) (W.contents out.new) request.entry) }
    ensures fault { IfErr result (Fails (F.facts files.now)
        (W.contents out.old) (W.contents out.new) request.entry) }
    ensures memory { IfErr result (RequestLeaves (W.contents out.old) (W.contents out.new) request.entry) }
{
    let outcome = perform(alloc, request, files, out)?;
    flush(out)?;
    Ok(outcome)
}

/// Performs the request, and returns how the run ends, with the exit status:
/// - 0 if a text, an explanation or rows were printed, and after a yes or a report on a right file;
/// - 1 after a no, or after a report on a file that is not right, if it was written;
/// - 2 if tables are needed and none are named, if an option's value is not allowed or too long, if texts can't be
///   enumerated or drawn, or if the line that is to be explained is not a row;
/// - 3 if a file or standard input can't be read, if a table, the text or a line up to the one that is to be explained
///   is faulty, or if a write or an allocation fails.
///
/// With status 2 and 3, the fault is reported to `err` in this detail, and the result says whether `err` took the
/// report. With status 0 and 1, nothing is written to `err`.
pub fn run_request<'a, F: Files, W: Write, E: Write>(
    alloc: Global,
    request: Request<'a>,
    detail: Detail,
    files: &F,
    out: &mut W,
    err: &mut E,
) -> Ended
    ensures status { result.status ≤ 3 }

    // The status is that of the completed request, or of the fault of the first part that fails, which is reported.
    ensures ended { HasEnded (F.facts files.now) (W.contents out.old) (W.contents out.new)
        (E.contents err.old) (E.contents err.new) request.entry detail result }

    // The status is 1 only after a no, or after a report on a file that is not right, and only if it was written.
    ensures no { result.status ≡ 1 → IsDone (F.facts files.now)
        (W.contents out.old) (W.contents out.new) request.entry (Outcome.Judged 1) }
    ensures silent { result.status ≤ 1 → E.contents err.new ≡ E.contents err.old }
{
    match perform_and_flush(alloc, request, files, out) {
        Ok(outcome) => Ended {
            status: outcome.status(),
            is_written: true,
            is_reported: true,
        },
        Err(fault) => fault.report(err, detail),
    }
}
