// Judges a file, and prints the verdict.
ghost use Rattle.std.specs.Prelude.{◌≡◌, [], ◌∷◌, ℕ, List, IfOk, IfErr};
ghost use Rattle.bidtests.specs.JudgedSoFar.{IsVerdictAfter};
ghost use Rattle.requests.specs.JudgedFiles.{HasJudged, IsVerdictOn, verdict_status};
ghost use Rattle.requests.specs.Outcomes.{IsDone};
ghost use Rattle.requests.specs.ReadFiles.{most_file_bytes, origin_of};
ghost use Rattle.requests.specs.Parts.{EndsFile, FailsIn, MemoryLeaves, file_part, parts_of};
ghost use Rattle.requests.specs.declared.request.Request.TheVariants.{Judge as JudgeOf};

use crate::fault::Fault;
use crate::files::Files;
use crate::opening::{MOST_FILE_BYTES, open};
use crate::outcome::Outcome;
use crate::request::{FileKind, TableSource};
use crate::row_tables::{row_tables, rows_by};
use crate::verdict_line::print_verdict;
use bidtests::judge::Judge;
use bidtests::kind::{Kind, StoredKind};
use bidtests::reader::judge_reader;
use bidtests::verdict::Verdict;
use printing::written::Written;
use std::alloc::Global;
use std::io::Write;
use units::limits::Limits;

/// Returns the exit status of a verdict: 0 for a yes, 1 for a no.
fn status_of(verdict: Verdict) -> u8
    ensures { result ≡ verdict_status verdict }
{
    match verdict {
        Verdict::Yes { .. } => 0,
        Verdict::Malformed { .. } | Verdict::Wrong { .. } => 1,
    }
}

/// Returns the verdict on all bytes of FILE. They follow the bytes that the judge already has.
fn verdict_on<'a, F: Files>(
    alloc: Global,
    judge: Judge<'_>,
    file: &'a str,
    files: &F,
) -> Result<Verdict, Fault<'a>>
    ensures verdict { IfOk result (λ verdict. (bytes : List ℕ)
        × (F.facts files.now).Holds (origin_of file.now) most_file_bytes bytes
        × IsVerdictAfter judge.entry bytes verdict) }
    ensures fault { IfErr result (EndsFile (F.facts files.now) most_file_bytes file.now) }
{
    let mut source = open(alloc, files, file, MOST_FILE_BYTES)?;
    match judge_reader(judge, &mut source) {
        Ok(verdict) => Ok(verdict),
        Err(_) => {
            let unread = files.unread(&source);
            Err(Fault::CannotRead {
                name: file,
                folder: None,
                most: MOST_FILE_BYTES,
                unread,
                written: Written::Whole,
            })
        }
    }
}

/// Judges FILE as a file of these rows, prints the line of the verdict, and returns its exit status.
fn judge_as<'a, F: Files, W: Write>(
    alloc: Global,
    rows: Kind<'_>,
    file: &'a str,
    files: &F,
    out: &mut W,
) -> Result<u8, Fault<'a>>
    ensures judged { IfOk result (HasJudged (F.facts files.now)
        (IsVerdictOn rows.entry) file.now (W.contents out.old) (W.contents out.new)) }
    ensures fault { IfErr result (FailsIn (file_part (F.facts files.now) most_file_bytes file.now ∷ [])
        (W.contents out.old) (W.contents out.new)) }
    ensures memory { IfErr result (MemoryLeaves (W.contents out.old) (W.contents out.new)) }
{
    let judge = Judge::new(alloc, StoredKind::Borrowed(rows), Limits::standard())?;
    let verdict = verdict_on(alloc, judge, file, files)?;
    print_verdict(out, &verdict)?;
    Ok(status_of(verdict))
}

/// Judges FILE as a file of this kind. If tables are needed and none are named, nothing is opened.
pub fn judge_file<'a, F: Files, W: Write>(
    alloc: Global,
    kind: FileKind,
    tables: Option<TableSource<'a>>,
    file: &'a str,
    files: &F,
    out: &mut W,
) -> Result<Outcome, Fault<'a>>
    ensures done { IfOk result (IsDone (F.facts files.now)
        (W.contents out.old) (W.contents out.new) (JudgeOf kind tables.entry file.entry)) }
    ensures fault { IfErr result (FailsIn (parts_of (F.facts files.now) (JudgeOf kind tables.entry file.entry))
        (W.contents out.old) (W.contents out.new)) }
    ensures memory { IfErr result (MemoryLeaves (W.contents out.old) (W.contents out.new)) }
{
    let tables = row_tables(alloc, files, kind, tables)?;
    let status = judge_as(alloc, rows_by(&tables), file, files, out)?;
    Ok(Outcome::Judged(status))
}
