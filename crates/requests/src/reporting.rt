// Reports on a file.
ghost use Rattle.std.specs.Prelude.{◌≡◌, IfOk, IfErr};
ghost use Rattle.requests.specs.Outcomes.{Fails, IsDone};
ghost use Rattle.requests.specs.Parts.{MemoryLeaves};
ghost use Rattle.requests.specs.ReportedFiles.{FailsAs, HasReportedAs, report_status};
ghost use Rattle.requests.specs.declared.request.Request.TheVariants.{Report as ReportOf};

use crate::fault::Fault;
use crate::files::Files;
use crate::opening::{MOST_FILE_BYTES, open};
use crate::outcome::Outcome;
use crate::request::{FileKind, ReportOptions, TableSource};
use crate::row_tables::{row_tables, rows_by};
use bidtests::kind::{Kind, StoredKind};
use report::print::{ReportFault, print_report};
use report::report::Report;
use report::terms::Terms;
use std::alloc::Global;
use std::io::Write;
use units::limits::Limits;

/// Returns the exit status of a report: 0 if the file is right, 1 if it is not.
fn status_of(right: bool) -> u8
    ensures { result ≡ report_status right }
{
    if right { 0 } else { 1 }
}

/// Reports on FILE as a file of these rows, with these options. Prints the first wrong cases while it reads the file,
/// and then the counts. Returns the exit status.
fn report_as<'a, F: Files, W: Write>(
    alloc: Global,
    rows: Kind<'_>,
    file: &'a str,
    options: ReportOptions,
    files: &F,
    out: &mut W,
) -> Result<u8, Fault<'a>>
    ensures reported { IfOk result (HasReportedAs (F.facts files.now)
        rows.entry file.now options (W.contents out.old) (W.contents out.new)) }
    ensures fault { IfErr result (FailsAs (F.facts files.now)
        rows.entry file.now options (W.contents out.old) (W.contents out.new)) }
    ensures memory { IfErr result (MemoryLeaves (W.contents out.old) (W.contents out.new)) }
{
    let terms = Terms {
        limits: Limits::standard(),
        leniency: options.leniency,
    };
    let mut source = open(alloc, files, file, MOST_FILE_BYTES)?;
    let report = Report::new(alloc, StoredKind::Borrowed(rows), terms)?;
    match print_report(out, report, &mut source, options.most) {
        Ok(right) => Ok(status_of(right)),
        Err(ReportFault::Write) => Err(Fault::CannotWrite),
        Err(ReportFault::NobodyReads) => Err(Fault::NobodyReads),
        Err(ReportFault::Read { written }) => {
            let unread = files.unread(&source);
            Err(Fault::CannotRead {
                name: file,
                folder: None,
                most: MOST_FILE_BYTES,
                unread,
                written,
            })
        }
    }
}

/// The report that is to be printed.
#[derive(Clone, Copy)]
pub struct AskedReport<'a> {
    /// The kind of the file.
    pub kind: FileKind,
    /// The tables. Only a file of characters needs them.
    pub tables: Option<TableSource<'a>>,
    pub file: &'a str,
    pub options: ReportOptions,
}

/// Reports on FILE as a file of the requested kind. If tables are needed and none are named, nothing is opened.
pub fn report_file<'a, F: Files, W: Write>(
    alloc: Global,
    asked: AskedReport<'a>,
    files: &F,
    out: &mut W,
) -> Result<Outcome, Fault<'a>>
    ensures done { IfOk result (IsDone (F.facts files.now) (W.contents out.old) (W.contents out.new)
        (ReportOf asked.entry.kind asked.entry.tables asked.entry.file asked.entry.options)) }
    ensures fault { IfErr result (Fails (F.facts files.now) (W.contents out.old) (W.contents out.new)
        (ReportOf asked.entry.kind asked.entry.tables asked.entry.file asked.entry.options)) }
    ensures memory { IfErr result (MemoryLeaves (W.contents out.old) (W.contents out.new)) }
{
    let tables = row_tables(alloc, files, asked.kind, asked.tables)?;
    let status = report_as(
        alloc,
        rows_by(&tables),
        asked.file,
        asked.options,
        files,
        out,
    )?;
    Ok(Outcome::Judged(status))
}
