// Explains a row of a conformance file.
ghost use Rattle.std.specs.Prelude.{◌≡◌, Ok, IfErr, IfOk, OnOk};
ghost use Rattle.requests.specs.FileRows.{kind_of};
ghost use Rattle.requests.specs.RowsExplained.{HasAtLine, HasExplainedRow, row_fault};
ghost use Rattle.requests.specs.Parts.{EndsSearch, FailsIn, row_parts};

use crate::fault::Fault;
use crate::files::Files;
use crate::opening::{MOST_FILE_BYTES, open};
use crate::request::{FileKind, WantedRow};
use crate::row_tables::{row_tables, rows_by};
use bidtests::kind::Kind;
use explain::chosen_row::ChosenRow;
use explain::find::find_row;
use explain::row_fault::{RowFault, SearchFault};
use explain::row_print::print_row;
use printing::written::Written;
use std::alloc::Global;
use std::io::Write;
use std::num::NonZeroU64;

/// Returns the kind of a file of these rows.
fn kind_of(rows: Kind<'_>) -> FileKind
    ensures { result ≡ kind_of rows.entry }
{
    match rows {
        Kind::Classes => FileKind::Classes,
        Kind::Characters(_) => FileKind::Characters,
    }
}

/// Returns the fault of a file of this kind that has no row at a line.
fn fault_of_row<'a>(file: &'a str, kind: FileKind, line: NonZeroU64, fault: RowFault) -> Fault<'a>
    ensures { result ≡ row_fault file.entry kind line.value fault }
{
    match fault {
        RowFault::Malformed { line, cause } => Fault::MalformedLine {
            name: file,
            kind,
            line,
            cause,
        },
        RowFault::NoRow => Fault::LineIsNoRow {
            name: file,
            line: line.get(),
        },
    }
}

/// Returns the row at a line of FILE, as a file of these rows. FILE is read up to that line.
fn row_in_file<'a, F: Files>(
    alloc: Global,
    rows: Kind<'_>,
    line: NonZeroU64,
    file: &'a str,
    files: &F,
) -> Result<ChosenRow, Fault<'a>>
    ensures row { IfOk result (λ row. HasAtLine (F.facts files.now) rows.entry line.value file.now (Ok row)) }
    ensures fault { IfErr result (EndsSearch (F.facts files.now) rows.entry line.value file.now) }
{
    let mut source = open(alloc, files, file, MOST_FILE_BYTES)?;
    match find_row(alloc, rows, line, &mut source) {
        Ok(row) => Ok(row),
        Err(SearchFault::OfRow(fault)) => Err(fault_of_row(file, kind_of(rows), line, fault)),
        Err(SearchFault::Read) => {
            let unread = files.unread(&source);
            Err(Fault::CannotRead {
                name: file,
                folder: None,
                most: MOST_FILE_BYTES,
                unread,
                written: Written::Whole,
            })
        }
        Err(SearchFault::Memory) => Err(Fault::OutOfMemory),
    }
}

/// Explains the requested row: for each of its directions, what each rule does to its text, and the expected results
/// beside the defined ones. If tables are needed and none are named, nothing is opened. Fails with the faults of
/// `row_tables`, if FILE can't be opened or read, if a line up to the requested one is malformed, if that line is not a
/// row, or if an allocation or a write fails.
pub fn explain_row<'a, F: Files, W: Write>(
    alloc: Global,
    wanted: WantedRow<'a>,
    files: &F,
    out: &mut W,
) -> Result<(), Fault<'a>>
    ensures printed { OnOk result
        (HasExplainedRow (F.facts files.now) wanted.entry (W.contents out.old) (W.contents out.new)) }
    ensures fault { IfErr result (FailsIn (row_parts (F.facts files.now) wanted.entry)
        (W.contents out.old) (W.contents out.new)) }
{
    let tables = row_tables(alloc, files, wanted.kind, wanted.tables)?;
    let row = row_in_file(alloc, rows_by(&tables), wanted.line, wanted.file, files)?;
    print_row(alloc, out, wanted.line.get(), &row)?;
    Ok(())
}
