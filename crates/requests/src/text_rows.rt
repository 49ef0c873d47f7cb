// Prints the lines of a text as the rows of a conformance file.
ghost use Rattle.std.specs.Prelude.{◌≡◌, None, IfErr, IfOk, OnOk};
ghost use Rattle.rows.specs.TextLines.{first_long_line};
ghost use Rattle.requests.specs.Printed.{HoldsText};
ghost use Rattle.requests.specs.PrintedLines.{HasPrintedLines, naming_in};
ghost use Rattle.requests.specs.Parts.{FailsIn, IsFirstFault, MemoryLeaves, lines_parts, row_text_parts};

use crate::directions::directions_in;
use crate::fault::Fault;
use crate::files::Files;
use crate::reading::text_in_file;
use crate::request::{AskedLines, FileKind};
use crate::table_source::tables_by;
use rows::naming::Naming;
use rows::print_lines::print_lines;
use rows::text_lines::first_long_line;
use std::alloc::Global;
use std::io::Write;
use ucdfiles::tables::Tables;

/// Returns how the rows of a file of this kind name characters, with these tables.
fn naming_in(kind: FileKind, tables: &Tables) -> Naming<'_>
    ensures { result ≡ naming_in kind tables.entry }
{
    match kind {
        FileKind::Classes => Naming::Classes(tables),
        FileKind::Characters => Naming::Codes(tables),
    }
}

/// Returns the text of FILE if no line is too long for a row. Fails with the faults of `text_in_file`, and with
/// `LongLine` at the first line that is too long.
fn row_text_in_file<'a, F: Files>(
    alloc: Global,
    file: &'a str,
    files: &F,
) -> Result<Vec<char>, Fault<'a>>
    ensures text { IfOk result (λ text. HoldsText (F.facts files.now) file.now text.items) }
    ensures short { IfOk result (λ text. first_long_line text.items ≡ None) }
    ensures fault { IfErr result (IsFirstFault (row_text_parts (F.facts files.now) file.now)) }
{
    let text = text_in_file(alloc, file, files)?;
    match first_long_line(&text) {
        Some(line) => Err(Fault::LongLine { name: file, line }),
        None => Ok(text),
    }
}

/// Prints the lines of the requested text as rows, with the results of the rules. Fails with the faults of
/// `directions_in`, `tables_by` and `text_in_file`, with `LongLine` at the first line that is too long for a row, and
/// if an allocation or a write fails.
pub fn print_text_rows<'a, F: Files, W: Write>(
    alloc: Global,
    asked: AskedLines<'a>,
    files: &F,
    out: &mut W,
) -> Result<(), Fault<'a>>
    ensures printed { OnOk result
        (HasPrintedLines (F.facts files.now) asked.entry (W.contents out.old) (W.contents out.new)) }
    ensures fault { IfErr result
        (FailsIn (lines_parts (F.facts files.now) asked.entry) (W.contents out.old) (W.contents out.new)) }
    ensures memory { IfErr result (MemoryLeaves (W.contents out.old) (W.contents out.new)) }
{
    let directions = directions_in(alloc, asked.directions)?;
    let tables = tables_by(alloc, files, asked.tables)?;
    let text = row_text_in_file(alloc, asked.file, files)?;
    let naming = naming_in(asked.kind, &tables);
    print_lines(alloc, out, naming, &text, &directions)?;
    Ok(())
}
