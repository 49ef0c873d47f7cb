// Performs a request.
ghost use Rattle.std.specs.Prelude.{IfOk, IfErr, OnOk};
ghost use Rattle.requests.specs.Outcomes.{Fails, IsDone, RequestLeaves};
ghost use Rattle.requests.specs.Printed.{HasExplained, HasExplainedCodes, HasPrinted, printed_text};
ghost use Rattle.requests.specs.Parts.{FailsIn, classes_parts, explaining_parts, whole_parts};
ghost use Rattle.requests.specs.declared.request.Request.TheVariants.{Text as TextOf};

use crate::enumerating::print_rows;
use crate::fault::Fault;
use crate::files::Files;
use crate::items::{chars_in, classes_in};
use crate::judging::judge_file;
use crate::outcome::Outcome;
use crate::reading::text_in_file;
use crate::reporting::{AskedReport, report_file};
use crate::request::{Print, Request, TableSource};
use crate::row_explaining::explain_row;
use crate::table_source::tables_by;
use crate::text_printing::{AskedText, print_text};
use crate::text_rows::print_text_rows;
use explain::print::{print_explained, print_explained_classes};
use printing::form::Form;
use std::alloc::Global;
use std::io::Write;
use units::level::Direction;

/// Prints what each rule does to the text of FILE, with the requested tables. The tables are read first.
fn explain_file<'a, F: Files, W: Write>(
    alloc: Global,
    asked: AskedText<'a>,
    files: &F,
    out: &mut W,
) -> Result<(), Fault<'a>>
    ensures printed { OnOk result (HasPrinted (F.facts files.now) (printed_text Print.Explained asked.entry.direction)
        asked.entry.tables asked.entry.file.now (W.contents out.old) (W.contents out.new)) }
    ensures fault { IfErr result (FailsIn (whole_parts (F.facts files.now) asked.entry.tables asked.entry.file.now)
        (W.contents out.old) (W.contents out.new)) }
{
    let tables = tables_by(alloc, files, asked.tables)?;
    let text = text_in_file(alloc, asked.file, files)?;
    print_explained(alloc, out, &tables, &text, asked.direction)?;
    Ok(())
}

/// Prints the text of FILE as requested, with the requested tables. The tables are read first.
fn print_file<'a, F: Files, W: Write>(
    alloc: Global,
    asked: AskedText<'a>,
    print: Print,
    files: &F,
    out: &mut W,
) -> Result<(), Fault<'a>>
    ensures printed { OnOk result (HasPrinted (F.facts files.now) (printed_text print asked.entry.direction)
        asked.entry.tables asked.entry.file.now (W.contents out.old) (W.contents out.new)) }
    ensures fault { IfErr result (Fails (F.facts files.now) (W.contents out.old) (W.contents out.new)
        (TextOf asked.entry.tables asked.entry.direction asked.entry.file print)) }
{
    match print {
        Print::Levels => print_text(alloc, asked, Form::Levels, files, out),
        Print::Reorder { columns } => {
            let form = Form::Reorder { columns };
            print_text(alloc, asked, form, files, out)
        }
        Print::Explained => explain_file(alloc, asked, files, out),
    }
}

/// Prints what each rule does to the classes in `word`.
fn explain_classes<'a, W: Write>(
    alloc: Global,
    word: &'a str,
    direction: Direction,
    out: &mut W,
) -> Result<(), Fault<'a>>
    ensures printed { OnOk result (HasExplained word.now direction (W.contents out.old) (W.contents out.new)) }
    ensures fault { IfErr result
        (FailsIn (classes_parts word.now) (W.contents out.old) (W.contents out.new)) }
{
    let classes = classes_in(alloc, word)?;
    print_explained_classes(alloc, out, &classes, direction)?;
    Ok(())
}

/// Prints what each rule does to a text of the code points in `word`, with the tables of this source. The code points
/// are read first.
fn explain_codes<'a, F: Files, W: Write>(
    alloc: Global,
    word: &'a str,
    source: TableSource<'a>,
    direction: Direction,
    files: &F,
    out: &mut W,
) -> Result<(), Fault<'a>>
    ensures printed { OnOk result (HasExplainedCodes (F.facts files.now) word.now source.entry direction
        (W.contents out.old) (W.contents out.new)) }
    ensures fault { IfErr result (FailsIn (explaining_parts (F.facts files.now) word.now source.entry)
        (W.contents out.old) (W.contents out.new)) }
{
    let text = chars_in(alloc, word)?;
    let tables = tables_by(alloc, files, source)?;
    print_explained(alloc, out, &tables, &text, direction)?;
    Ok(())
}

/// Performs the request.
pub fn perform<'a, F: Files, W: Write>(
    alloc: Global,
    request: Request<'a>,
    files: &F,
    out: &mut W,
) -> Result<Outcome, Fault<'a>>
    ensures done { IfOk result (IsDone (F.facts files.now)
        (W.contents out.old) (W.contents out.new) request.entry) }
    ensures fault { IfErr result (Fails (F.facts files.now)
        (W.contents out.old) (W.contents out.new) request.entry) }
    ensures memory { IfErr result (RequestLeaves (W.contents out.old) (W.contents out.new) request.entry) }
{
    match request {
        Request::Text {
            tables,
            direction,
            file,
            print,
        } => {
            let asked = AskedText {
                tables,
                direction,
                file,
            };
            print_file(alloc, asked, print, files, out)?
        }
        Request::ExplainClasses { classes, direction } => {
            explain_classes(alloc, classes, direction, out)?
        }
        Request::ExplainCodes {
            codes,
            tables,
            direction,
        } => explain_codes(alloc, codes, tables, direction, files, out)?,
        Request::ExplainRow(wanted) => explain_row(alloc, wanted, files, out)?,
        Request::Judge { kind, tables, file } => {
            return judge_file(alloc, kind, tables, file, files, out);
        }
        Request::Report {
            kind,
            tables,
            file,
            options,
        } => {
            let asked = AskedReport {
                kind,
                tables,
                file,
                options,
            };
            return report_file(alloc, asked, files, out);
        }
        Request::Rows(asked) => print_rows(alloc, asked, files, out)?,
        Request::RowsOf(asked) => print_text_rows(alloc, asked, files, out)?,
    }
    Ok(Outcome::Printed)
}
