// Prints a text while it is read.
ghost use Rattle.std.specs.Prelude.{IfErr, OnOk};
ghost use Rattle.printing.specs.Following.{printed_as};
ghost use Rattle.requests.specs.Printed.{HasPrinted};
ghost use Rattle.requests.specs.PrintedFiles.{FailsToPrint};

use crate::fault::Fault;
use crate::files::Files;
use crate::opening::{MOST_TEXT_BYTES, open};
use crate::request::TableSource;
use crate::table_source::tables_by;
use printing::form::Form;
use printing::reading::{TextFault, print_source};
use std::alloc::Global;
use std::io::Write;
use units::level::Direction;

/// The text that is to be printed.
#[derive(Clone, Copy)]
pub struct AskedText<'a> {
    pub tables: TableSource<'a>,
    pub direction: Direction,
    pub file: &'a str,
}

/// Prints the text of FILE in this form, with the requested tables. The tables are read first. Each paragraph is
/// printed and flushed as soon as its end is read.
///
/// Fails:
/// - before anything is printed, with the faults of `tables_by` and `open`;
/// - after the paragraphs that have ended, if a read fails or the text is not UTF-8;
/// - after the whole text was read, if it is UTF-8 and a write failed;
/// - at once, if nobody reads the output any more, or if an allocation fails.
pub fn print_text<'a, F: Files, W: Write>(
    alloc: Global,
    asked: AskedText<'a>,
    form: Form,
    files: &F,
    out: &mut W,
) -> Result<(), Fault<'a>>
    ensures printed { OnOk result (HasPrinted (F.facts files.now)
        (λ tables text. printed_as form tables text asked.entry.direction) asked.entry.tables asked.entry.file.now
        (W.contents out.old) (W.contents out.new)) }
    ensures fault { IfErr result (FailsToPrint (F.facts files.now) form asked.entry.direction asked.entry.tables
        asked.entry.file.now (W.contents out.old) (W.contents out.new)) }
{
    let tables = tables_by(alloc, files, asked.tables)?;
    let mut opened = open(alloc, files, asked.file, MOST_TEXT_BYTES)?;
    match print_source(alloc, out, &tables, &mut opened, asked.direction, form) {
        Ok(()) => Ok(()),
        Err(TextFault::Write) => Err(Fault::CannotWrite),
        Err(TextFault::NobodyReads) => Err(Fault::NobodyReads),
        Err(TextFault::Memory) => Err(Fault::OutOfMemory),
        Err(TextFault::NotUtf8 { place, written }) => Err(Fault::NotUtf8 {
            name: asked.file,
            place,
            written,
        }),
        Err(TextFault::Read { written }) => {
            let unread = files.unread(&opened);
            Err(Fault::CannotRead {
                name: asked.file,
                folder: None,
                most: MOST_TEXT_BYTES,
                unread,
                written,
            })
        }
    }
}
