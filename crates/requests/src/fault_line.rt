// Writes the lines that report faults.
ghost use Rattle.std.specs.Prelude.{◌≡◌, [], ◌∷◌, ◌++◌, codes, OnOk};
ghost use Rattle.std.specs.List.{concat};
ghost use Rattle.std.specs.Io.KnownBytes.{Appends};
ghost use Rattle.printing.specs.LevelsText.{line_feed};
ghost use Rattle.requests.specs.FaultText.{faulty_line_text, long_line_text, malformed_line_text, no_row_text};
ghost use Rattle.requests.specs.FaultText.{no_rows_text, not_utf8_text, rows_rejection, unread_text};

use bidtests::verdict::Cause;
use bidtests::verdict_line::name_of_cause;
use rows::fault::RowsFault;
use std::io;
use std::io::Write;
use ucdfiles::fault::TableFault;

/// Writes this line.
pub fn print_line<E: Write>(err: &mut E, line: &str) -> io::Result<()>
    ensures { OnOk result (Appends (E.contents err.old) (E.contents err.new) (concat (line.now ∷ line_feed ∷ []))) }
{
    writeln!(err, "{line}")
}

/// Writes the line that reports that the file of this name can't be read.
pub fn print_unread<E: Write>(err: &mut E, name: &str) -> io::Result<()>
    ensures { OnOk result (Appends (E.contents err.old) (E.contents err.new) (unread_text name.now)) }
{
    writeln!(err, "bidi: cannot read {name}")
}

/// Writes the line that reports that the text in the file of this name is not UTF-8.
pub fn print_not_utf8<E: Write>(err: &mut E, name: &str) -> io::Result<()>
    ensures { OnOk result (Appends (E.contents err.old) (E.contents err.new) (not_utf8_text name.now)) }
{
    writeln!(err, "bidi: {name}: not UTF-8")
}

/// Writes the line that reports a faulty line of a table's file.
pub fn print_faulty_line<E: Write>(
    err: &mut E,
    name: &str,
    line: u64,
    fault: TableFault,
) -> io::Result<()>
    ensures { OnOk result (Appends (E.contents err.old) (E.contents err.new) (faulty_line_text name.now line fault)) }
{
    let fault = fault.name();
    writeln!(err, "bidi: {name}: line {line}: {fault}")
}

/// Writes the line that reports that a line of a text is too long for a row.
pub fn print_long_line<E: Write>(err: &mut E, name: &str, line: usize) -> io::Result<()>
    ensures { OnOk result (Appends (E.contents err.old) (E.contents err.new) (long_line_text name.now line)) }
{
    writeln!(err, "bidi: {name}: line {line}: too long")
}

/// Writes the line that reports that a line of a conformance file is not a row.
pub fn print_no_row<E: Write>(err: &mut E, name: &str, line: u64) -> io::Result<()>
    ensures { OnOk result (Appends (E.contents err.old) (E.contents err.new) (no_row_text name.now line)) }
{
    writeln!(err, "bidi: {name}: line {line} is no row")
}

/// Writes the line that reports why a line of a conformance file is malformed.
pub fn print_malformed_line<E: Write>(
    err: &mut E,
    name: &str,
    line: u64,
    cause: Cause,
) -> io::Result<()>
    ensures { OnOk result (Appends (E.contents err.old) (E.contents err.new)
        (malformed_line_text name.now line cause)) }
{
    let cause = name_of_cause(cause);
    writeln!(err, "bidi: {name}: line {line}: malformed: {cause}")
}

/// Writes a line that reports an item of an option's value. `noted` is what is wrong with it.
pub fn print_item<E: Write>(err: &mut E, item: &[u8], noted: &[u8]) -> io::Result<()>
    ensures { OnOk result (Appends (E.contents err.old) (E.contents err.new) (codes "bidi: " ++ item.now ++
        noted.now)) }
{
    err.write_all(b"bidi: ")?;
    err.write_all(item)?;
    err.write_all(noted)
}

/// Writes the line that reports that a value is not a range of lengths.
pub fn print_no_lengths<E: Write>(err: &mut E, word: &str) -> io::Result<()>
    ensures { OnOk result (Appends (E.contents err.old) (E.contents err.new)
        (concat (codes "bidi: " ∷ word.now ∷ codes " is no range of lengths" ∷ line_feed ∷ []))) }
{
    writeln!(err, "bidi: {word} is no range of lengths")
}

/// Returns in words why texts can't be enumerated or drawn.
fn words_of_rows_fault(fault: RowsFault) -> &'static str
    ensures { result.now ≡ rows_rejection fault }
{
    match fault {
        RowsFault::NoLetter => "--alphabet or --form gives no letter of this kind",
        RowsFault::NoLength => "--length begins at 0",
        RowsFault::TooLong => "--length ends above 4095",
        RowsFault::TooMany => "there are too many texts",
        RowsFault::NoneBetween => "--length ends before it begins",
    }
}

/// Writes the line that reports why texts can't be enumerated or drawn.
pub fn print_no_rows<E: Write>(err: &mut E, fault: RowsFault) -> io::Result<()>
    ensures { OnOk result (Appends (E.contents err.old) (E.contents err.new) (no_rows_text fault)) }
{
    let rejection = words_of_rows_fault(fault);
    writeln!(err, "bidi: {rejection}")
}
