// Writes the line with the reason of a fault.
ghost use Rattle.std.specs.Prelude.{◌≡◌, ◌++◌, codes, OnOk, Some};
ghost use Rattle.std.specs.Io.KnownBytes.{Appends};
ghost use Rattle.requests.specs.Reasons.{field_words, folder_words, item_words, place_words, reason_line, unread_words};

use crate::request::FileKind;
use bidtests::verdict::Cause;
use printing::place::TextPlace;
use std::io;
use std::io::Write;
use units::unread::Unread;

/// The allowed items of `--classes`.
pub const CLASS_ITEMS: &str =
    "L R AL EN ES ET AN CS NSM BN B S WS ON LRE LRO RLE RLO PDF LRI RLI FSI PDI";

/// The allowed items of `--codes`.
pub const CODE_POINT_ITEMS: &str = "4 to 6 upper-case hex digits, at most 10FFFF, no surrogate";

/// The allowed items of `--directions`.
pub const DIRECTION_ITEMS: &str = "auto ltr rtl auto-rtl";

/// The allowed values of `--length`.
pub const LENGTH_ITEMS: &str = "allowed: N or A..B, 1 to 4095, without leading zeros";

/// Writes the line with this reason.
pub fn print_reason<E: Write>(err: &mut E, reason: &str) -> io::Result<()>
    ensures { OnOk result (Appends (E.contents err.old) (E.contents err.new) (reason_line (Some reason.now))) }
{
    writeln!(err, "bidi: reason: {reason}")
}

/// Writes the line with the value that has an item which is not allowed, and with the allowed items.
pub fn print_item_reason<E: Write>(err: &mut E, word: &str, allowed: &str) -> io::Result<()>
    ensures { OnOk result (Appends (E.contents err.old) (E.contents err.new)
        (reason_line (Some (item_words word.now allowed.now)))) }
{
    writeln!(err, "bidi: reason: in '{word}', allowed: {allowed}")
}

/// Writes the line with the folder of the tables. One of its files has a faulty line.
pub fn print_folder_reason<E: Write>(err: &mut E, folder: &str) -> io::Result<()>
    ensures { OnOk result (Appends (E.contents err.old) (E.contents err.new)
        (reason_line (Some (codes "the folder of tables is " ++ folder.now)))) }
{
    writeln!(err, "bidi: reason: the folder of tables is {folder}")
}

/// Writes the line with the place after which a text is not UTF-8.
pub fn print_place_reason<E: Write>(err: &mut E, place: TextPlace) -> io::Result<()>
    ensures { OnOk result (Appends (E.contents err.old) (E.contents err.new)
        (reason_line (Some (place_words place)))) }
{
    let line = place.line;
    let offset = place.offset;
    writeln!(err, "bidi: reason: line {line}, byte offset {offset}")
}

/// Writes in words why a file of at most `most` bytes can't be read.
fn print_unread_words<E: Write>(err: &mut E, unread: Unread, most: u64) -> io::Result<()>
    ensures { OnOk result (Appends (E.contents err.old) (E.contents err.new) (unread_words unread most)) }
{
    match unread {
        Unread::Missing => err.write_all(b"no such file"),
        Unread::Forbidden => err.write_all(b"permission denied"),
        Unread::Folder => err.write_all(b"a folder"),
        Unread::TooLarge => write!(err, "more than {most} bytes"),
        Unread::Other => err.write_all(b"unknown"),
    }
}

/// Writes the folder that was searched for a table's file.
fn print_folder<E: Write>(err: &mut E, folder: Option<&str>) -> io::Result<()>
    ensures { OnOk result (Appends (E.contents err.old) (E.contents err.new) (folder_words folder.entry)) }
{
    match folder {
        Some(folder) => write!(err, ", folder of tables {folder}"),
        None => Ok(()),
    }
}

/// Writes the line with the reason why a file of at most `most` bytes can't be read, and with the folder if it is a
/// table's file.
pub fn print_unread_reason<E: Write>(
    err: &mut E,
    unread: Unread,
    most: u64,
    folder: Option<&str>,
) -> io::Result<()>
    ensures { OnOk result (Appends (E.contents err.old) (E.contents err.new)
        (reason_line (Some (unread_words unread most ++ folder_words folder.entry)))) }
{
    err.write_all(b"bidi: reason: ")?;
    print_unread_words(err, unread, most)?;
    print_folder(err, folder)?;
    err.write_all(b"\n")
}

/// Returns in words the part of a line that is malformed for this cause. The fields of a row are counted from 0.
pub fn field_in_words(kind: FileKind, cause: Cause) -> &'static str
    ensures { result.now ≡ field_words kind cause }
{
    match (kind, cause) {
        (_, Cause::LineTooLong) => "the line, more than 65536 bytes",
        (FileKind::Classes, Cause::FieldCount) => "the number of fields, allowed: 2",
        (FileKind::Characters, Cause::FieldCount) => "the number of fields, allowed: 5",
        (_, Cause::Directive) => "the directive",
        (_, Cause::NoExpectation) => "the row, without a line @Levels: or @Reorder: before it",
        (FileKind::Classes, Cause::EmptyRow) => "field 0, the classes",
        (FileKind::Characters, Cause::EmptyRow) => "field 0, the code points",
        (_, Cause::ClassItem) => "field 0, the classes",
        (_, Cause::BitSet) => "field 1, the bit set",
        (_, Cause::CodePoint) => "field 0, the code points",
        (_, Cause::DirectionField) => "field 1, the direction",
        (_, Cause::ParaField) => "field 2, the paragraph level",
        (FileKind::Classes, Cause::LevelItem) => "@Levels:",
        (FileKind::Characters, Cause::LevelItem) => "field 3, the levels",
        (FileKind::Classes, Cause::OrderItem) => "@Reorder:",
        (FileKind::Characters, Cause::OrderItem) => "field 4, the order",
    }
}
