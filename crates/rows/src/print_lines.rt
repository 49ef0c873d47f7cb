//! The test file of the lines of a text.
ghost use Rattle.std.specs.Prelude.{◌≡◌, ◌<◌, ◌≤◌, None, length, map, IfErr, OnOk};
ghost use Rattle.std.specs.Io.KnownBytes.{Appends};
ghost use Rattle.std.specs.List.{All};
ghost use Rattle.units.specs.Limits.{standard};
ghost use Rattle.rows.specs.Letters.{IsLetterOf};
ghost use Rattle.rows.specs.RowTexts.{IsRowText, cases_text, longest_row};
ghost use Rattle.rows.specs.Rooms.{FaultLeaves, HasRowRoom, KeepsRowRoom};
ghost use Rattle.rows.specs.Judged.{JudgeSaysYes};
ghost use Rattle.rows.specs.TextLines.{cases_of_line, cases_of_text, first_long_line, kind_of, letter_named};

use crate::exhaustive::LONGEST_ROW;
use crate::letter::Letter;
use crate::naming::Naming;
use crate::room::{RowRoom, letters_for, room_for_rows};
use crate::text_lines::cut_line;
use crate::under_directions::print_text;
use printing::fault::PrintFault;
use std::alloc::Global;
use std::io;
use std::io::Write;
use units::level::Direction;

/// Writes the letters of a line into `row`.
fn fill_letters(naming: Naming<'_>, line: &[char], row: &mut [Letter])
    requires { length row.old ≡ length line.now }
    ensures letters { row.new ≡ map (letter_named naming.entry) line.now }
    ensures kind { All (IsLetterOf (kind_of naming.entry)) row.new }
{
    for place in 0..line.len() {
        row[place] = naming.letter(line[place]);
    }
}

/// Writes the lines of the file for one line of the text. `row` has space for its letters.
fn print_line<W: Write>(
    w: &mut W,
    room: &mut RowRoom,
    naming: Naming<'_>,
    line: &[char],
    directions: &[Direction],
    row: &mut [Letter],
) -> io::Result<()>
    requires some { 0 < length line.now }
    requires short { length line.now ≤ longest_row }
    requires room { HasRowRoom longest_row room.old }
    requires row { longest_row ≤ length row.old }
    ensures printed { OnOk result (Appends (W.contents w.old) (W.contents w.new)
        (cases_text standard (kind_of naming.entry) (cases_of_line naming.entry directions.now line.now))) }
    ensures right { IsRowText (kind_of naming.entry) (map (letter_named naming.entry) line.now) }
    ensures room { KeepsRowRoom room.old room.new }
    ensures row { length row.new ≡ length row.old }
{
    let text = &mut row[..line.len()];
    fill_letters(naming, line, text);
    print_text(w, room, naming.kind(), text, directions)
}

/// Writes the lines of the file for all lines of the text. `row` has space for the longest line.
fn print_each_line<W: Write>(
    w: &mut W,
    room: &mut RowRoom,
    naming: Naming<'_>,
    text: &[char],
    directions: &[Direction],
    row: &mut [Letter],
) -> Result<(), PrintFault>
    requires short { first_long_line text.now ≡ None }
    requires room { HasRowRoom longest_row room.old }
    requires row { longest_row ≤ length row.old }
    ensures printed { OnOk result (Appends (W.contents w.old) (W.contents w.new)
        (cases_text standard (kind_of naming.entry) (cases_of_text naming.entry directions.now text.now))) }
    ensures right { OnOk result
        (JudgeSaysYes standard (kind_of naming.entry) (cases_of_text naming.entry directions.now text.now)) }
    ensures fault { IfErr result (FaultLeaves (W.contents w.old) (W.contents w.new)) }
{
    let mut remaining = Some(text);
    while let Some(lines) = remaining {
        let (line, rest) = cut_line(lines);
        if !line.is_empty() {
            print_line(w, room, naming, line, directions, row)?;
        }
        remaining = rest;
    }
    Ok(())
}

/// Writes a test file of a text: each of its lines that has a character, under each of these directions in their order,
/// with the levels and the order that the rules give with the standard limits (P1 to L2), in lines as
/// `print_exhaustive` writes them. A line ends at LF, which is no part of the line. The last line ends with the text.
/// The judge says yes to the file.
///
/// The function allocates memory for a row of `LONGEST_ROW` letters before the first write. Fails with `Write` if the
/// writer fails; it is then not known how much the writer took. Fails with `Memory` if memory runs out.
pub fn print_lines<W: Write>(
    alloc: Global,
    w: &mut W,
    naming: Naming<'_>,
    text: &[char],
    directions: &[Direction],
) -> Result<(), PrintFault>
    requires { first_long_line text.now ≡ None }
    ensures printed { OnOk result (Appends (W.contents w.old) (W.contents w.new)
        (cases_text standard (kind_of naming.entry) (cases_of_text naming.entry directions.now text.now))) }
    ensures right { OnOk result
        (JudgeSaysYes standard (kind_of naming.entry) (cases_of_text naming.entry directions.now text.now)) }
    ensures fault { IfErr result (FaultLeaves (W.contents w.old) (W.contents w.new)) }
{
    let mut row = letters_for(alloc, LONGEST_ROW)?;
    let mut room = room_for_rows(alloc, LONGEST_ROW)?;
    print_each_line(w, &mut room, naming, text, directions, &mut row)
}
