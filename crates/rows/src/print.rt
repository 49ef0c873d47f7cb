//! The file of all texts over an alphabet.
ghost use Rattle.std.specs.Prelude.{◌≡◌, ◌<◌, ◌≤◌, ◌^◌, length, IfErr, OnOk};
ghost use Rattle.std.specs.Io.KnownBytes.{Appends};
ghost use Rattle.std.specs.List.{All};
ghost use Rattle.units.specs.Limits.{standard};
ghost use Rattle.rows.specs.Letters.{IsLetterOf};
ghost use Rattle.rows.specs.RowTexts.{cases_text};
ghost use Rattle.rows.specs.Rooms.{FaultLeaves, HasRowRoom, KeepsRowRoom};
ghost use Rattle.rows.specs.Exhaustive.{cases_in, cases_of_length, cases_of_number, CanBeCounted};
ghost use Rattle.rows.specs.Judged.{JudgeSaysYes};

use crate::exhaustive::Exhaustive;
use crate::letter::Letter;
use crate::numbered::fill_text;
use crate::room::{RowRoom, letters_for, room_for_rows};
use crate::under_directions::print_text;
use bidtests::kind::Kind;
use printing::fault::PrintFault;
use std::alloc::Global;
use std::io;
use std::io::Write;
use units::level::Direction;

/// Fills `text` with the text that has this number among those of its length, and writes its lines.
fn print_numbered<W: Write>(
    w: &mut W,
    room: &mut RowRoom,
    kind: Kind<'_>,
    alphabet: &[Letter],
    directions: &[Direction],
    number: usize,
    text: &mut [Letter],
) -> io::Result<()>
    requires some { 0 < length alphabet.now }
    requires room { HasRowRoom (length text.old) room.old }
    ensures printed { OnOk result (Appends (W.contents w.old) (W.contents w.new)
        (cases_text standard kind.entry (cases_of_number alphabet.now directions.now (length text.old) number))) }
    ensures room { KeepsRowRoom room.old room.new }
    ensures length { length text.new ≡ length text.old }
{
    fill_text(alphabet, number, text);
    print_text(w, room, kind, text, directions)
}

/// Writes the lines of all texts as long as `text`.
fn print_length<W: Write>(
    w: &mut W,
    room: &mut RowRoom,
    kind: Kind<'_>,
    alphabet: &[Letter],
    directions: &[Direction],
    text: &mut [Letter],
) -> io::Result<()>
    requires some { 0 < length alphabet.now }
    requires room { HasRowRoom (length text.old) room.old }
    requires few { length alphabet.now ^ length text.old < 2 ^ 64 }
    requires short { length text.old < 2 ^ 32 }
    ensures printed { OnOk result (Appends (W.contents w.old) (W.contents w.new)
        (cases_text standard kind.entry (cases_of_length alphabet.now directions.now (length text.old)))) }
    ensures room { KeepsRowRoom room.old room.new }
    ensures length { length text.new ≡ length text.old }
{
    let count = alphabet.len().pow(text.len() as u32);
    for number in 0..count {
        print_numbered(w, room, kind, alphabet, directions, number, text)?;
    }
    Ok(())
}

/// Writes the lines of all texts, by their lengths. `row` has space for the longest text.
fn print_lengths<W: Write>(
    w: &mut W,
    room: &mut RowRoom,
    kind: Kind<'_>,
    texts: &Exhaustive<'_>,
    directions: &[Direction],
    row: &mut [Letter],
) -> Result<(), PrintFault>
    requires counted { CanBeCounted texts.now }
    requires room { HasRowRoom texts.now.greatest room.old }
    requires row { texts.now.greatest ≤ length row.old }
    ensures printed { OnOk result (Appends (W.contents w.old) (W.contents w.new)
        (cases_text standard kind.entry (cases_in texts.now directions.now))) }
    ensures fault { IfErr result (FaultLeaves (W.contents w.old) (W.contents w.new)) }
{
    let alphabet = texts.alphabet();
    for len in texts.least()..texts.greatest() + 1 {
        print_length(w, room, kind, alphabet, directions, &mut row[..len])?;
    }
    Ok(())
}

/// Writes a test file of this kind: each of the texts, the shorter ones first, under each of these directions in their
/// order, with the levels and the order that the rules give with the standard limits (P1 to L2).
///
/// In the form of BidiTest.txt a text under a direction has three lines: `@Levels:`, `@Reorder:` and a row with only
/// this direction. In the form of BidiCharacterTest.txt it has one row. The judge says yes to the file if the letters
/// are of this kind.
///
/// The function allocates memory for one text of the greatest length before the first write. Fails with `Write` if the
/// writer fails; it is then not known how much the writer took. Fails with `Memory` if memory runs out.
pub fn print_exhaustive<W: Write>(
    alloc: Global,
    w: &mut W,
    kind: Kind<'_>,
    texts: &Exhaustive<'_>,
    directions: &[Direction],
) -> Result<(), PrintFault>
    ensures printed { OnOk result (Appends (W.contents w.old) (W.contents w.new)
        (cases_text standard kind.entry (cases_in texts.now directions.now))) }
    ensures right { All (IsLetterOf kind.entry) texts.now.alphabet
        → JudgeSaysYes standard kind.entry (cases_in texts.now directions.now) }
    ensures fault { IfErr result (FaultLeaves (W.contents w.old) (W.contents w.new)) }
{
    let mut row = letters_for(alloc, texts.greatest())?;
    let mut room = room_for_rows(alloc, texts.greatest())?;
    print_lengths(w, &mut room, kind, texts, directions, &mut row)
}
