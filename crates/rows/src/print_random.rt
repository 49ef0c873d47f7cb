//! The test file of drawn texts.
ghost use Rattle.std.specs.Prelude.{◌≡◌, ◌≤◌, length, IfErr, OnOk};
ghost use Rattle.std.specs.Io.KnownBytes.{Appends};
ghost use Rattle.std.specs.List.{All};
ghost use Rattle.units.specs.Limits.{standard};
ghost use Rattle.rows.specs.Letters.{IsLetterOf};
ghost use Rattle.rows.specs.RowTexts.{cases_text};
ghost use Rattle.rows.specs.Rooms.{FaultLeaves, HasRowRoom, KeepsRowRoom};
ghost use Rattle.rows.specs.Random.{cases_drawn, cases_of_draw};
ghost use Rattle.rows.specs.Judged.{JudgeSaysYes};

use crate::drawn::draw_text;
use crate::letter::Letter;
use crate::random::Random;
use crate::room::{RowRoom, letters_for, room_for_rows};
use crate::under_directions::print_text;
use bidtests::kind::Kind;
use printing::fault::PrintFault;
use std::alloc::Global;
use std::io;
use std::io::Write;
use units::level::Direction;

/// Draws the text with this number into `row`, and writes its lines.
fn print_draw<W: Write>(
    w: &mut W,
    room: &mut RowRoom,
    kind: Kind<'_>,
    texts: &Random<'_>,
    directions: &[Direction],
    number: usize,
    row: &mut [Letter],
) -> io::Result<()>
    requires room { HasRowRoom texts.now.greatest room.old }
    requires row { texts.now.greatest ≤ length row.old }
    ensures printed { OnOk result (Appends (W.contents w.old) (W.contents w.new)
        (cases_text standard kind.entry (cases_of_draw texts.now directions.now number))) }
    ensures room { KeepsRowRoom room.old room.new }
    ensures row { length row.new ≡ length row.old }
{
    let len = draw_text(texts, number, row);
    print_text(w, room, kind, &row[..len], directions)
}

/// Writes the lines of all texts, by their numbers. `row` has space for the longest text.
fn print_draws<W: Write>(
    w: &mut W,
    room: &mut RowRoom,
    kind: Kind<'_>,
    texts: &Random<'_>,
    directions: &[Direction],
    row: &mut [Letter],
) -> Result<(), PrintFault>
    requires room { HasRowRoom texts.now.greatest room.old }
    requires row { texts.now.greatest ≤ length row.old }
    ensures printed { OnOk result (Appends (W.contents w.old) (W.contents w.new)
        (cases_text standard kind.entry (cases_drawn texts.now directions.now))) }
    ensures fault { IfErr result (FaultLeaves (W.contents w.old) (W.contents w.new)) }
{
    for number in 0..texts.count() {
        print_draw(w, room, kind, texts, directions, number, row)?;
    }
    Ok(())
}

/// Writes a test file of this kind: each of the drawn texts, by their numbers, under each of these directions in their
/// order, with the levels and the order that the rules give with the standard limits (P1 to L2), in lines as
/// `print_exhaustive` writes them. The judge says yes to the file if the letters are of this kind.
///
/// The function allocates memory for one text of the greatest length before the first write. Fails with `Write` if the
/// writer fails; it is then not known how much the writer took. Fails with `Memory` if memory runs out.
pub fn print_random<W: Write>(
    alloc: Global,
    w: &mut W,
    kind: Kind<'_>,
    texts: &Random<'_>,
    directions: &[Direction],
) -> Result<(), PrintFault>
    ensures printed { OnOk result (Appends (W.contents w.old) (W.contents w.new)
        (cases_text standard kind.entry (cases_drawn texts.now directions.now))) }
    ensures right { All (IsLetterOf kind.entry) texts.now.alphabet
        → JudgeSaysYes standard kind.entry (cases_drawn texts.now directions.now) }
    ensures fault { IfErr result (FaultLeaves (W.contents w.old) (W.contents w.new)) }
{
    let mut row = letters_for(alloc, texts.greatest())?;
    let mut room = room_for_rows(alloc, texts.greatest())?;
    print_draws(w, &mut room, kind, texts, directions, &mut row)
}
