// A text under each of several directions.
ghost use Rattle.std.specs.Prelude.{◌≡◌, ◌≤◌, [], ◌∷◌, length, OnOk};
ghost use Rattle.std.specs.Io.KnownBytes.{Appends};
ghost use Rattle.std.specs.List.{flat_map};
ghost use Rattle.units.specs.Limits.{standard};
ghost use Rattle.units.specs.Lines.{ended};
ghost use Rattle.lines.specs.Layouts.{view_of};
ghost use Rattle.lines.specs.Scratches.{room_of};
ghost use Rattle.bidtests.specs.LaidOut.{IsLaidOut};
ghost use Rattle.rows.specs.Letters.{units_of};
ghost use Rattle.rows.specs.RowTexts.{cases_text, lines_with_layout};
ghost use Rattle.rows.specs.Rooms.{HasRowRoom, KeepsRowRoom};
ghost use Rattle.rows.specs.Exhaustive.{under_each};

use crate::case_text::print_class_case;
use crate::character_text::print_character_case;
use crate::letter::Letter;
use crate::letters::fill_front;
use crate::room::RowRoom;
use bidtests::kind::Kind;
use bidtests::laid_out::lay_out_again;
use lines::layout::Layout;
use lines::scratch::Scratch;
use std::io;
use std::io::Write;
use units::bracket::Unit;
use units::level::Direction;
use units::limits::Limits;

/// Writes the lines of a text under a direction, for a file of this kind. `layout` is its layout.
fn print_case<W: Write>(
    w: &mut W,
    kind: Kind<'_>,
    text: &[Letter],
    direction: Direction,
    layout: &Layout<'_>,
) -> io::Result<()>
    ensures { OnOk result (Appends (W.contents w.old) (W.contents w.new)
        (flat_map ended (lines_with_layout kind.entry (view_of layout.now) (record {
          text = text.now;
          direction = direction;
        })))) }
{
    match kind {
        Kind::Classes => print_class_case(w, text, direction, layout),
        Kind::Characters(_) => print_character_case(w, text, direction, layout),
    }
}

/// Writes the lines of a text that is laid out under a direction.
fn print_laid_out<W: Write>(
    w: &mut W,
    scratch: &Scratch,
    kind: Kind<'_>,
    text: &[Letter],
    direction: Direction,
) -> io::Result<()>
    requires { IsLaidOut standard (units_of text.now) scratch.now direction }
    ensures { OnOk result (Appends (W.contents w.old) (W.contents w.new)
        (cases_text standard kind.entry (record { text = text.now; direction = direction } ∷ []))) }
{
    print_case(w, kind, text, direction, &scratch.layout())
}

/// Writes the lines of a text with these units under each of these directions. The text is not laid out again if the
/// layout just made is the same.
fn print_under_each<W: Write>(
    w: &mut W,
    scratch: &mut Scratch,
    kind: Kind<'_>,
    text: &[Letter],
    units: &[Unit],
    directions: &[Direction],
) -> io::Result<()>
    requires units { units.now ≡ units_of text.now }
    requires room { length text.now ≤ room_of scratch.old }
    ensures printed { OnOk result (Appends (W.contents w.old) (W.contents w.new)
        (cases_text standard kind.entry (under_each directions.now text.now))) }
    ensures room { room_of scratch.new ≡ room_of scratch.old }
{
    let limits = Limits::standard();
    let mut laid_out = None;
    for direction in directions {
        laid_out = lay_out_again(scratch, units, *direction, limits, laid_out);
        print_laid_out(w, scratch, kind, text, *direction)?;
    }
    Ok(())
}

/// Writes the lines of a text under each of these directions.
pub fn print_text<W: Write>(
    w: &mut W,
    room: &mut RowRoom,
    kind: Kind<'_>,
    text: &[Letter],
    directions: &[Direction],
) -> io::Result<()>
    requires { HasRowRoom (length text.now) room.old }
    ensures printed { OnOk result (Appends (W.contents w.old) (W.contents w.new)
        (cases_text standard kind.entry (under_each directions.now text.now))) }
    ensures room { KeepsRowRoom room.old room.new }
{
    fill_front(text, &mut room.units);
    let units = &room.units[..text.len()];
    print_under_each(w, &mut room.scratch, kind, text, units, directions)
}
