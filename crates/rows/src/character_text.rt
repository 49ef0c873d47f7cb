// The row of a case in a file of characters, from its layout.
ghost use Rattle.std.specs.Prelude.{◌≡◌, ◌||◌, ◌∷◌, [], OnOk};
ghost use Rattle.std.specs.Fmt.{decimal};
ghost use Rattle.std.specs.Io.KnownBytes.{Appends};
ghost use Rattle.units.specs.Isolates.{level_of_para};
ghost use Rattle.units.specs.Layout.{all_orders};
ghost use Rattle.units.specs.Lines.{ended};
ghost use Rattle.lines.specs.Layouts.{view_of};
ghost use Rattle.printing.specs.LevelsText.{level_text};
ghost use Rattle.rows.specs.RowTexts.{between_blanks, direction_text, fields_with_layout, in_fields, para_text};
ghost use Rattle.rows.specs.Placing.{after_or_between, has_some};

use crate::case_text::{print_names, print_positions};
use crate::item_text::print_between_blanks;
use crate::letter::Letter;
use lines::layout::Layout;
use std::io;
use std::io::Write;
use units::level::{Direction, Level, ParaLevel};

/// Returns the number that a row of characters has for a direction.
fn number_of(direction: Direction) -> &'static [u8]
    ensures { result.now ≡ direction_text direction }
{
    match direction {
        Direction::Ltr => b"0",
        Direction::Rtl => b"1",
        Direction::Auto => b"2",
        Direction::AutoRtl => b"3",
    }
}

/// Returns a paragraph's level in digits.
fn number_of_para(level: ParaLevel) -> &'static [u8]
    ensures { result.now ≡ decimal (level_of_para level) }
{
    match level {
        ParaLevel::Zero => b"0",
        ParaLevel::One => b"1",
    }
}

/// Writes the level of the first paragraph if there is one.
fn print_para<W: Write>(w: &mut W, layout: &Layout<'_>) -> io::Result<()>
    ensures { OnOk result (Appends (W.contents w.old) (W.contents w.new) (para_text (view_of layout.now).paras)) }
{
    match layout.para_levels() {
        [first, ..] => w.write_all(number_of_para(*first)),
        [] => Ok(()),
    }
}

/// Writes the levels, with a blank between each two.
fn print_levels_between<W: Write>(w: &mut W, levels: &[Option<Level>]) -> io::Result<()>
    ensures { OnOk result (Appends (W.contents w.old) (W.contents w.new) (between_blanks level_text levels.now)) }
{
    print_between_blanks(w, levels)
}

/// Writes the positions of a line, with a blank between each two, and a blank before the first if `begun` is true.
fn print_line_positions<W: Write>(w: &mut W, order: &[usize], begun: bool) -> io::Result<()>
    ensures { OnOk result (Appends (W.contents w.old) (W.contents w.new) (after_or_between begun decimal order.now)) }
{
    if begun {
        print_positions(w, order)
    } else {
        print_between_blanks(w, order)
    }
}

/// Returns whether a position is written after this line: `begun` says whether one was written before it.
fn has_begun(begun: bool, order: &[usize]) -> bool
    ensures { result ≡ (begun || has_some order.now) }
{
    begun || !order.is_empty()
}

/// Writes the orders of all lines, one after another, with a blank between each two positions.
fn print_orders_between<W: Write>(w: &mut W, layout: &Layout<'_>) -> io::Result<()>
    ensures { OnOk result (Appends (W.contents w.old) (W.contents w.new)
        (between_blanks decimal (all_orders (view_of layout.now)))) }
{
    let mut begun = false;
    for k in 0..layout.line_count() {
        let order = layout.line(k).order;
        print_line_positions(w, order, begun)?;
        begun = has_begun(begun, order);
    }
    Ok(())
}

/// Writes the fields of the levels and of the order.
fn print_levels_and_order<W: Write>(w: &mut W, layout: &Layout<'_>) -> io::Result<()>
    ensures { OnOk result (Appends (W.contents w.old) (W.contents w.new)
        (in_fields (between_blanks level_text (view_of layout.now).levels ∷ between_blanks decimal (all_orders
        (view_of layout.now)) ∷ []))) }
{
    print_levels_between(w, layout.levels())?;
    w.write_all(b";")?;
    print_orders_between(w, layout)
}

/// Writes the fields of the first paragraph's level, of the levels and of the order.
fn print_layout<W: Write>(w: &mut W, layout: &Layout<'_>) -> io::Result<()>
    ensures { OnOk result (Appends (W.contents w.old) (W.contents w.new)
        (in_fields (para_text (view_of layout.now).paras ∷ between_blanks level_text (view_of layout.now).levels
        ∷ between_blanks decimal (all_orders (view_of layout.now)) ∷ []))) }
{
    print_para(w, layout)?;
    w.write_all(b";")?;
    print_levels_and_order(w, layout)
}

/// Writes the fields of the row of a text under a direction. `layout` is its layout.
fn print_fields<W: Write>(
    w: &mut W,
    text: &[Letter],
    direction: Direction,
    layout: &Layout<'_>,
) -> io::Result<()>
    ensures { OnOk result (Appends (W.contents w.old) (W.contents w.new)
        (in_fields (fields_with_layout (view_of layout.now) (record { text = text.now; direction = direction })))) }
{
    print_names(w, text)?;
    w.write_all(b";")?;
    w.write_all(number_of(direction))?;
    w.write_all(b";")?;
    print_layout(w, layout)
}

/// Writes the row of a text under a direction. `layout` is its layout.
pub fn print_character_case<W: Write>(
    w: &mut W,
    text: &[Letter],
    direction: Direction,
    layout: &Layout<'_>,
) -> io::Result<()>
    ensures { OnOk result (Appends (W.contents w.old) (W.contents w.new)
        (ended (in_fields (fields_with_layout (view_of layout.now) (record {
          text = text.now;
          direction = direction;
        }))))) }
{
    print_fields(w, text, direction, layout)?;
    w.write_all(b"\n")
}
