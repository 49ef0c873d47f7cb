//! The lines of a case in a file of classes, from its layout.
ghost use Rattle.std.specs.Prelude.{◌≡◌, OnOk};
ghost use Rattle.std.specs.Fmt.{decimal};
ghost use Rattle.std.specs.Io.KnownBytes.{Appends};
ghost use Rattle.std.specs.List.{flat_map};
ghost use Rattle.units.specs.Layout.{all_orders};
ghost use Rattle.units.specs.Lines.{ended};
ghost use Rattle.lines.specs.Layouts.{view_of};
ghost use Rattle.printing.specs.LevelsText.{level_text};
ghost use Rattle.bidtests.specs.declared.kind.Kind.TheVariants as kind;
ghost use Rattle.rows.specs.Letters.{letter_name};
ghost use Rattle.rows.specs.RowTexts.{after_blanks, between_blanks, bit_text, levels_line, lines_with_layout, order_line, row_line};

use crate::item_text::{print_after_blanks, print_between_blanks};
use crate::letter::Letter;
use lines::layout::Layout;
use std::io;
use std::io::Write;
use units::level::{Direction, Level};

/// Writes each level after a blank.
pub fn print_levels<W: Write>(w: &mut W, levels: &[Option<Level>]) -> io::Result<()>
    ensures { OnOk result (Appends (W.contents w.old) (W.contents w.new) (after_blanks level_text levels.now)) }
{
    print_after_blanks(w, levels)
}

/// Writes each position after a blank.
pub fn print_positions<W: Write>(w: &mut W, order: &[usize]) -> io::Result<()>
    ensures { OnOk result (Appends (W.contents w.old) (W.contents w.new) (after_blanks decimal order.now)) }
{
    print_after_blanks(w, order)
}

/// Writes the orders of all lines, one after another.
pub fn print_orders<W: Write>(w: &mut W, layout: &Layout<'_>) -> io::Result<()>
    ensures { OnOk result (Appends (W.contents w.old) (W.contents w.new)
        (after_blanks decimal (all_orders (view_of layout.now)))) }
{
    for k in 0..layout.line_count() {
        print_positions(w, layout.line(k).order)?;
    }
    Ok(())
}

/// Writes the names of a text's letters, with a blank between each two.
pub fn print_names<W: Write>(w: &mut W, text: &[Letter]) -> io::Result<()>
    ensures { OnOk result (Appends (W.contents w.old) (W.contents w.new) (between_blanks letter_name text.now)) }
{
    print_between_blanks(w, text)
}

/// Returns the bit that a row of classes has for a direction.
fn bit_of(direction: Direction) -> &'static [u8]
    ensures { result.now ≡ bit_text direction }
{
    match direction {
        Direction::Auto => b"1",
        Direction::Ltr => b"2",
        Direction::Rtl => b"4",
        Direction::AutoRtl => b"8",
    }
}

fn print_levels_line<W: Write>(w: &mut W, levels: &[Option<Level>]) -> io::Result<()>
    ensures { OnOk result (Appends (W.contents w.old) (W.contents w.new) (ended (levels_line levels.now))) }
{
    w.write_all(b"@Levels:")?;
    print_levels(w, levels)?;
    w.write_all(b"\n")
}

fn print_order_line<W: Write>(w: &mut W, layout: &Layout<'_>) -> io::Result<()>
    ensures { OnOk result (Appends (W.contents w.old) (W.contents w.new)
        (ended (order_line (all_orders (view_of layout.now))))) }
{
    w.write_all(b"@Reorder:")?;
    print_orders(w, layout)?;
    w.write_all(b"\n")
}

fn print_row_line<W: Write>(w: &mut W, text: &[Letter], direction: Direction) -> io::Result<()>
    ensures { OnOk result (Appends (W.contents w.old) (W.contents w.new) (ended (row_line text.now direction))) }
{
    print_names(w, text)?;
    w.write_all(b"; ")?;
    w.write_all(bit_of(direction))?;
    w.write_all(b"\n")
}

/// Writes the lines of a text under a direction: its levels, its order, and its row. `layout` is its layout.
pub fn print_class_case<W: Write>(
    w: &mut W,
    text: &[Letter],
    direction: Direction,
    layout: &Layout<'_>,
) -> io::Result<()>
    ensures { OnOk result (Appends (W.contents w.old) (W.contents w.new)
        (flat_map ended (lines_with_layout kind.Classes (view_of layout.now) (record {
          text = text.now;
          direction = direction;
        })))) }
{
    print_levels_line(w, layout.levels())?;
    print_order_line(w, layout)?;
    print_row_line(w, text, direction)
}
