//! Prints what is explained of a row of a test file.
ghost use Rattle.std.specs.Prelude.{◌≡◌, ◌≤◌, codes, length, map, IfErr, OnOk};
ghost use Rattle.std.specs.Fmt.{decimal};
ghost use Rattle.std.specs.Io.KnownBytes.{Appends};
ghost use Rattle.std.specs.List.{flat_map};
ghost use Rattle.std.specs.Option.{option_map};
ghost use Rattle.units.specs.Isolates.{level_of_para};
ghost use Rattle.units.specs.Layout.{all_orders};
ghost use Rattle.units.specs.Limits.{standard};
ghost use Rattle.lines.specs.Layouts.{view_of};
ghost use Rattle.lines.specs.Scratches.{room_of};
ghost use Rattle.bidtests.specs.Headline.{layout_under};
ghost use Rattle.bidtests.specs.Readings.{expected_of};
ghost use Rattle.bidtests.specs.Verdicts.{first_of};
ghost use Rattle.printing.specs.Fronts.{FaultLeavesFront};
ghost use Rattle.printing.specs.LevelsText.{level_text};
ghost use Rattle.rows.specs.RowTexts.{after_blanks};
ghost use Rattle.explain.specs.RowTexts.{case_heading, case_text, expected_text, levels_lines, para_lines, para_text};
ghost use Rattle.explain.specs.RowTexts.{row_text, labelled_line};

use crate::chosen_row::ChosenRow;
use crate::print::print_units;
use bidtests::expected::Expected;
use bidtests::verdict_line::word_of_direction;
use lines::breaks::Breaks;
use lines::lay_out::lay_out_into;
use lines::layout::Layout;
use lines::scratch::Scratch;
use printing::fault::PrintFault;
use rows::case_text::{print_levels, print_orders, print_positions};
use std::alloc::Global;
use std::io;
use std::io::Write;
use units::level::{Direction, Level, ParaLevel};

/// Writes a line with this name and the level of a paragraph.
fn print_level_line<W: Write>(w: &mut W, name: &str, level: Option<ParaLevel>) -> io::Result<()>
    ensures { OnOk result (Appends (W.contents w.old) (W.contents w.new)
        (labelled_line name.now (para_text (option_map level_of_para level)))) }
{
    match level {
        Some(level) => writeln!(w, "{name}: {}", level.level().get()),
        None => writeln!(w, "{name}:"),
    }
}

/// Returns the level of the first paragraph.
fn first_level(paras: &[ParaLevel]) -> Option<ParaLevel>
    ensures { option_map level_of_para result ≡ first_of (map level_of_para paras.now) }
{
    paras.first().copied()
}

/// Writes the expected level of the first paragraph, and the defined one.
fn print_levels_of_first<W: Write>(
    w: &mut W,
    claimed: ParaLevel,
    layout: &Layout<'_>,
) -> io::Result<()>
    ensures { OnOk result (Appends (W.contents w.old) (W.contents w.new)
        (para_lines (Some (level_of_para claimed)) (view_of layout.now))) }
{
    let defined = first_level(layout.para_levels());
    print_level_line(w, "claimed paragraph level", Some(claimed))?;
    print_level_line(w, "defined paragraph level", defined)
}

/// Writes both levels of the first paragraph, if one is expected.
fn print_para_lines<W: Write>(
    w: &mut W,
    claimed: Option<ParaLevel>,
    layout: &Layout<'_>,
) -> io::Result<()>
    ensures { OnOk result (Appends (W.contents w.old) (W.contents w.new)
        (para_lines (option_map level_of_para claimed) (view_of layout.now))) }
{
    match claimed {
        None => Ok(()),
        Some(claimed) => print_levels_of_first(w, claimed, layout),
    }
}

/// Writes a line with this name and the given levels.
fn print_levels_line<W: Write>(w: &mut W, name: &str, levels: &[Option<Level>]) -> io::Result<()>
    ensures { OnOk result (Appends (W.contents w.old) (W.contents w.new)
        (labelled_line name.now (after_blanks level_text levels.now))) }
{
    write!(w, "{name}:")?;
    print_levels(w, levels)?;
    writeln!(w)
}

/// Writes the expected levels, and the defined ones.
fn print_levels_lines<W: Write>(
    w: &mut W,
    claimed: &[Option<Level>],
    layout: &Layout<'_>,
) -> io::Result<()>
    ensures { OnOk result (Appends (W.contents w.old) (W.contents w.new)
        (levels_lines claimed.now (view_of layout.now))) }
{
    print_levels_line(w, "claimed levels", claimed)?;
    print_levels_line(w, "defined levels", layout.levels())
}

/// Writes the expected order.
fn print_expected_order<W: Write>(w: &mut W, order: &[usize]) -> io::Result<()>
    ensures { OnOk result (Appends (W.contents w.old) (W.contents w.new)
        (labelled_line (codes "claimed order") (after_blanks decimal order.now))) }
{
    write!(w, "claimed order:")?;
    print_positions(w, order)?;
    writeln!(w)
}

/// Writes the defined order.
fn print_defined_order<W: Write>(w: &mut W, layout: &Layout<'_>) -> io::Result<()>
    ensures { OnOk result (Appends (W.contents w.old) (W.contents w.new)
        (labelled_line (codes "defined order") (after_blanks decimal (all_orders (view_of layout.now))))) }
{
    write!(w, "defined order:")?;
    print_orders(w, layout)?;
    writeln!(w)
}

/// Writes the expected results of a row, beside those of a layout.
fn print_expected<W: Write>(
    w: &mut W,
    expected: Expected<'_>,
    layout: &Layout<'_>,
) -> io::Result<()>
    ensures { OnOk result (Appends (W.contents w.old) (W.contents w.new)
        (expected_text (expected_of expected.entry) (view_of layout.now))) }
{
    print_para_lines(w, expected.para_level, layout)?;
    print_levels_lines(w, expected.levels, layout)?;
    print_expected_order(w, expected.order)?;
    print_defined_order(w, layout)
}

/// Writes the expected results of a row, beside those that the rules give under the direction.
fn print_beside<W: Write>(
    w: &mut W,
    expected: Expected<'_>,
    direction: Direction,
    scratch: &mut Scratch,
) -> io::Result<()>
    requires { length expected.text.now ≤ room_of scratch.old }
    ensures text { OnOk result (Appends (W.contents w.old) (W.contents w.new)
        (expected_text (expected_of expected.entry) (layout_under standard (expected_of expected.entry) direction))) }
    ensures room { room_of scratch.new ≡ room_of scratch.old }
{
    let breaks = Breaks::new(&[], expected.text.len()).unwrap();
    lay_out_into(scratch, expected.text, direction, &breaks).unwrap();
    print_expected(w, expected, &scratch.layout())
}

/// Writes the line before a case.
fn print_case_heading<W: Write>(w: &mut W, number: u64, direction: Direction) -> io::Result<()>
    ensures { OnOk result (Appends (W.contents w.old) (W.contents w.new) (case_heading number direction)) }
{
    let word = word_of_direction(direction);
    writeln!(w, "line {number}: {word}")
}

/// Writes what is printed under one direction. `number` is the line number of the row.
fn print_case<W: Write>(
    alloc: Global,
    w: &mut W,
    number: u64,
    row: &ChosenRow,
    direction: Direction,
    scratch: &mut Scratch,
) -> Result<(), PrintFault>
    requires { length row.now.expected.text ≤ room_of scratch.old }
    ensures text { OnOk result (Appends (W.contents w.old) (W.contents w.new)
        (case_text number row.now direction)) }
    ensures fault { IfErr result (FaultLeavesFront
        (case_text number row.now direction) (W.contents w.old) (W.contents w.new)) }
    ensures room { room_of scratch.new ≡ room_of scratch.old }
{
    let expected = row.expected();
    print_case_heading(w, number, direction)?;
    print_units(alloc, w, row.chars(), expected.text, direction)?;
    print_beside(w, expected, direction, scratch)?;
    Ok(())
}

/// Writes what is printed under each of the given directions. `number` is the line number of the row.
fn print_cases<W: Write>(
    alloc: Global,
    w: &mut W,
    number: u64,
    row: &ChosenRow,
    directions: &[Direction],
    scratch: &mut Scratch,
) -> Result<(), PrintFault>
    requires { length row.now.expected.text ≤ room_of scratch.old }
    ensures text { OnOk result (Appends (W.contents w.old) (W.contents w.new)
        (flat_map (case_text number row.now) directions.now)) }
    ensures fault { IfErr result (FaultLeavesFront
        (flat_map (case_text number row.now) directions.now) (W.contents w.old) (W.contents w.new)) }
{
    for direction in directions {
        print_case(alloc, w, number, row, *direction, scratch)?;
    }
    Ok(())
}

/// Writes the explanation of the row whose line number is `number`. For each direction of the row, in the order auto,
/// LTR, RTL, AutoRtl, it writes:
/// - a line with that number and the direction;
/// - what `explain` prints of the row's text under that direction;
/// - the expected results, and the results of the rules P1 to L2, on a line each: the level of the first paragraph, if
///   the row expects one, the levels, with `x` for a removed position, and the order. One blank precedes each item.
///
/// Fails with `Write` if the writer fails, and with `Memory` if an allocation fails. After `Memory`, the output is a
/// prefix of that text, or empty. After `Write`, it is not known how much the writer took.
pub fn print_row<W: Write>(
    alloc: Global,
    w: &mut W,
    number: u64,
    row: &ChosenRow,
) -> Result<(), PrintFault>
    ensures text { OnOk result (Appends (W.contents w.old) (W.contents w.new) (row_text number row.now)) }
    ensures fault { IfErr result (FaultLeavesFront
        (row_text number row.now) (W.contents w.old) (W.contents w.new)) }
{
    let expected = row.expected();
    let mut scratch = Scratch::reserve(alloc, expected.text.len())?;
    print_cases(alloc, w, number, row, expected.directions, &mut scratch)
}
