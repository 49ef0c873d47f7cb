//! One line alone of a text.
ghost use Rattle.std.specs.Prelude.{◌≡◌, length};
ghost use Rattle.lines.specs.Scratches.{HoldsSomeLayoutOf, IsFilled};

use crate::by_lines::{breaks_of, compare, scratch_for, units_of};
use crate::given::Given;
use crate::in_room::push_layout_in;
use crate::layouts::{laid_out, push_layout, push_order};
use crate::lists::FILLING;
use crate::options::Options;
use anyhow::{Context, Result, bail, ensure};
use lines::alone::SpanFault;
use lines::lay_out::{lay_out_into_with, line_of_into};
use lines::scratch::Scratch;
use room::room::Room;
use row_files::shown::push_levels;
use row_files::words::push_word;
use std::alloc::Global;
use std::fmt::Debug;
use ucdfiles::tables::Tables;
use units::bracket::Unit;
use units::level::Level;

/// Returns whether these lists are as they were made.
fn are_unchanged(levels: &[Option<Level>], order: &[usize]) -> bool {
    let has_level = levels.iter().any(|level| level.is_some());
    let has_position = order.iter().any(|position| *position != FILLING);
    !has_level && !has_position
}

/// Appends the levels of a line and after a `|` its order.
fn push_levels_and_order(
    out: &mut String,
    levels: Option<&[Option<Level>]>,
    order: Option<&[usize]>,
) -> Result<()> {
    push_levels(out, levels.context("the line has too few levels")?)?;
    push_word(out, "|")?;
    push_order(out, order.context("the line has too few positions")?)?;
    Ok(())
}

/// Appends a line of `count` units, or the fault. Fails if there is a fault and the lists are not unchanged.
fn push_line<F: Debug + Drop>(
    out: &mut String,
    line: Result<usize, F>,
    count: usize,
    levels: &[Option<Level>],
    order: &[usize],
) -> Result<()> {
    match line {
        Ok(shown) => push_levels_and_order(out, levels.get(..count), order.get(..shown)),
        Err(fault) => {
            push_word(out, format_args!("{fault:?}"))?;
            let unchanged = are_unchanged(levels, order);
            ensure!(unchanged, "the lists are changed");
            Ok(())
        }
    }
}

/// Appends a line of the text in a room. Fails if the layout in the room changes.
fn push_in_room(alloc: Global, room: &mut Room, options: &Options, out: &mut String) -> Result<()> {
    let (start, end) = options.line;
    let n = room.text_len();
    let (of_levels, of_order) = options.lists.unwrap_or((n, n));
    let mut levels = vec![in alloc; None; of_levels]?;
    let mut order = vec![in alloc; FILLING; of_order]?;
    let mut before = String::new(alloc);
    push_layout_in(alloc, room, &mut before)?;
    let line = room.line_of(start, end, &mut levels, &mut order);
    push_line(out, line, end.saturating_sub(start), &levels, &order)?;
    let mut after = String::new(alloc);
    push_layout_in(alloc, room, &mut after)?;
    ensure!(before.as_str() == after.as_str(), "the layout is changed");
    Ok(())
}

/// Lays out a line alone of the text in a scratch, which is of these units. The lists have an item for each unit.
fn line_in(
    scratch: &mut Scratch,
    units: &[Unit],
    line: (usize, usize),
    levels: &mut [Option<Level>],
    order: &mut [usize],
) -> Result<usize, SpanFault>
    requires holds { HoldsSomeLayoutOf units.now scratch.old }
    requires filled { IsFilled scratch.old }
    requires levels { length levels.old ≡ length units.now }
    requires order { length order.old ≡ length units.now }
    ensures { IsFilled scratch.new }
{
    line_of_into(scratch, units, line.0, line.1, levels, order)
}

/// Appends a line of the text in a scratch, which is of these units. Fails if the layout in the scratch changes.
fn push_line_in(
    alloc: Global,
    scratch: &mut Scratch,
    units: &[Unit],
    line: (usize, usize),
    out: &mut String,
) -> Result<()>
    requires holds { HoldsSomeLayoutOf units.now scratch.old }
    requires filled { IsFilled scratch.old }
{
    let mut levels = vec![in alloc; None; units.len()]?;
    let mut order = vec![in alloc; FILLING; units.len()]?;
    let mut before = String::new(alloc);
    push_layout(&mut before, &scratch.layout())?;
    let shown = line_in(scratch, units, line, &mut levels, &mut order);
    let mut after = String::new(alloc);
    push_layout(&mut after, &scratch.layout())?;
    push_line(out, shown, line.1.saturating_sub(line.0), &levels, &order)?;
    let same = before.as_str() == after.as_str();
    ensure!(same, "the layout of the scratch is changed");
    Ok(())
}

/// Appends a line of these units by the calls of `lines`.
fn push_in_scratch(
    alloc: Global,
    scratch: &mut Scratch,
    units: &[Unit],
    options: &Options,
    out: &mut String,
) -> Result<()> {
    let breaks = breaks_of(&options.breaks, units.len())?;
    if lay_out_into_with(scratch, units, options.direction, &breaks, options.limits).is_err() {
        bail!("the text is too long");
    }
    push_line_in(alloc, scratch, units, options.line, out)
}

/// Lays out a text in a room, and appends a line of it.
fn push_by_room(
    alloc: Global,
    tables: &Tables,
    options: &Options,
    given: &Given,
    out: &mut String,
) -> Result<()> {
    let mut room = laid_out(alloc, tables, options, given)?;
    push_in_room(alloc, &mut room, options, out)
}

/// Appends a line of these units by the calls of `lines`.
fn push_by_lines(alloc: Global, options: &Options, units: &[Unit], out: &mut String) -> Result<()> {
    let mut scratch = scratch_for(alloc, options, units)?;
    push_in_scratch(alloc, &mut scratch, units, options, out)
}

/// Appends the line of a text that its options name, laid out alone in a room. Fails if `lines` gives another one.
pub fn push_alone(
    alloc: Global,
    tables: &Tables,
    options: &Options,
    given: &Given,
    out: &mut String,
) -> Result<()> {
    push_by_room(alloc, tables, options, given, out)?;
    if options.lists.is_some() {
        return Ok(());
    }
    let Some(units) = units_of(alloc, tables, given)? else {
        return Ok(());
    };
    let mut by_lines = String::new(alloc);
    push_by_lines(alloc, options, &units, &mut by_lines)?;
    compare(by_lines.as_str(), out.as_str())
}
