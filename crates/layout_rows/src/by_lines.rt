//! The same by the calls of `lines`: units are laid out in a `Scratch`.
ghost use Rattle.std.specs.Prelude.{◌≡◌, IfOk};
ghost use Rattle.lines.specs.Scratches.{IsFilled};

use crate::given::Given;
use crate::layouts::{push_layout, push_outcome};
use crate::options::{Form, Options};
use anyhow::{Result, bail};
use lines::breaks::Breaks;
use lines::lay_out::{lay_out_into, lay_out_into_with, set_lines_into};
use lines::scratch::Scratch;
use row_files::words::push_word;
use sources::class_numbers::class_numbered;
use std::alloc::{AllocError, Global};
use ucdfiles::tables::Tables;
use units::bracket::{Bracket, Unit};
use units::level::Direction;

/// Returns the unit of the class with a number, if there is one. It is no bracket.
fn unit_of_class(number: u8) -> Option<Unit> {
    Some(Unit {
        class: class_numbered(number)?,
        bracket: Bracket::No,
    })
}

/// Returns the unit of a code point, if it is that of a character.
fn unit_of_code(tables: &Tables, code: u32) -> Option<Unit> {
    Some(tables.unit(char::from_u32(code)?))
}

/// Returns the units of a text of classes or code points. Returns nothing for one in code units, or if it is not well
/// formed.
pub fn units_of(
    alloc: Global,
    tables: &Tables,
    given: &Given,
) -> Result<Option<Vec<Unit>>, AllocError> {
    let units: Vec<Option<Unit>> = match given {
        Given::Classes(numbers) => numbers.iter().map(|n| unit_of_class(*n)).collect(alloc)?,
        Given::Codes(codes) => codes
            .iter()
            .map(|c| unit_of_code(tables, *c))
            .collect(alloc)?,
        Given::Utf8(_, _) | Given::Utf16(_, _) => return Ok(None),
    };
    if units.iter().any(|unit| unit.is_none()) {
        return Ok(None);
    }
    let units: Vec<Unit> = units.iter().copied().flatten().collect(alloc)?;
    Ok(Some(units))
}

/// Fails if the calls of `lines` give something else than a room.
pub fn compare(by_lines: &str, in_room: &str) -> Result<()> {
    if by_lines != in_room {
        bail!("by the calls of lines {by_lines} comes out, and in a room {in_room}");
    }
    Ok(())
}

/// Returns breaks of a text of `len` units. Fails if they are faulty.
pub fn breaks_of(at: &[usize], len: usize) -> Result<Breaks<'_>>
    ensures { IfOk result (λ breaks. breaks.len ≡ len) }
{
    match Breaks::new(at, len) {
        Ok(breaks) => Ok(breaks),
        Err(fault) => bail!("faulty breaks: {fault:?}"),
    }
}

/// Makes a `Scratch` of the capacity that the options say, or for as many units, with the layout of an empty text.
pub fn scratch_for(alloc: Global, options: &Options, units: &[Unit]) -> Result<Scratch>
    ensures { IfOk result IsFilled }
{
    let capacity = options.capacity.unwrap_or(units.len());
    let mut scratch = match Scratch::with_room(alloc, capacity) {
        Ok(scratch) => scratch,
        Err(fault) => bail!("no scratch is made: {fault:?}"),
    };
    let breaks = breaks_of(&[], 0)?;
    match lay_out_into(&mut scratch, &[], Direction::Auto, &breaks) {
        Ok(()) => Ok(scratch),
        Err(fault) => bail!("the empty text is too long: {fault:?}"),
    }
}

/// Lays out these units, and appends what that leaves; then, if other breaks are given, breaks them into lines again.
fn push_units(
    alloc: Global,
    scratch: &mut Scratch,
    units: &[Unit],
    options: &Options,
    again: Option<&[usize]>,
    out: &mut String,
) -> Result<()>
    requires { IsFilled scratch.old }
{
    let Options {
        direction,
        limits,
        ..
    } = *options;
    let breaks = breaks_of(&options.breaks, units.len())?;
    let mut before = String::new(alloc);
    push_layout(&mut before, &scratch.layout())?;
    let outcome = lay_out_into_with(scratch, units, direction, &breaks, limits);
    let mut after = String::new(alloc);
    push_layout(&mut after, &scratch.layout())?;
    push_outcome(out, outcome, before.as_str(), after.as_str())?;
    if outcome.is_err() {
        return Ok(());
    }
    let Some(again) = again else {
        return Ok(());
    };
    let breaks = breaks_of(again, units.len())?;
    set_lines_into(scratch, units, &breaks);
    push_word(out, "then")?;
    push_layout(out, &scratch.layout())
}

/// Returns the breaks at which a text is broken into lines again, if that is all that follows it.
fn breaks_again(alloc: Global, following: &[&str]) -> Result<Option<Vec<usize>>> {
    let [options, _] = *following else {
        return Ok(None);
    };
    let Options { form, breaks, .. } = Options::of_field(alloc, options)?;
    Ok(if form == Form::Again {
        Some(breaks)
    } else {
        None
    })
}

/// Does what `push_layouts` does, in a `Scratch`, and returns true, for one text of classes or code points, also if it
/// is broken into lines again. For others it returns false.
pub fn push_by_lines(
    alloc: Global,
    tables: &Tables,
    texts: &[&str],
    out: &mut String,
) -> Result<bool> {
    let [options, text, ref following @ ..] = *texts else {
        return Ok(false);
    };
    let options = Options::of_field(alloc, options)?;
    let again = breaks_again(alloc, following)?;
    let given = Given::of_field(alloc, &options, text)?;
    match units_of(alloc, tables, &given)? {
        Some(units) if again.is_some() || following.is_empty() => {
            let mut scratch = scratch_for(alloc, &options, &units)?;
            push_units(alloc, &mut scratch, &units, &options, again.as_deref(), out)?;
            Ok(true)
        }
        _ => Ok(false),
    }
}
