//! What the inputs of a row name: units, a direction and limits.
ghost use Rattle.std.specs.Prelude.{◌≡◌, length, IsTrue, IfOk};
ghost use Rattle.std.specs.List.{list_any};
ghost use Rattle.units.specs.Classes.{is_separator, classes_of};
ghost use Rattle.units.specs.Paragraphs.{SeparatorOnlyLast};

use anyhow::{Result, anyhow, bail};
use row_files::words::{class_of, direction_of, number_of, words_of};
use std::alloc::{AllocError, Global};
use units::bracket::{Bracket, Key, Unit};
use units::class::Class;
use units::level::Direction;
use units::limits::Limits;
use units::memory::Memory;

/// The inputs of a row.
#[derive(Drop)]
pub struct Given {
    /// The units of a text.
    pub units: Vec<Unit>,
    /// The direction of its paragraph.
    pub direction: Direction,
    /// The limits that hold.
    pub limits: Limits,
}

/// Returns the error for memory that was refused.
pub fn out_of_memory(_memory: Memory) -> anyhow::Error {
    anyhow!("out of memory")
}

/// Returns a bracket.
fn bracket(bracket: Bracket) -> Unit {
    Unit {
        class: Class::ON,
        bracket,
    }
}

/// Returns the unit with this name: a bracket of one of two kinds, or the short name of a class. Fails if there is
/// none.
fn unit_of(name: &str) -> Result<Unit> {
    match name {
        "(" => Ok(bracket(Bracket::Open(Key::new(1)))),
        ")" => Ok(bracket(Bracket::Close(Key::new(1)))),
        "[" => Ok(bracket(Bracket::Open(Key::new(2)))),
        "]" => Ok(bracket(Bracket::Close(Key::new(2)))),
        _ => Ok(Unit {
            class: class_of(name)?,
            bracket: Bracket::No,
        }),
    }
}

/// Returns the units that the words of a field name.
fn units_of(alloc: Global, field: &str) -> Result<Vec<Unit>> {
    let words = words_of(alloc, field)?;
    let mut units = Vec::new(alloc);
    for name in words.split_whitespace() {
        units.push(unit_of(name)?)?;
    }
    Ok(units)
}

/// Returns a limit, which a field writes as a number.
fn limit_of(field: &str) -> Result<u8> {
    match u8::try_from(number_of(field)?) {
        Ok(limit) => Ok(limit),
        Err(_) => bail!("{field} is no limit"),
    }
}

/// Returns the limits with this depth and this number of brackets.
fn limits_of(depth: &str, brackets: &str) -> Result<Limits> {
    match Limits::new(limit_of(depth)?, limit_of(brackets)?) {
        Ok(limits) => Ok(limits),
        Err(_) => bail!("{depth} and {brackets} are no limits"),
    }
}

/// Returns the inputs of a row: a direction, perhaps the two limits, and units.
pub fn given_of(alloc: Global, inputs: &[&str]) -> Result<Given> {
    match inputs {
        [direction, units] => Ok(Given {
            units: units_of(alloc, units)?,
            direction: direction_of(direction)?,
            limits: Limits::standard(),
        }),
        [direction, depth, brackets, units] => Ok(Given {
            units: units_of(alloc, units)?,
            direction: direction_of(direction)?,
            limits: limits_of(depth, brackets)?,
        }),
        _ => bail!("the inputs are a direction, perhaps two limits, and units"),
    }
}

/// Returns the classes of units.
pub fn classes_of(alloc: Global, units: &[Unit]) -> Result<Vec<Class>, AllocError>
    ensures { IfOk result (λ classes. classes.items ≡ classes_of units.now) }
{
    units.iter().map(|unit| unit.class).collect(alloc)
}

fn has_separator(units: &[Unit]) -> bool
    ensures { result ≡ list_any (λ unit. is_separator unit.class) units.now }
{
    units.iter().any(|unit| unit.class.is_separator())
}

/// Returns whether these units have no separator, and so are one paragraph.
pub fn is_paragraph(units: &[Unit]) -> bool
    ensures { IsTrue result → SeparatorOnlyLast units.now }
{
    !has_separator(units)
}
