//! The properties of a code point.
ghost use Rattle.std.specs.Prelude.{◌≡◌, Some, IfOk, IfErr};
ghost use Rattle.std.specs.Char.{IsScalar};
ghost use Rattle.std.specs.Option.{unwrap_or};
ghost use Rattle.ucdfiles.specs.Tables.{mirror_by};
ghost use Rattle.sources.specs.ClassNumbers.{class_numbered};
ghost use Rattle.for_c.specs.Properties.{IsBracketOf, IsClassOf, IsUnitOf, RejectsCode, bracket_number};

use crate::call_error::CallError;
use ucdfiles::tables::Tables;
use units::bracket::{Bracket, Unit};
use units::class::Class;

/// Returns the number of a class.
pub(crate) fn class_number(class: Class) -> u8
    ensures { class_numbered result ≡ Some class }
{
    match class {
        Class::L => 0,
        Class::R => 1,
        Class::AL => 2,
        Class::EN => 3,
        Class::ES => 4,
        Class::ET => 5,
        Class::AN => 6,
        Class::CS => 7,
        Class::NSM => 8,
        Class::BN => 9,
        Class::B => 10,
        Class::S => 11,
        Class::WS => 12,
        Class::ON => 13,
        Class::LRE => 14,
        Class::LRO => 15,
        Class::RLE => 16,
        Class::RLO => 17,
        Class::PDF => 18,
        Class::LRI => 19,
        Class::RLI => 20,
        Class::FSI => 21,
        Class::PDI => 22,
    }
}

/// Returns the number of what a bracket does (BD14, BD15): 0 if there is none, 1 if it opens, 2 if it closes.
pub(crate) fn bracket_number(bracket: Bracket) -> u8
    ensures { result ≡ bracket_number bracket }
{
    match bracket {
        Bracket::No => 0,
        Bracket::Open(_) => 1,
        Bracket::Close(_) => 2,
    }
}

/// Returns the class and the bracket of a code point. Fails with `NoCharacter` if it isn't a scalar value.
fn unit_of(tables: &Tables, code: u32) -> Result<Unit, CallError>
    ensures unit { IfOk result (IsUnitOf tables.now code) }
    ensures reason { IfErr result (RejectsCode code) }
{
    match char::from_u32(code) {
        Some(c) => Ok(tables.unit(c)),
        None => Err(CallError::NoCharacter(0)),
    }
}

/// Returns the number of the class of a code point. Fails with `NoCharacter` if it isn't a scalar value.
pub fn class_of(tables: &Tables, code: u32) -> Result<u8, CallError>
    ensures class { IfOk result (IsClassOf tables.now code) }
    ensures reason { IfErr result (RejectsCode code) }
{
    let unit = unit_of(tables, code)?;
    Ok(class_number(unit.class))
}

/// Returns the number of what the bracket of a code point does: 0 if it is no bracket, 1 if it opens, 2 if it closes.
/// Fails with `NoCharacter` if it isn't a scalar value.
pub fn bracket_of(tables: &Tables, code: u32) -> Result<u8, CallError>
    ensures bracket { IfOk result (IsBracketOf tables.now code) }
    ensures reason { IfErr result (RejectsCode code) }
{
    let unit = unit_of(tables, code)?;
    Ok(bracket_number(unit.bracket))
}

/// Returns the mirrored character of a code point (L4), or the code point if it has none or isn't a scalar value.
pub fn mirror_image(tables: &Tables, code: u32) -> u32
    ensures other { (IsScalar code → ⊥) → result ≡ code }
    ensures image { IsScalar code → result ≡ unwrap_or (mirror_by tables.now.mirrors code) code }
{
    let Some(c) = char::from_u32(code) else {
        return code;
    };
    match tables.mirrors().glyph(c) {
        Some(image) => u32::from(image),
        None => code,
    }
}
