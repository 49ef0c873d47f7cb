//! Units as numbers, for callers that have tables of their own.
ghost use Rattle.std.specs.Prelude.{◌≡◌, ◌≤◌, length, take, MatchOption, OnOk, IfErr};
ghost use Rattle.sources.specs.NumberedUnits.{AreNumbered, IsFirstUnnumbered, IsNumbered, bracket_numbered};
ghost use Rattle.sources.specs.NumberedUnits.{numbered_unit, numbered_units};

use crate::class_numbers::class_numbered;
use units::bracket::{Bracket, Key, Unit};

/// A unit as numbers.
#[repr(C)]
#[derive(Clone, Copy, Debug, PartialEq, Eq)]
pub struct NumberedUnit {
    /// The number of its class, 0 to 22, in the order of `Source::Classes`.
    pub class: u8,
    /// 0 if it is no bracket, 1 if it is an opening one, 2 if it is a closing one.
    pub bracket: u8,
    /// An opening bracket and a closing one pair only if their numbers here are equal (BD16).
    pub key: u32,
}

/// Returns the bracket of this kind with this key, if there is such a kind.
fn bracket_numbered(kind: u8, key: u32) -> Option<Bracket>
    ensures { result ≡ bracket_numbered kind key }
{
    match kind {
        0 => Some(Bracket::No),
        1 => Some(Bracket::Open(Key(key))),
        2 => Some(Bracket::Close(Key(key))),
        _ => None,
    }
}

/// Returns the unit with these numbers, if they are those of a class and of a kind of bracket.
pub(crate) fn unit_of_numbers(numbers: NumberedUnit) -> Option<Unit>
    ensures { MatchOption result (IsNumbered numbers → ⊥)
        (λ unit. IsNumbered numbers × (unit ≡ numbered_unit numbers)) }
{
    let class = class_numbered(numbers.class)?;
    let bracket = bracket_numbered(numbers.bracket, numbers.key)?;
    Some(Unit { class, bracket })
}

/// Fails with the index of the first unit with a number of no class or no kind of bracket.
pub fn check_units(numbered: &[NumberedUnit]) -> Result<(), usize>
    ensures fault { IfErr result (IsFirstUnnumbered numbered.now) }
    ensures units { OnOk result (AreNumbered numbered.now) }
{
    for i in 0..numbered.len() {
        if unit_of_numbers(numbered[i]).is_none() {
            return Err(i);
        }
    }
    Ok(())
}

/// Writes units, by their numbers, to the front of the column.
pub fn fill_units(units: &mut [Unit], numbered: &[NumberedUnit])
    requires fits { length numbered.now ≤ length units.old }
    requires units { AreNumbered numbered.now }
    ensures len { length units.new ≡ length units.old }
    ensures units { take (length numbered.now) units.new ≡ numbered_units numbered.now }
{
    for i in 0..numbered.len() {
        if let Some(unit) = unit_of_numbers(numbered[i]) {
            units[i] = unit;
        }
    }
}
