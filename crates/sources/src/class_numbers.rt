//! The units of classes, by their numbers.
ghost use Rattle.std.specs.Prelude.{◌≡◌, ◌≤◌, length, take, MatchOption, OnOk, IfErr};
ghost use Rattle.sources.specs.ClassNumbers.{IsClassNumber, class_numbered, unit_numbered, units_numbered};
ghost use Rattle.sources.specs.Kinds.{AllAre, IsFirstOther};

use units::bracket::{Bracket, Unit};
use units::class::Class;

/// Returns the class with this number, if there is one.
pub fn class_numbered(number: u8) -> Option<Class>
    ensures { result ≡ class_numbered number }
{
    Some(match number {
        0 => Class::L,
        1 => Class::R,
        2 => Class::AL,
        3 => Class::EN,
        4 => Class::ES,
        5 => Class::ET,
        6 => Class::AN,
        7 => Class::CS,
        8 => Class::NSM,
        9 => Class::BN,
        10 => Class::B,
        11 => Class::S,
        12 => Class::WS,
        13 => Class::ON,
        14 => Class::LRE,
        15 => Class::LRO,
        16 => Class::RLE,
        17 => Class::RLO,
        18 => Class::PDF,
        19 => Class::LRI,
        20 => Class::RLI,
        21 => Class::FSI,
        22 => Class::PDI,
        _ => return None,
    })
}

/// Returns the unit of the class with this number, if there is one. The unit isn't a bracket.
pub(crate) fn unit_of(number: u8) -> Option<Unit>
    ensures { MatchOption result (IsClassNumber number → ⊥)
        (λ unit. IsClassNumber number × (unit ≡ unit_numbered number)) }
{
    let class = class_numbered(number)?;
    Some(Unit {
        class,
        bracket: Bracket::No,
    })
}

/// Fails with the index of the first number that isn't that of a class.
pub fn check_classes(numbers: &[u8]) -> Result<(), usize>
    ensures fault { IfErr result (IsFirstOther IsClassNumber numbers.now) }
    ensures classes { OnOk result (AllAre IsClassNumber numbers.now) }
{
    for i in 0..numbers.len() {
        if unit_of(numbers[i]).is_none() {
            return Err(i);
        }
    }
    Ok(())
}

/// Writes the units of classes, by their numbers, to the front of the column.
pub fn fill_classes(units: &mut [Unit], numbers: &[u8])
    requires fits { length numbers.now ≤ length units.old }
    requires classes { AllAre IsClassNumber numbers.now }
    ensures len { length units.new ≡ length units.old }
    ensures units { take (length numbers.now) units.new ≡ units_numbered numbers.now }
{
    for i in 0..numbers.len() {
        if let Some(unit) = unit_of(numbers[i]) {
            units[i] = unit;
        }
    }
}
