//! Which unit has the level of the one before it, and what may replace a number or a separator.
ghost use Rattle.std.specs.Prelude.{◌≡◌};
ghost use Rattle.units.specs.Classes.{is_nonspacing};
ghost use Rattle.compress.specs.Spread.{may_repeat, is_space, is_quiet, is_firm, is_still, is_apart, is_no_number};
ghost use Rattle.compress.specs.Squeeze.{is_bare, repeats, is_directed, is_letter_again, is_neutral_unit, is_terminator_unit, is_open_letter, is_one_way, joins, is_between, comma_between, class_for, needs_next, unit_for};

use units::bracket::{Bracket, Unit};
use units::class::Class;

/// Returns whether there is no bracket.
pub fn is_bare(bracket: Bracket) -> bool
    ensures { result ≡ is_bare bracket }
{
    matches!(bracket, Bracket::No)
}

/// Returns whether this is a nonspacing mark.
pub fn is_mark(class: Class) -> bool
    ensures { result ≡ is_nonspacing class }
{
    matches!(class, Class::NSM)
}

/// Returns whether this is a letter, a number, a terminator or a neutral: a second one has the level of the first.
fn may_repeat(class: Class) -> bool
    ensures { result ≡ may_repeat class }
{
    matches!(
        class,
        Class::L
            | Class::R
            | Class::AL
            | Class::EN
            | Class::ET
            | Class::AN
            | Class::S
            | Class::WS
            | Class::ON
    )
}

/// Returns whether this is a neutral.
fn is_space(class: Class) -> bool
    ensures { result ≡ is_space class }
{
    matches!(class, Class::S | Class::WS | Class::ON)
}

/// Returns whether this is a letter or a neutral.
fn is_quiet(class: Class) -> bool
    ensures { result ≡ is_quiet class }
{
    matches!(
        class,
        Class::L | Class::R | Class::AL | Class::S | Class::WS | Class::ON
    )
}

/// Returns whether this is the same letter, number or terminator again.
fn repeats(before: Class, class: Class) -> bool
    ensures { result ≡ repeats before class }
{
    matches!(
        (before, class),
        (Class::L, Class::L)
            | (Class::R, Class::R)
            | (Class::AL, Class::AL)
            | (Class::EN, Class::EN)
            | (Class::AN, Class::AN)
            | (Class::ET, Class::ET)
    )
}

/// Returns whether this is a letter of this direction.
fn is_directed(direction: Class, class: Class) -> bool
    ensures { result ≡ is_directed direction class }
{
    matches!(
        (direction, class),
        (Class::L, Class::L) | (Class::R, Class::R | Class::AL)
    )
}

/// Returns whether a unit is a neutral or a separator, without a bracket: between letters it is neutral.
pub fn is_neutral_unit(unit: Unit) -> bool
    ensures { result ≡ is_neutral_unit unit }
{
    is_bare(unit.bracket)
        && matches!(
            unit.class,
            Class::S | Class::WS | Class::ON | Class::ES | Class::CS
        )
}

/// Returns whether a unit is a terminator, without a bracket: between letters it is neutral.
pub(crate) fn is_terminator_unit(unit: Unit) -> bool
    ensures { result ≡ is_terminator_unit unit }
{
    is_bare(unit.bracket) && matches!(unit.class, Class::ET)
}

/// Returns whether a unit is this letter again, without a bracket.
pub fn is_letter_again(letter: Class, unit: Unit) -> bool
    ensures { result ≡ is_letter_again letter unit }
{
    is_bare(unit.bracket)
        && matches!(
            (letter, unit.class),
            (Class::L, Class::L) | (Class::R, Class::R) | (Class::AL, Class::AL)
        )
}

/// Returns whether neutrals after a chosen unit depend on what comes after them: it is a letter without a bracket, not
/// of this direction.
pub fn is_open_letter(direction: Class, unit: Unit) -> bool
    ensures { result ≡ is_open_letter direction unit }
{
    is_bare(unit.bracket) && unit.class.is_strong() && !is_directed(direction, unit.class)
}

/// Returns whether these are letters of one direction.
fn is_one_way(before: Class, class: Class) -> bool
    ensures { result ≡ is_one_way before class }
{
    matches!(
        (before, class),
        (Class::L, Class::L) | (Class::R | Class::AL, Class::R | Class::AL)
    )
}

/// Returns whether a unit has the level of the one before it.
pub fn joins(direction: Class, before: Unit, unit: Unit) -> bool
    ensures { result ≡ joins direction before unit }
{
    if is_mark(unit.class) {
        return may_repeat(before.class);
    }
    is_bare(unit.bracket)
        && is_bare(before.bracket)
        && (repeats(before.class, unit.class)
            || (is_space(unit.class)
                && (is_space(before.class) || is_directed(direction, before.class))))
}

/// Returns whether a unit between two others has their level.
pub fn is_between(before: Unit, unit: Unit, after: Unit) -> bool
    ensures { result ≡ is_between before unit after }
{
    is_space(unit.class)
        && is_bare(unit.bracket)
        && is_bare(before.bracket)
        && is_one_way(before.class, after.class)
}

/// Returns whether this is a letter, a number or a neutral.
fn is_firm(class: Class) -> bool
    ensures { result ≡ is_firm class }
{
    matches!(class, Class::EN | Class::AN) || is_quiet(class)
}

/// Returns whether this is a letter, a neutral or an Arabic number.
fn is_still(class: Class) -> bool
    ensures { result ≡ is_still class }
{
    matches!(class, Class::AN) || is_quiet(class)
}

/// Returns whether this is no mark, separator or terminator.
pub(crate) fn is_apart(class: Class) -> bool
    ensures { result ≡ is_apart class }
{
    !matches!(class, Class::NSM | Class::ES | Class::CS | Class::ET)
}

/// Returns whether this is no mark and no number.
fn is_no_number(class: Class) -> bool
    ensures { result ≡ is_no_number class }
{
    !matches!(class, Class::EN | Class::AN | Class::NSM)
}

/// Returns what replaces a CS between these classes.
fn comma_between(before: Class, next: Class) -> Class
    ensures { result ≡ comma_between before next }
{
    match (before, next) {
        (Class::EN, Class::EN) => Class::EN,
        (Class::AN, Class::AN) => Class::AN,
        _ => Class::CS,
    }
}

/// Returns what replaces a class between these two, if `strong` is the last strong one.
fn class_for(strong: Class, before: Class, class: Class, next: Class) -> Class
    ensures { result ≡ class_for strong before class next }
{
    match class {
        Class::CS => {
            if is_quiet(before) || (is_firm(before) && is_no_number(next)) {
                Class::ON
            } else {
                comma_between(before, next)
            }
        }
        Class::ES => {
            if is_quiet(before) || (is_firm(before) && is_no_number(next)) {
                Class::ON
            } else {
                Class::ES
            }
        }
        Class::ET => {
            if is_quiet(before) && is_still(next) {
                Class::ON
            } else {
                Class::ET
            }
        }
        Class::EN => {
            if is_quiet(before) && is_directed(Class::L, strong) && is_apart(next) {
                Class::L
            } else {
                Class::EN
            }
        }
        other => other,
    }
}

/// Returns whether another class may replace this one, by the class of the next unit: ES, ET or CS, and EN if the last
/// strong class is L.
pub fn needs_next(strong: Class, class: Class) -> bool
    ensures { result ≡ needs_next strong class }
{
    match class {
        Class::EN => is_directed(Class::L, strong),
        other => matches!(other, Class::ES | Class::ET | Class::CS),
    }
}

/// Returns what replaces a unit after another and before this class, if `strong` is the last strong class.
pub fn unit_for(strong: Class, before: Unit, unit: Unit, next: Class) -> Unit
    ensures { result ≡ unit_for strong before unit next }
{
    if is_bare(unit.bracket) {
        Unit {
            class: class_for(strong, before.class, unit.class, next),
            bracket: unit.bracket,
        }
    } else {
        unit
    }
}
