//! Classes and characters converted to letters.
ghost use Rattle.std.specs.Prelude.{◌≡◌, ◌≤◌, ◌++◌, ◌∷◌, [], length, map, take, IfOk, OnOk};
ghost use Rattle.std.specs.List.{All};
ghost use Rattle.bidtests.specs.declared.kind.Kind.TheVariants as kind;
ghost use Rattle.rows.specs.declared.letter.Letter.TheVariants as letter;
ghost use Rattle.rows.specs.Letters.{IsCharacterBy, IsLetterOf, letter_by, units_of};

use crate::letter::Letter;
use std::alloc::Global;
use ucdfiles::tables::Tables;
use units::bracket::Unit;
use units::class::Class;
use units::memory::Memory;

/// Adds a letter after the others.
fn add(letters: &mut Vec<Letter>, letter: Letter) -> Result<(), Memory>
    ensures { OnOk result (letters.new.items ≡ letters.old.items ++ letter ∷ []) }
{
    match letters.push(letter) {
        Ok(()) => Ok(()),
        Err(_) => Err(Memory),
    }
}

/// Returns these classes as letters, for rows in the form of BidiTest.txt. Fails if memory runs out.
pub fn class_letters(alloc: Global, classes: &[Class]) -> Result<Vec<Letter>, Memory>
    ensures letters { IfOk result (λ letters. letters.items ≡ map letter.Class classes.now) }
    ensures kind { IfOk result (λ letters. All (IsLetterOf kind.Classes) letters.items) }
{
    let mut letters = Vec::new(alloc);
    for class in classes {
        add(&mut letters, Letter::Class(*class))?;
    }
    Ok(letters)
}

/// Returns a character as a letter, with its unit from the tables.
fn letter_of(tables: &Tables, code: char) -> Letter
    ensures letter { result ≡ letter_by tables.now code }
    ensures is { IsCharacterBy tables.now result }
{
    Letter::Character {
        code,
        unit: tables.unit(code),
    }
}

/// Returns these characters as letters, with their units from the tables, for rows in the form of
/// BidiCharacterTest.txt. Fails if memory runs out.
pub fn character_letters(
    alloc: Global,
    tables: &Tables,
    characters: &[char],
) -> Result<Vec<Letter>, Memory>
    ensures letters { IfOk result (λ letters. letters.items ≡ map (letter_by tables.now) characters.now) }
    ensures kind { IfOk result (λ letters. All (IsLetterOf (kind.Characters tables.entry)) letters.items) }
{
    let mut letters = Vec::new(alloc);
    for code in characters {
        add(&mut letters, letter_of(tables, *code))?;
    }
    Ok(letters)
}

/// Writes the unit of each letter of a text.
fn fill_units(text: &[Letter], units: &mut [Unit])
    requires { length units.old ≡ length text.now }
    ensures { units.new ≡ units_of text.now }
{
    for place in 0..text.len() {
        units[place] = text[place].unit();
    }
}

/// Writes the unit of each letter of a text to the front of `units`.
pub fn fill_front(text: &[Letter], units: &mut [Unit])
    requires { length text.now ≤ length units.old }
    ensures front { take (length text.now) units.new ≡ units_of text.now }
    ensures length { length units.new ≡ length units.old }
{
    fill_units(text, &mut units[..text.len()]);
}
