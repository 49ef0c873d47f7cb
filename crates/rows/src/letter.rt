//! The letters of the texts of rows.

use std::fmt;
use units::bracket::{Bracket, Unit};
use units::class::Class;

/// A letter of a text. A row names it by its class, or by its code point in upper-case hex digits, at least four.
#[derive(Clone, Copy)]
pub enum Letter {
    /// Only a class, without a bracket, for a file in the form of BidiTest.txt.
    Class(Class),
    /// A character with its unit from the tables, for a file in the form of BidiCharacterTest.txt.
    Character { code: char, unit: Unit },
}

impl Letter {
    ghost use Rattle.std.specs.Prelude.{◌≡◌};
    ghost use Rattle.rows.specs.Letters.{unit_of};

    /// Returns the unit of the letter.
    pub fn unit(self) -> Unit
        ensures { result ≡ unit_of self }
    {
        match self {
            Letter::Class(class) => Unit {
                class,
                bracket: Bracket::No,
            },
            Letter::Character { unit, .. } => unit,
        }
    }
}

impl fmt::Display for Letter {
    ghost use Rattle.std.specs.Prelude.{Some};
    ghost use Rattle.rows.specs.Letters.{letter_name};

    ghost output = { λ letter. Some (letter_name letter) };

    fn fmt<W: fmt::Write>(&self, f: &mut fmt::Formatter<W>) -> fmt::Result {
        match *self {
            Letter::Class(class) => f.write_str(class.short()),
            Letter::Character { code, .. } => {
                let code = u32::from(code);
                write!(f, "{code:04X}")
            }
        }
    }
}
