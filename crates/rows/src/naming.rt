//! How rows name the characters of a text.
ghost use Rattle.std.specs.Prelude.{◌≡◌};
ghost use Rattle.rows.specs.Letters.{IsLetterOf};
ghost use Rattle.rows.specs.TextLines.{kind_of, letter_named};

use crate::letter::Letter;
use bidtests::kind::Kind;
use ucdfiles::tables::Tables;

/// How the rows of a file name the characters of a text. The tables give the units.
#[derive(Clone, Copy)]
pub enum Naming<'t> {
    /// By their classes, in the form of BidiTest.txt. Brackets are lost.
    Classes(&'t Tables),
    /// By their code points, in the form of BidiCharacterTest.txt.
    Codes(&'t Tables),
}

impl<'t> Naming<'t> {
    /// Returns the kind of the file.
    pub fn kind(self) -> Kind<'t>
        ensures { result ≡ kind_of self.entry }
    {
        match self {
            Naming::Classes(_) => Kind::Classes,
            Naming::Codes(tables) => Kind::Characters(tables),
        }
    }

    /// Returns a character as a letter of a row.
    pub fn letter(self, code: char) -> Letter
        ensures letter { result ≡ letter_named self.entry code }
        ensures kind { IsLetterOf (kind_of self.entry) result }
    {
        match self {
            Naming::Classes(tables) => Letter::Class(tables.unit(code).class),
            Naming::Codes(tables) => Letter::Character {
                code,
                unit: tables.unit(code),
            },
        }
    }
}
