//! What tables state for characters, as words.

use row_files::words::push_word;
use std::alloc::{AllocError, Global};
use std::fmt::{self, Display};
use ucdfiles::bracket_table::BracketTable;
use ucdfiles::class_table::ClassTable;
use ucdfiles::mirror_table::MirrorTable;
use ucdfiles::tables::Tables;
use units::bracket::{Bracket, Key};

/// The code point of a character, or `-` for none.
#[derive(Clone, Copy)]
struct Code(Option<char>);

impl Display for Code {
    fn fmt<W: fmt::Write>(&self, f: &mut fmt::Formatter<W>) -> fmt::Result {
        match self.0 {
            Some(c) => write!(f, "{:04X}", u32::from(c)),
            None => write!(f, "-"),
        }
    }
}

/// A bracket: `no`, or `o` or `c` and the first character of the row whose bracket has the same key.
#[derive(Clone, Copy)]
struct NamedBracket {
    bracket: Bracket,
    first: Code,
}

impl Display for NamedBracket {
    fn fmt<W: fmt::Write>(&self, f: &mut fmt::Formatter<W>) -> fmt::Result {
        match self.bracket {
            Bracket::No => write!(f, "no"),
            Bracket::Open(_) => write!(f, "o{}", self.first),
            Bracket::Close(_) => write!(f, "c{}", self.first),
        }
    }
}

/// Returns the key of a bracket.
fn key_of(bracket: Bracket) -> Option<Key> {
    match bracket {
        Bracket::No => None,
        Bracket::Open(key) | Bracket::Close(key) => Some(key),
    }
}

/// Names a bracket by these characters, which have these brackets.
fn named(bracket: Bracket, chars: &[char], brackets: &[Bracket]) -> NamedBracket {
    let first = brackets
        .iter()
        .position(|other| key_of(*other) == key_of(bracket));
    let first = first.and_then(|index| chars.get(index)).copied();
    NamedBracket {
        bracket,
        first: Code(first),
    }
}

/// Appends the classes of these characters.
pub fn push_classes(
    table: &ClassTable,
    chars: &[char],
    out: &mut String,
) -> Result<(), AllocError> {
    for c in chars {
        push_word(out, table.class(*c).short())?;
    }
    Ok(())
}

/// Appends the brackets of these characters.
pub fn push_brackets(
    alloc: Global,
    table: &BracketTable,
    chars: &[char],
    out: &mut String,
) -> Result<(), AllocError> {
    let brackets: Vec<Bracket> = chars.iter().map(|c| table.bracket(*c)).collect(alloc)?;
    for bracket in &brackets {
        push_word(out, named(*bracket, chars, &brackets))?;
    }
    Ok(())
}

/// Appends the mirror images of these characters.
pub fn push_images(
    table: &MirrorTable,
    chars: &[char],
    out: &mut String,
) -> Result<(), AllocError> {
    for c in chars {
        push_word(out, Code(table.glyph(*c)))?;
    }
    Ok(())
}

/// Appends the class, the bracket and the mirror image of each of these characters, with `/` between them.
pub fn push_units(
    alloc: Global,
    tables: &Tables,
    chars: &[char],
    out: &mut String,
) -> Result<(), AllocError> {
    let units = tables.units_of(alloc, chars)?;
    let brackets: Vec<Bracket> = units.iter().map(|unit| unit.bracket).collect(alloc)?;
    for (c, unit) in chars.iter().zip(&units) {
        let bracket = named(unit.bracket, chars, &brackets);
        let image = Code(tables.mirrors().glyph(*c));
        push_word(
            out,
            format_args!("{}/{bracket}/{image}", unit.class.short()),
        )?;
    }
    Ok(())
}
