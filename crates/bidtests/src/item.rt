//! Items of lists, and reading of lists into reserved capacity.
ghost use Rattle.std.specs.Prelude.{◌≡◌, ◌+◌, ◌*◌, ◌≤◌, Option, List, ℕ, length, vec_capacity};
ghost use Rattle.units.specs.Text.{items_of, each_read};
ghost use Rattle.ucdfiles.specs.PairFiles.{char_of};
ghost use Rattle.bidtests.specs.ClassesFile.{level_item, order_item, unit_item};
ghost use Rattle.bidtests.specs.CharactersFile.{character_item};
ghost use Rattle.ucdfiles.specs.Tables.{unit_by};
ghost use Rattle.bidtests.specs.Readings.{if_read};

use ucdfiles::tables::Tables;
use units::bracket::{Bracket, Unit};
use units::class::Class;
use units::level::Level;
use units::text::code_point::code_point;
use units::text::items::next_item;
use units::text::number::number;

/// Reads one item of a list.
pub trait ReadsItem<T> {
    ghost reading: { Self → List ℕ → Option T };

    fn read(&self, item: &[u8]) -> Option<T>
        ensures { result ≡ reading self.now item.now };
}

/// Reads `x` or a level.
#[derive(Drop)]
pub struct LevelItems;

impl ReadsItem<Option<Level>> for LevelItems {
    ghost reading = { λ _. level_item };

    fn read(&self, item: &[u8]) -> Option<Option<Level>> {
        if item == b"x".as_slice() {
            return Some(None);
        }
        let level = number(item, 126)?;
        Some(Level::new(level as u8))
    }
}

/// Reads a position.
#[derive(Drop)]
pub struct OrderItems;

impl ReadsItem<usize> for OrderItems {
    ghost reading = { λ _. order_item };

    fn read(&self, item: &[u8]) -> Option<usize> {
        let position = number(item, 65_535)?;
        Some(position as usize)
    }
}

/// Reads the short name of a class.
#[derive(Drop)]
pub struct ClassItems;

impl ReadsItem<Unit> for ClassItems {
    ghost reading = { λ _. unit_item };

    fn read(&self, item: &[u8]) -> Option<Unit> {
        let class = Class::from_short(item)?;
        Some(Unit {
            class,
            bracket: Bracket::No,
        })
    }
}

/// Reads a code point that is not a surrogate, and returns the unit that the tables give it.
#[derive(Drop)]
pub struct CharacterItems<'t> {
    pub tables: &'t Tables,
}

/// Reads a code point that is not a surrogate.
pub fn character(item: &[u8]) -> Option<char>
    ensures { result ≡ char_of item.now }
{
    char::from_u32(code_point(item)?)
}

impl<'t> ReadsItem<Unit> for CharacterItems<'t> {
    ghost reading = { λ by. character_item (unit_by by.tables.now) };

    fn read(&self, item: &[u8]) -> Option<Unit> {
        Some(self.tables.unit(character(item)?))
    }
}

/// Replaces the list by the items of a field. If an item can't be read, returns `false`; the list then has the items
/// before it.
pub fn read_items<T: Copy, R: ReadsItem<T>>(reader: &R, mut field: &[u8], list: &mut Vec<T>) -> bool
    requires { length field.now ≤ 2 * vec_capacity list.old }
    ensures read { if_read result list.new.items ≡ each_read (R.reading reader.now) (items_of field.now) }
    ensures count { 2 * length list.new.items ≤ length field.entry.now + 1 }
    ensures room { vec_capacity list.new ≡ vec_capacity list.old }
{
    list.clear();
    while let Some((item, rest)) = next_item(field) {
        match reader.read(item) {
            None => return false,
            Some(value) => list.push_reserved(value),
        }
        field = rest;
    }
    true
}
