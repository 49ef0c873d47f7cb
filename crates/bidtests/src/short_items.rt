// Reading of lists whose items are short, as those of rows are.
ghost use Rattle.std.specs.Prelude.{◌≡◌, ◌+◌, ◌*◌, ◌<◌, ◌≤◌, [], ◌⊎◌, true, get_or, length, vec_capacity, IfSome};
ghost use Rattle.units.specs.Text.{items_of, each_read};
ghost use Rattle.bidtests.specs.Readings.{if_read};
ghost use Rattle.bidtests.specs.ShortItems.{IsFirstItem, read_after};

use crate::item::{CharacterItems, LevelItems, OrderItems, ReadsItem};
use units::bracket::Unit;
use units::level::Level;
use units::text::items::next_item;

/// Reads items of a list, and short ones with fewer instructions.
pub trait ReadsShortItem<T>: ReadsItem<T> {
    /// Returns the value and the length of the item that the bytes begin with, if it has the usual length and a space
    /// or the end of the bytes is after it. `None` says nothing of the bytes.
    fn read_short(&self, bytes: &[u8]) -> Option<(T, usize)>
        ensures { IfSome result (λ item. IsFirstItem (Self.reading self.now) bytes.now item.0 item.1) };
}

/// Returns whether an item may end before this index: at the end of the bytes, or before a space.
fn ends_item(bytes: &[u8], at: usize) -> bool
    ensures inside { result ≡ true → at ≤ length bytes.now }
    ensures end { result ≡ true → (at ≡ length bytes.now) ⊎ (get_or bytes.now at 0 ≡ 32) }
{
    if bytes.len() > at {
        bytes[at] == b' '
    } else {
        bytes.len() == at
    }
}

impl ReadsShortItem<Option<Level>> for LevelItems {
    fn read_short(&self, bytes: &[u8]) -> Option<(Option<Level>, usize)> {
        if !ends_item(bytes, 1) {
            return None;
        }
        match bytes[0] {
            b'x' => Some((None, 1)),
            digit @ b'0'..=b'9' => Some((Level::new(digit - b'0'), 1)),
            _ => None,
        }
    }
}

impl ReadsShortItem<usize> for OrderItems {
    fn read_short(&self, bytes: &[u8]) -> Option<(usize, usize)> {
        if !ends_item(bytes, 1) {
            return None;
        }
        match bytes[0] {
            digit @ b'0'..=b'9' => Some((usize::from(digit - b'0'), 1)),
            _ => None,
        }
    }
}

impl<'t> ReadsShortItem<Unit> for CharacterItems<'t> {
    fn read_short(&self, bytes: &[u8]) -> Option<(Unit, usize)> {
        if !ends_item(bytes, 4) {
            return None;
        }
        let unit = self.read(&bytes[..4])?;
        Some((unit, 4))
    }
}

/// Appends the values of the short items that the field begins with, and returns the bytes after them.
fn read_short_items<'f, T: Copy, R: ReadsShortItem<T>>(
    reader: &R,
    mut field: &'f [u8],
    list: &mut Vec<T>,
) -> &'f [u8]
    requires empty { list.old.items ≡ [] }
    requires fits { length field.now ≤ 2 * vec_capacity list.old }
    ensures read { read_after list.new.items (each_read (R.reading reader.now) (items_of result.now))
        ≡ each_read (R.reading reader.now) (items_of field.entry.now) }
    ensures count { 2 * length list.new.items ≤ length field.entry.now + 1 }
    ensures more { 0 < length result.now → 2 * length list.new.items + length result.now ≤ length field.entry.now }
    ensures room { vec_capacity list.new ≡ vec_capacity list.old }
{
    while let Some(item) = reader.read_short(field) {
        list.push_reserved(item.0);
        if item.1 == field.len() {
            return &[];
        }
        field = &field[item.1 + 1..];
    }
    field
}

/// Does what `read_items` does, with fewer instructions if the items are short.
pub fn read_list<T: Copy, R: ReadsShortItem<T>>(reader: &R, field: &[u8], list: &mut Vec<T>) -> bool
    requires { length field.now ≤ 2 * vec_capacity list.old }
    ensures read { if_read result list.new.items ≡ each_read (R.reading reader.now) (items_of field.now) }
    ensures count { 2 * length list.new.items ≤ length field.now + 1 }
    ensures room { vec_capacity list.new ≡ vec_capacity list.old }
{
    list.clear();
    let mut remaining = read_short_items(reader, field, list);
    while let Some((item, rest)) = next_item(remaining) {
        match reader.read(item) {
            None => return false,
            Some(value) => list.push_reserved(value),
        }
        remaining = rest;
    }
    true
}
