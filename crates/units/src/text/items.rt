// Items of a list in a field.
ghost use Rattle.std.specs.Prelude.{◌≡◌, ◌+◌, ◌<◌, ◌≤◌, [], ◌∷◌, length, MatchOption, IfSome};
ghost use Rattle.memchr.specs.Find.{IsFirstByte};
ghost use Rattle.units.specs.Text.{is_blank as blank_of, items_of};

use crate::text::trim::{is_blank, trim_start};

// The index of the first blank. Items are short, so bytes are compared one by one.
fn first_blank(bytes: &[u8]) -> Option<usize>
    ensures { IsFirstByte blank_of bytes.now result }
{
    bytes.iter().position(|byte| is_blank(*byte))
}

/// Returns the first item, and the bytes after it and the blank that ends it.
pub fn next_item(field: &[u8]) -> Option<(&[u8], &[u8])>
    ensures items { MatchOption result (items_of field.now ≡ [])
        (λ cut. items_of field.now ≡ cut.0.now ∷ items_of cut.1.now) }
    ensures falls { IfSome result (λ cut. length cut.1.now < length field.now) }
    ensures two { IfSome result (λ cut. 0 < length cut.1.now → length cut.1.now + 2 ≤ length field.now) }
{
    let field = trim_start(field);
    if field.is_empty() {
        return None;
    }
    match first_blank(field) {
        None => Some((field, &[])),
        Some(at) => Some((&field[..at], &field[at + 1..])),
    }
}
