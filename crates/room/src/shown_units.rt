//! The characters of a line as they are shown, from left to right, with mirror images (L4), in the code units of the
//! text.
ghost use Rattle.std.specs.Prelude.{◌≡◌, ◌<◌, ◌≤◌, ◌+◌, ◌^◌, ◌++◌, length, take};
ghost use Rattle.std.specs.Char.{encode_utf8};
ghost use Rattle.std.specs.Char.Escape.{encode_utf16};
ghost use Rattle.room.specs.ShownUnits.{utf16_code_at, utf8_code_at};

use crate::room::Room;
use crate::shown::shown_char;
use decoding::{spelling, utf16};
use ucdfiles::tables::Tables;

/// Returns the character that begins at an offset of bytes, U+FFFD if none does.
fn utf8_char_at(bytes: &[u8], at: usize) -> char
    requires { at < length bytes.now }
    ensures { result ≡ utf8_code_at bytes.now at }
{
    match spelling::char_at(&bytes[at..], 0) {
        Some((c, _)) => c,
        None => char::REPLACEMENT_CHARACTER,
    }
}

/// Returns the character that begins at an offset of code units of 16 bits, U+FFFD if none does.
fn utf16_char_at(text: &[u16], at: usize) -> char
    requires { at < length text.now }
    ensures { result ≡ utf16_code_at text.now at }
{
    let (found, _) = utf16::char_at(text, at);
    found.unwrap_or(char::REPLACEMENT_CHARACTER)
}

/// Writes items to the places from `at` on, if all fit there.
fn put_all<T: Copy>(items: &[T], at: usize, out: &mut [T])
    ensures len { length out.new ≡ length out.old }
    ensures put { at + length items.now ≤ length out.old → take (at + length items.now) out.new
        ≡ take at out.old ++ items.now }
{
    if at <= out.len() && items.len() <= out.len() - at {
        out[at..at + items.len()].copy_from_slice(items);
    }
}

/// Writes a character in UTF-8 to the places from `at` on, if it fits there. Returns the place after it.
fn put_utf8(c: char, at: usize, out: &mut [u8]) -> usize
    requires { at < 2 ^ 63 }
    ensures len { length out.new ≡ length out.old }
    ensures after { result ≡ at + length (encode_utf8 c) }
    ensures few { result ≤ at + 4 }
    ensures put { result ≤ length out.old → take result out.new ≡ take at out.old ++ encode_utf8 c }
{
    let mut buffer = [0; 4];
    let bytes = c.encode_utf8(&mut buffer).as_bytes();
    put_all(bytes, at, out);
    at + bytes.len()
}

/// Writes a character in UTF-16 to the places from `at` on, if it fits there. Returns the place after it.
fn put_utf16(c: char, at: usize, out: &mut [u16]) -> usize
    requires { at < 2 ^ 63 }
    ensures len { length out.new ≡ length out.old }
    ensures after { result ≡ at + length (encode_utf16 c) }
    ensures few { result ≤ at + 2 }
    ensures put { result ≤ length out.old → take result out.new ≡ take at out.old ++ encode_utf16 c }
{
    let mut buffer = [0; 2];
    let units = c.encode_utf16(&mut buffer);
    put_all(units, at, out);
    at + units.len()
}

impl Room {
    ghost use Rattle.std.specs.Prelude.{◌≡◌, ◌<◌, length};
    ghost use Rattle.std.specs.Char.{encode_utf8};
    ghost use Rattle.std.specs.Char.Escape.{encode_utf16};
    ghost use Rattle.std.specs.List.{All, flat_map};
    ghost use Rattle.decoding.specs.declared.fault.Faults.{Faults as FaultsOf};
    ghost use Rattle.sources.specs.Sources.{Utf16, Utf8};
    ghost use Rattle.room.specs.Looking.{size_in};
    ghost use Rattle.room.specs.Rooms.{characters_in};
    ghost use Rattle.room.specs.ShownUnits.{ArePut, HoldsSource, ReadsCharacters, shown_units_of, shown_utf16, shown_utf8};
    ghost use Rattle.room.specs.ShownUnits.{utf16_code_at, utf8_code_at};
    ghost use Rattle.room.specs.Written.{WritesWhole};

    /// Writes the characters with these indices as they are shown, in UTF-8, to the front of `out`, if all fit there.
    /// Returns how many bytes there are.
    fn put_shown_utf8(
        &self,
        tables: &Tables,
        bytes: &[u8],
        order: &[usize],
        out: &mut [u8],
    ) -> usize
        requires inside { All (λ k. k < characters_in self.now) order.now }
        requires size { length bytes.now ≡ size_in self.now }
        ensures len { length out.new ≡ length out.old }
        ensures put { ArePut (flat_map
            (shown_units_of encode_utf8 (utf8_code_at bytes.now) tables.now self.now) order.now) result out.new }
    {
        self.offsets_rise();
        let layout = self.layout();
        let levels = layout.levels();
        let mut count = 0;
        for i in 0..order.len() {
            let k = order[i];
            let c = utf8_char_at(bytes, self.offset_of(k));
            count = put_utf8(shown_char(tables, levels[k], c), count, out);
        }
        count
    }

    /// Writes the characters with these indices as they are shown, in UTF-16, to the front of `out`, if all fit there.
    /// Returns how many code units there are.
    fn put_shown_utf16(
        &self,
        tables: &Tables,
        text: &[u16],
        order: &[usize],
        out: &mut [u16],
    ) -> usize
        requires inside { All (λ k. k < characters_in self.now) order.now }
        requires size { length text.now ≡ size_in self.now }
        ensures len { length out.new ≡ length out.old }
        ensures put { ArePut (flat_map
            (shown_units_of encode_utf16 (utf16_code_at text.now) tables.now self.now) order.now) result out.new }
    {
        self.offsets_rise();
        let layout = self.layout();
        let levels = layout.levels();
        let mut count = 0;
        for i in 0..order.len() {
            let k = order[i];
            let c = utf16_char_at(text, self.offset_of(k));
            count = put_utf16(shown_char(tables, levels[k], c), count, out);
        }
        count
    }

    /// Writes the characters of the line with the number `k`, counted from 0, as they are shown, from left to right
    /// (L2, L4), in UTF-8 to the front of `out`, if all fit there; else nothing is written. Returns how many bytes
    /// there are.
    ///
    /// `bytes` is the text of the room in UTF-8. A part of it that was read as U+FFFD is shown as U+FFFD. For another
    /// text with as many bytes, it writes the characters that begin at the room's offsets, and U+FFFD for each offset
    /// at which none begins.
    pub fn shown_utf8(&self, tables: &Tables, bytes: &[u8], k: usize, out: &mut [u8]) -> usize
        requires line { k < length self.now.layout.lines }
        requires size { length bytes.now ≡ size_in self.now }
        ensures written { WritesWhole (shown_utf8 tables.now self.now bytes.now k) result out.old out.new }
        ensures characters { (faults : FaultsOf) → HoldsSource (Utf8 bytes.now faults) self.now
            → ReadsCharacters (utf8_code_at bytes.now) (Utf8 bytes.now faults) self.now }
    {
        self.units_are_characters();
        let layout = self.layout();
        let order = layout.line(k).order;
        let count = self.put_shown_utf8(tables, bytes, order, &mut []);
        if count <= out.len() {
            self.put_shown_utf8(tables, bytes, order, &mut out[..count]);
        }
        count
    }

    /// Writes the characters of the line with the number `k`, counted from 0, as they are shown, from left to right
    /// (L2, L4), in UTF-16 to the front of `out`, if all fit there; else nothing is written. Returns how many code
    /// units there are.
    ///
    /// `text` is the text of the room in UTF-16. A lone surrogate is shown as U+FFFD. For another text with as many
    /// code units, it writes the characters that begin at the room's offsets.
    pub fn shown_utf16(&self, tables: &Tables, text: &[u16], k: usize, out: &mut [u16]) -> usize
        requires line { k < length self.now.layout.lines }
        requires size { length text.now ≡ size_in self.now }
        ensures written { WritesWhole (shown_utf16 tables.now self.now text.now k) result out.old out.new }
        ensures characters { (faults : FaultsOf) → HoldsSource (Utf16 text.now faults) self.now
            → ReadsCharacters (utf16_code_at text.now) (Utf16 text.now faults) self.now }
    {
        self.units_are_characters();
        let layout = self.layout();
        let order = layout.line(k).order;
        let count = self.put_shown_utf16(tables, text, order, &mut []);
        if count <= out.len() {
            self.put_shown_utf16(tables, text, order, &mut out[..count]);
        }
        count
    }
}
