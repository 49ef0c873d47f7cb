//! A line as it is shown (L4), if the given text is as long as that of the room.
ghost use Rattle.std.specs.Prelude.{◌≡◌};
ghost use Rattle.room.specs.ShownUnits.{shown_utf16, shown_utf8};
ghost use Rattle.for_c.specs.Shown.{WritesShownIf, WritesUnitsIf};

use room::room::Room;
use ucdfiles::tables::Tables;

/// Writes the characters of the line with the number `k` as they are shown, from left to right, to the front of `out`,
/// if all fit there. `codes` are the code points of the whole text. Returns how many there are, 0 if there is no such
/// line, or if the room's text has another length.
pub fn write_shown(room: &Room, tables: &Tables, codes: &[u32], k: usize, out: &mut [u32]) -> usize
    ensures { WritesShownIf tables.now room.now codes.now k result out.old out.new }
{
    if codes.len() != room.characters() {
        return 0;
    }
    if room.line_count() <= k {
        return 0;
    }
    room.shown(tables, codes, k, out)
}

/// Writes the characters of the line with the number `k` as they are shown, from left to right, in UTF-8 to the front
/// of `out`, if all fit there. `text` is the whole text in UTF-8. Returns how many bytes there are, 0 if there is no
/// such line, or if the room's text has another length.
pub fn write_shown_utf8(
    room: &Room,
    tables: &Tables,
    text: &[u8],
    k: usize,
    out: &mut [u8],
) -> usize
    ensures { WritesUnitsIf shown_utf8 tables.now room.now text.now k result out.old out.new }
{
    if text.len() != room.text_len() {
        return 0;
    }
    if room.line_count() <= k {
        return 0;
    }
    room.shown_utf8(tables, text, k, out)
}

/// Writes the characters of the line with the number `k` as they are shown, from left to right, in UTF-16 to the front
/// of `out`, if all fit there. `text` is the whole text in UTF-16. Returns how many code units there are, 0 if there is
/// no such line, or if the room's text has another length.
pub fn write_shown_utf16(
    room: &Room,
    tables: &Tables,
    text: &[u16],
    k: usize,
    out: &mut [u16],
) -> usize
    ensures { WritesUnitsIf shown_utf16 tables.now room.now text.now k result out.old out.new }
{
    if text.len() != room.text_len() {
        return 0;
    }
    if room.line_count() <= k {
        return 0;
    }
    room.shown_utf16(tables, text, k, out)
}
