//! The characters of a line as they are shown, from left to right, with mirror images (L4).
ghost use Rattle.std.specs.Prelude.{◌≡◌};
ghost use Rattle.units.specs.Reordering.{is_odd_level};
ghost use Rattle.room.specs.Showing.{IsShown, shown_char};

use crate::room::Room;
use ucdfiles::tables::Tables;
use units::level::Level;

/// Returns whether a level is odd. A character that X9 removed has none.
fn is_odd(level: Option<Level>) -> bool
    ensures { result ≡ is_odd_level level }
{
    match level {
        Some(level) => level.get() % 2 == 1,
        None => false,
    }
}

/// Returns a character with this level as it is shown.
pub(crate) fn shown_char(tables: &Tables, level: Option<Level>, c: char) -> char
    ensures { result ≡ shown_char tables.now level c }
{
    if is_odd(level) {
        tables.mirrors().glyph(c).unwrap_or(c)
    } else {
        c
    }
}

/// Returns a code point with this level as it is shown. A number that isn't a scalar value is unchanged.
fn shown_code(tables: &Tables, level: Option<Level>, code: u32) -> u32
    ensures { IsShown tables.now level code result }
{
    match char::from_u32(code) {
        Some(c) => u32::from(shown_char(tables, level, c)),
        None => code,
    }
}

impl Room {
    ghost use Rattle.std.specs.Prelude.{◌≡◌, ◌<◌, length};
    ghost use Rattle.std.specs.List.{All};
    ghost use Rattle.room.specs.Rooms.{characters_in};
    ghost use Rattle.room.specs.Showing.{AreShown, WritesShown};

    /// Writes the code points of a line as they are shown, in this order, to the front of `out`.
    fn fill_shown(&self, tables: &Tables, codes: &[u32], order: &[usize], out: &mut [u32])
        requires inside { All (λ p. p < characters_in self.now) order.now }
        requires codes { length codes.now ≡ characters_in self.now }
        requires items { length out.old ≡ length order.now }
        ensures len { length out.new ≡ length out.old }
        ensures shown { AreShown tables.now self.now codes.now order.now out.new }
    {
        let layout = self.layout();
        let levels = layout.levels();
        for i in 0..order.len() {
            let position = order[i];
            out[i] = shown_code(tables, levels[position], codes[position]);
        }
    }

    /// Writes the characters of the line with the number `k`, counted from 0, as they are shown, from left to right
    /// (L2, L4), to the front of `out`, if all fit there; else nothing is written. Returns how many there are.
    ///
    /// `codes` are the code points of the whole text of the room. A number that isn't a scalar value is shown
    /// unchanged.
    pub fn shown(&self, tables: &Tables, codes: &[u32], k: usize, out: &mut [u32]) -> usize
        requires line { k < length self.now.layout.lines }
        requires codes { length codes.now ≡ characters_in self.now }
        ensures { WritesShown tables.now self.now codes.now k result out.old out.new }
    {
        let layout = self.layout();
        let order = layout.line(k).order;
        let count = order.len();
        if count <= out.len() {
            self.fill_shown(tables, codes, order, &mut out[..count]);
        }
        count
    }
}
