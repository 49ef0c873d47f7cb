//! The place of each unit of the text's source in a line, from left to right: the inverse of the line's order.
ghost use Rattle.std.specs.Prelude.{ℕ, ◌≡◌, ◌≤◌, ◌<◌, ◌⊎◌, length, slice_index_or};

use crate::room::Room;

/// The place of a unit that is not shown.
pub const NOWHERE: usize = usize::MAX;

/// Does what `put` does, by a loop, which becomes a call that fills memory.
#[inline(always)]
fn put_each<T: Copy>(value: T, start: usize, end: usize, out: &mut [T])
    ensures len { length out.new ≡ length out.old }
    ensures put { (i : ℕ) (d : T) → start ≤ i → i < end → i < length out.old → slice_index_or out.new i d ≡ value }
    ensures others { (i : ℕ) (d : T) → (i < start) ⊎ (end ≤ i)
        → slice_index_or out.new i d ≡ slice_index_or out.old i d }
{
    for i in start..end.min(out.len()) {
        out[i] = value;
    }
}

/// Does what `put` does, the first item by itself.
#[inline(always)]
fn put_first<T: Copy>(value: T, start: usize, end: usize, out: &mut [T])
    ensures len { length out.new ≡ length out.old }
    ensures put { (i : ℕ) (d : T) → start ≤ i → i < end → i < length out.old → slice_index_or out.new i d ≡ value }
    ensures others { (i : ℕ) (d : T) → (i < start) ⊎ (end ≤ i)
        → slice_index_or out.new i d ≡ slice_index_or out.old i d }
{
    if start < end && start < out.len() {
        out[start] = value;
        put_each(value, start + 1, end, out);
    }
}

/// Writes a value to the items from `start` up to `end`, as far as there are any. Two items, as many as most characters
/// have units, take no call.
pub fn put<T: Copy>(value: T, start: usize, end: usize, out: &mut [T])
    ensures len { length out.new ≡ length out.old }
    ensures put { (i : ℕ) (d : T) → start ≤ i → i < end → i < length out.old → slice_index_or out.new i d ≡ value }
    ensures others { (i : ℕ) (d : T) → (i < start) ⊎ (end ≤ i)
        → slice_index_or out.new i d ≡ slice_index_or out.old i d }
{
    if start < end && start < out.len() {
        out[start] = value;
        put_first(value, start + 1, end, out);
    }
}

impl Room {
    ghost use Rattle.std.specs.Prelude.{ℕ, ◌≡◌, ◌<◌, length, slice_index};
    ghost use Rattle.std.specs.List.{All};
    ghost use Rattle.lines.specs.Layouts.{line_at};
    ghost use Rattle.room.specs.Looking.{IsAt};
    ghost use Rattle.room.specs.Places.{ArePlacesOf, WritesPlaces};
    ghost use Rattle.room.specs.Rooms.{characters_in};

    /// Writes the place in a line's order of each unit from the offset `start` on, as many as `out` has items.
    #[tactic(auto, using(crate::proofs::Placing::one_more))]
    fn fill_places(&self, order: &[usize], start: usize, out: &mut [usize])
        requires { All (λ k. k < characters_in self.now) order.now }
        ensures len { length out.new ≡ length out.old }
        ensures places { ArePlacesOf (IsAt self.now) order.now start (length out.new) out.new }
    {
        let _count = self.characters();
        out.fill(NOWHERE);
        for place in 0..order.len() {
            let k = order[place];
            let from = self.offset_of(k).saturating_sub(start);
            let to = self.offset_of(k + 1).saturating_sub(start);
            put(place, from, to, out);
        }
    }

    /// Writes the place of each unit of the line with the number `k`, counted from 0, to the front of `out`, if all fit
    /// there; else nothing is written. Returns how many units the line has.
    ///
    /// A place counts the characters that are shown to its left, so it is an index of the line's order (L2). All units
    /// of a character have its place: what is on a screen is characters, each in cells of its own, and the cell of a
    /// unit follows from the widths of the characters to the left. A unit whose character X9 removed has `NOWHERE`.
    pub fn places(&self, k: usize, out: &mut [usize]) -> usize
        requires { k < length self.now.layout.lines }
        ensures { WritesPlaces self.now (line_at self.now.layout k) result out.old out.new }
    {
        self.offsets_rise();
        let layout = self.layout();
        let line = layout.line(k);
        let start = self.offset_of(line.start);
        let count = self.offset_of(line.end) - start;
        if count <= out.len() {
            self.fill_places(line.order, start, &mut out[..count]);
        }
        count
    }
}
