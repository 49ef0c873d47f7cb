//! What a layout says about a text, in the units of its source.
use crate::room::Room;
use units::level::{Level, ParaLevel};

/// A line of a text, in the units of its source.
#[derive(Clone, Copy, Debug, PartialEq, Eq)]
pub struct Line {
    /// The offset at which the line begins.
    pub start: usize,
    /// The offset after its last unit.
    pub end: usize,
    /// How many of its characters are shown.
    pub shown: usize,
}

impl Room {
    ghost use Rattle.std.specs.Prelude.{◌≡◌, ◌<◌, ◌≤◌, MatchOption, length, map};
    ghost use Rattle.std.specs.List.{All};
    ghost use Rattle.room.specs.Looking.{HasParaLevelIn, IsLevelAt, bounds_of, line_in, lines_in, size_in};
    ghost use Rattle.room.specs.Rooms.{characters_in, offset_in};
    ghost use Rattle.room.specs.Written.{WritesWhole};

    /// Returns how many units the text has.
    pub fn text_len(&self) -> usize
        ensures { result ≡ size_in self.now }
    {
        self.offset_of(self.characters())
    }

    /// Returns where the line with the number `k`, counted from 0, begins and ends.
    pub fn line(&self, k: usize) -> Line
        requires { k < length self.now.layout.lines }
        ensures { result ≡ bounds_of (line_in self.now k) }
    {
        let layout = self.layout();
        let line = layout.line(k);
        Line {
            start: self.offset_of(line.start),
            end: self.offset_of(line.end),
            shown: line.order.len(),
        }
    }

    /// Writes all lines to `out`, which has as many items.
    fn fill_lines(&self, out: &mut [Line])
        requires { length out.old ≡ length self.now.layout.lines }
        ensures { out.new ≡ lines_in self.now }
    {
        for k in 0..out.len() {
            out[k] = self.line(k);
        }
    }

    /// Writes the lines of the text to the front of `out`, if all fit there. Returns how many there are.
    pub fn lines(&self, out: &mut [Line]) -> usize
        ensures { WritesWhole (lines_in self.now) result out.old out.new }
    {
        let count = self.line_count();
        if count <= out.len() {
            self.fill_lines(&mut out[..count]);
        }
        count
    }

    /// Returns the level after L1 of the character of a unit of the source. Returns `None` if the character was removed
    /// (X9), and from the text's end on.
    pub fn level_at(&self, at: usize) -> Option<Level>
        ensures { IsLevelAt self.now at result }
    {
        let k = self.index_of(at)?;
        let layout = self.layout();
        layout.levels()[k]
    }

    /// Returns the level of the paragraph (P2, P3) of a unit of the source. Searches the ends of the paragraphs for it.
    /// Returns `None` from the text's end on.
    pub fn para_level_at(&self, at: usize) -> Option<ParaLevel>
        ensures { MatchOption result (size_in self.now ≤ at) (HasParaLevelIn self.now at) }
    {
        match self.index_of(at) {
            Some(k) => Some(self.para_level_of(k)),
            None => None,
        }
    }

    /// Writes where these characters begin to `out`, which has as many items.
    fn write_offsets(&self, order: &[usize], out: &mut [usize])
        requires inside { All (λ k. k < characters_in self.now) order.now }
        requires len { length out.old ≡ length order.now }
        ensures { out.new ≡ map (offset_in self.now) order.now }
    {
        if self.is_plain() {
            out.copy_from_slice(order);
            return;
        }
        for i in 0..out.len() {
            out[i] = self.offset_of(order[i]);
        }
    }

    /// Writes where the shown characters of the line with the number `k` begin, from left to right (L2), to the front
    /// of `out`, if all fit there. Returns how many there are.
    pub fn order(&self, k: usize, out: &mut [usize]) -> usize
        requires { k < length self.now.layout.lines }
        ensures { WritesWhole (line_in self.now k).order result out.old out.new }
    {
        let layout = self.layout();
        let order = layout.line(k).order;
        let count = order.len();
        if count <= out.len() {
            self.write_offsets(order, &mut out[..count]);
        }
        count
    }
}
