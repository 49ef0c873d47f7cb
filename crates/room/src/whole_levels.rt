//! The levels of all characters, including those that X9 removes, for callers that give each character a level.
ghost use Rattle.std.specs.Prelude.{◌≡◌, ◌<◌, length};
ghost use Rattle.units.specs.Classes.{classes_of};
ghost use Rattle.room.specs.WholeLevels.{begins_paragraph};

use crate::room::Room;
use lines::resets::resets_spaces_before;
use units::bracket::Unit;
use units::level::Level;

/// Returns whether a paragraph begins at a position (P1).
fn begins_paragraph(units: &[Unit], p: usize) -> bool
    requires { p < length units.now }
    ensures { result ≡ begins_paragraph (classes_of units.now) p }
{
    p == 0 || units[p - 1].class.is_separator()
}

impl Room {
    ghost use Rattle.std.specs.Prelude.{ℕ, ◌≡◌, ◌<◌, None, if◌then◌else◌, length, slice_index, slice_index_or};
    ghost use Rattle.units.specs.Classes.{classes_of};
    ghost use Rattle.room.specs.Rooms.{characters_in};
    ghost use Rattle.room.specs.WholeLevels.{AreMarked, AreWholeLevels, WritesWholeLevels, removed_level, trails, whole_level};

    /// Writes 1 for each character if only white space follows from it on (L1), else 0.
    fn mark_trailing(&self, out: &mut [u8])
        requires { length out.old ≡ characters_in self.now }
        ensures len { length out.new ≡ length out.old }
        ensures marks { AreMarked (classes_of self.now.text.units) out.new }
    {
        let units = self.text_units();
        let mut trailing = true;
        for k in (0..out.len()).rev() {
            trailing = resets_spaces_before(units[k].class, trailing);
            out[k] = u8::from(trailing);
        }
    }

    /// Returns the level that a removed character is given (X9), if the character before it has the level `before`.
    fn removed_level(&self, k: usize, trailing: bool, before: u8) -> u8
        requires inside { k < characters_in self.now }
        requires trailing { trailing ≡ trails (classes_of self.now.text.units) k }
        ensures { result ≡ removed_level self.now before k }
    {
        if begins_paragraph(self.text_units(), k) || trailing {
            self.para_level_of(k).level().get()
        } else {
            before
        }
    }

    /// Returns the level of a character after L1, if it has one, else the level that it is given.
    fn whole_level(&self, k: usize, level: Option<Level>, trailing: bool, before: u8) -> u8
        requires inside { k < characters_in self.now }
        requires level { level ≡ slice_index_or self.now.layout.levels k None }
        requires trailing { trailing ≡ trails (classes_of self.now.text.units) k }
        ensures { result ≡ whole_level self.now before k }
    {
        match level {
            Some(level) => level.get(),
            None => self.removed_level(k, trailing, before),
        }
    }

    /// Writes the levels of all characters to `out`, which has as many items.
    fn fill_whole_levels(&self, out: &mut [u8])
        requires { length out.old ≡ characters_in self.now }
        ensures len { length out.new ≡ length out.old }
        ensures levels { AreWholeLevels self.now out.new }
    {
        self.units_are_characters();
        self.mark_trailing(out);
        let layout = self.layout();
        let levels = layout.levels();
        let mut before = 0;
        for k in 0..out.len() {
            before = self.whole_level(k, levels[k], out[k] == 1, before);
            out[k] = before;
        }
    }

    /// Writes the level of each character after L1, 0 to 126, to the front of `out`, if all fit there; else nothing is
    /// written. Returns how many characters there are.
    ///
    /// A character that X9 removes is given the level of the character before it, but the level of its paragraph in two
    /// cases: it begins the paragraph, or between it and the next separator or the text's end there are only white
    /// space, isolate formatting characters and others that X9 removes.
    pub fn whole_levels(&self, out: &mut [u8]) -> usize
        ensures { WritesWholeLevels self.now result out.old out.new }
    {
        let count = self.characters();
        if count <= out.len() {
            self.fill_whole_levels(&mut out[..count]);
        }
        count
    }
}
