//! The level of each unit of the text's source.
use crate::places::put;
use crate::room::Room;
use units::level::Level;

impl Room {
    ghost use Rattle.std.specs.Prelude.{◌≡◌, length};
    ghost use Rattle.room.specs.Levels.{AreLevelsOf, WritesLevels};
    ghost use Rattle.room.specs.Looking.{size_in};

    /// Writes the level of each unit to `out`, which has as many items.
    fn fill_levels(&self, out: &mut [Option<Level>])
        requires { length out.old ≡ size_in self.now }
        ensures len { length out.new ≡ length out.old }
        ensures levels { AreLevelsOf self.now out.new }
    {
        self.offsets_rise();
        let layout = self.layout();
        let levels = layout.levels();
        if self.is_plain() {
            out.copy_from_slice(levels);
            return;
        }
        let mut from = 0;
        for k in 0..levels.len() {
            let to = self.offset_of(k + 1);
            put(levels[k], from, to, out);
            from = to;
        }
    }

    /// Writes the level of each unit of the source, which is that of its character after L1, to the front of `out`, if
    /// all fit there. Returns how many units there are.
    pub fn levels(&self, out: &mut [Option<Level>]) -> usize
        ensures { WritesLevels self.now result out.old out.new }
    {
        let text_len = self.text_len();
        if text_len <= out.len() {
            self.fill_levels(&mut out[..text_len]);
        }
        text_len
    }
}
