//! The characters that a line shows, mirrored if their level is odd (L4).
ghost use Rattle.std.specs.Prelude.{◌≡◌, ◌<◌, length};
ghost use Rattle.std.specs.List.{All};
ghost use Rattle.units.specs.Reordering.{is_odd_level, shown_at, shown_of};

use ucdfiles::mirror_table::MirrorTable;
use units::level::Level;

/// The characters of a line from left to right, mirrored if their level is odd.
#[derive(Drop)]
pub struct Shown<'a> {
    mirrors: &'a MirrorTable,
    levels: &'a [Option<Level>],
    chars: &'a [char],
    order: &'a [usize],
    ghost leveled: { All (λ p. p < length levels.now) order.now },
    ghost written: { length chars.now ≡ length levels.now },
}

/// Returns false for a removed position, which has no level.
fn is_odd(level: Option<Level>) -> bool
    ensures { result ≡ is_odd_level level }
{
    match level {
        Some(level) => level.get() % 2 == 1,
        None => false,
    }
}

impl<'a> Shown<'a> {
    ghost use Rattle.ucdfiles.specs.Tables.{mirror_by};
    ghost use Rattle.lines.specs.Showing.{remaining_shown};

    /// Returns the characters of a text in this order of its positions, at these levels.
    pub(crate) fn new(
        mirrors: &'a MirrorTable,
        levels: &'a [Option<Level>],
        chars: &'a [char],
        order: &'a [usize],
    ) -> Shown<'a>
        requires leveled { All (λ p. p < length levels.now) order.now }
        requires written { length chars.now ≡ length levels.now }
        ensures { remaining_shown result ≡ shown_of (mirror_by mirrors.now) levels.now chars.now order.now }
    {
        Shown {
            mirrors,
            levels,
            chars,
            order,
        }
    }

    /// Returns the character that is shown for a position.
    fn char_at(&self, position: usize) -> char
        requires { position < length self.now.levels.now }
        ensures { result ≡ shown_at (mirror_by self.now.mirrors.now) self.now.levels.now self.now.chars.now position }
    {
        let c = self.chars[position];
        if is_odd(self.levels[position]) {
            self.mirrors.glyph(c).unwrap_or(c)
        } else {
            c
        }
    }
}

impl<'a> Iterator for Shown<'a> {
    ghost use Rattle.std.specs.Iterator.{YieldsFirst, item_count};
    ghost use Rattle.lines.specs.Showing.{remaining_shown};

    type Item = char;

    ghost next_gives = { YieldsFirst remaining_shown };

    ghost remaining = { item_count remaining_shown };

    fn next(&mut self) -> Option<char> {
        let (first, others) = self.order.split_first()?;
        let c = self.char_at(*first);
        self.order = others;
        Some(c)
    }
}
