//! One sequence, as the resolving rules read it: its positions, its level, its sos and its eos.
ghost use Rattle.std.specs.Prelude.{◌≡◌, ℕ, ◌+◌, ◌<◌, ◌≤◌, List, Some, length, slice_index, slice_get, IfSome, Contains};
ghost use Rattle.std.specs.Iterator.{YieldsFirst, item_count};
ghost use Rattle.units.specs.Runs.{LeveledView, SequenceView, sequences_of, successor};
ghost use Rattle.explicit.specs.Leveled.{IsLeveled};
ghost use Rattle.sequences.specs.Links.{ArePositions, IsChain};

use std::marker::Model;
use units::class::Class;
use units::level::Level;
use units::optional_position::OptionalPosition;

/// The positions of a sequence that are still to come.
#[derive(Drop)]
pub struct Positions<'a> {
    rest: &'a [u32],
}

impl<'a> Model for Positions<'a> {
    ghost Value = { List ℕ };

    ghost view = { λ s. s.rest.now };
}

impl<'a> Iterator for Positions<'a> {
    type Item = usize;

    ghost next_gives = { YieldsFirst (λ s. s) };

    ghost remaining = { item_count (λ s. s) };

    fn next(&mut self) -> Option<usize> {
        let (first, rest) = self.rest.split_first()?;
        self.rest = rest;
        Some(*first as usize)
    }
}

/// One isolating run sequence of a paragraph (BD13). Positions are those of the paragraph.
#[derive(Drop)]
pub struct Sequence<'a> {
    pub(crate) positions: &'a [u32],
    pub(crate) links: &'a [OptionalPosition],
    pub(crate) level: Level,
    pub(crate) sos: Class,
    pub(crate) eos: Class,
}

impl<'a> Model for Sequence<'a> {
    ghost Value = { SequenceView };

    ghost view = { λ s. record {
      positions = s.positions.now;
      level = s.level;
      sos = s.sos;
      eos = s.eos;
      extent =
          length s.links.now;
    } };

    ghost invariant = { λ s. ArePositions s.positions.now (length s.links.now) × IsChain s.positions.now s.links.now ×
        (s.level ≤ 125) };
}

impl<'a> Sequence<'a> {
    /// Returns an iterator over the positions, in rising order.
    pub fn positions(&self) -> Positions<'a>
        ensures value { result ≡ self.now.positions }
        ensures rise { ArePositions self.now.positions self.now.extent }
    {
        Positions {
            rest: self.positions,
        }
    }

    /// Returns the positions in rising order as one slice.
    pub fn as_slice(&self) -> &'a [u32]
        ensures value { result.now ≡ self.now.positions }
        ensures rise { ArePositions self.now.positions self.now.extent }
    {
        self.positions
    }

    /// Returns the level of its positions, 0 to 125.
    pub fn level(&self) -> Level
        ensures value { result ≡ self.now.level }
        ensures within { result ≤ 125 }
    {
        self.level
    }

    /// Returns the sos, L or R: the class before its first position (X10).
    pub fn sos(&self) -> Class
        ensures { result ≡ self.now.sos }
    {
        self.sos
    }

    /// Returns the eos, L or R: the class after its last position (X10).
    pub fn eos(&self) -> Class
        ensures { result ≡ self.now.eos }
    {
        self.eos
    }

    /// Returns the position after `p` in the sequence, which is its successor (BD13), or none if `p` is the last one.
    pub fn after(&self, p: usize) -> Option<usize>
        requires { Contains self.now.positions p }
        ensures value { (k : ℕ) → k < length self.now.positions → slice_index self.now.positions k ≡ p
            → result ≡ slice_get self.now.positions (k + 1) }
        ensures successor { (t : LeveledView) (j : ℕ) → IsLeveled t → slice_get (sequences_of t) j ≡ Some self.now
            → result ≡ successor t p }
        ensures later { IfSome result (λ q. (p < q) × (q < self.now.extent)) }
    {
        let links = self.links;
        links[p].get()
    }
}
