//! The sequences of a paragraph, in memory that is allocated once.
ghost use Rattle.std.specs.Prelude.{◌≡◌, ◌+◌, ◌*◌, ◌<◌, ◌≤◌, ℕ, [], Some, map, take, length, slice_get, IfOk, sum_by, true};
ghost use Rattle.std.specs.Box.{boxed_slice_items, boxed_slice_len};
ghost use Rattle.units.specs.Classes.{classes_of, is_removed};
ghost use Rattle.units.specs.Isolates.{level_of_para};
ghost use Rattle.units.specs.Paragraphs.{SeparatorOnlyLast};
ghost use Rattle.units.specs.Runs.{leveled_of, size_of, sequences_of};
ghost use Rattle.explicit.specs.ExplicitLevels.{HoldsLevels};
ghost use Rattle.explicit.specs.IsolateMaps.{IsFilledFrom};
ghost use Rattle.sequences.specs.FilledFrom.{AreExplicitLevels};
ghost use Rattle.sequences.specs.View.{SequencesView};
ghost use Rattle.explicit.specs.Flat.{IsFlat, remaining_of};
ghost use Rattle.explicit.specs.IdleRules.{HasNone};
ghost use Rattle.sequences.specs.Heads.{sequence_of_head};
ghost use Rattle.sequences.specs.Once.{HoldsOnce};
ghost use Rattle.sequences.specs.Room.{HasRoomForSequences};

use crate::heads::{Head, LinkedPositions, fill_heads};
use crate::leveled::Leveled;
use crate::linking::link;
use crate::one_sequence::{FlatParagraph, fill_one_sequence};
use crate::sequence::Sequence;
use explicit::isolates::IsolateMap;
use explicit::levels::Explicit;
use std::alloc::Global;
use std::boxed::BoxedSlice;
use std::marker::Model;
use std::sync::ledger::Ledger;
use units::bracket::Unit;
use units::class::Class;
use units::level::ParaLevel;
use units::memory::Memory;
use units::optional_position::OptionalPosition;
use units::steps::Steps;

/// The isolating run sequences of a paragraph (BD13), in the order of their first positions. The memory is allocated
/// once. For each position it takes four bytes for links, four for the column of positions, twelve for heads, and two
/// for ends and marks. The first `count` heads are in use, and in the columns by position the first `size` items.
#[derive(Drop)]
pub struct Sequences {
    links: BoxedSlice<OptionalPosition>,
    ends: BoxedSlice<Class>,
    joined: BoxedSlice<bool>,
    heads: BoxedSlice<Head>,
    column: BoxedSlice<u32>,
    count: usize,
    size: usize,
}

impl Model for Sequences {
    ghost Value = { SequencesView };

    ghost view = { λ s. record {
      all =
          map (sequence_of_head (boxed_slice_items s.column) s.size) (take s.count (boxed_slice_items s.heads));
      extent =
          s.size;
      room = boxed_slice_len s.links;
    } };

    ghost invariant = { λ s. HasRoomForSequences (boxed_slice_items s.links) (boxed_slice_items s.ends)
        (boxed_slice_items s.joined) (boxed_slice_items s.heads) (boxed_slice_items s.column) s.count s.size };
}

fn column<T: Copy>(alloc: Global, value: T, n: usize) -> Result<BoxedSlice<T>, Memory>
    ensures { IfOk result (λ column. boxed_slice_len column ≡ n) }
{
    Ok(vec![in alloc; value; n]?.into_boxed_slice())
}

/// The columns that linking writes.
#[derive(Drop)]
struct LinkColumns {
    links: BoxedSlice<OptionalPosition>,
    ends: BoxedSlice<Class>,
    joined: BoxedSlice<bool>,
}

/// Allocates the columns of links for `n` positions.
fn link_columns(alloc: Global, n: usize) -> Result<LinkColumns, Memory>
    ensures links { IfOk result (λ columns. boxed_slice_len columns.links ≡ n) }
    ensures ends { IfOk result (λ columns. boxed_slice_len columns.ends ≡ n) }
    ensures joined { IfOk result (λ columns. boxed_slice_len columns.joined ≡ n) }
{
    Ok(LinkColumns {
        links: column(alloc, OptionalPosition::none(), n)?,
        ends: column(alloc, Class::L, n)?,
        joined: column(alloc, false, n)?,
    })
}

impl Sequences {
    /// Allocates memory for a paragraph of `n` positions, without sequences. Fails with `Memory` if there isn't enough
    /// memory, or if `n` is 2^32 - 1 or more, which links of 32 bits can't count.
    pub fn with_room(alloc: Global, n: usize) -> Result<Sequences, Memory>
        ensures { IfOk result (λ s. s ≡ record { all = []; extent = 0; room = n }) }
    {
        if n >= u32::MAX as usize {
            return Err(Memory);
        }
        let unused = Head {
            start: 0,
            end: 0,
            level: ParaLevel::Zero.level(),
            sos: Class::L,
            eos: Class::L,
        };
        let heads = column(alloc, unused, n)?;
        let column = column(alloc, 0, n)?;
        let LinkColumns {
            links,
            ends,
            joined,
        } = link_columns(alloc, n)?;
        Ok(Sequences {
            links,
            ends,
            joined,
            heads,
            column,
            count: 0,
            size: 0,
        })
    }

    /// Finds the sequences of a paragraph within the capacity.
    fn fill_from<L: Ledger>(&mut self, t: &Leveled, steps: &mut Steps<L>)
        requires { size_of t.now ≤ self.old.room }
        ensures all { self.new.all ≡ sequences_of t.now }
        ensures extent { self.new.extent ≡ size_of t.now }
        ensures room { self.new.room ≡ self.old.room }
        ensures once { HoldsOnce t.now self.new.all }
        ensures fit { sum_by (λ s. length s.positions) self.new.all ≤ size_of t.now }
        ensures steps { steps.new ≡ steps.old + 2 * size_of t.now + sum_by (λ s. length s.positions) self.new.all }
    {
        let size = t.len();
        link(t, &mut self.links, &mut self.ends, &mut self.joined, steps);
        let positions = LinkedPositions {
            links: &self.links[..size],
            ends: &self.ends,
            joined: &self.joined,
        };
        self.count = fill_heads(t, &positions, &mut self.heads, &mut self.column, steps);
        self.size = size;
    }

    /// Finds the sequences of a paragraph of this level, from its isolates (BD9) and its explicit levels (X1 to X9),
    /// which can be up to any depth. The paragraph must fit into the capacity. The sequences of an earlier paragraph
    /// are overwritten.
    // Never inlined, so that its loops have all registers.
    #[inline(never)]
    pub fn fill<L: Ledger>(
        &mut self,
        para: &[Unit],
        isolates: &IsolateMap,
        explicit: &Explicit,
        level: ParaLevel,
        steps: &mut Steps<L>,
    )
        requires room { length para.now ≤ self.old.room }
        requires separators { SeparatorOnlyLast para.now }
        requires isolates { IsFilledFrom isolates.now (classes_of para.now) }
        requires levels { AreExplicitLevels explicit.now (classes_of para.now) (level_of_para level) }
        ensures all { (depth : ℕ) → HoldsLevels explicit.now depth (classes_of para.now) (level_of_para level)
            → self.new.all ≡ sequences_of (leveled_of depth (classes_of para.now) (level_of_para level)) }
        ensures extent { self.new.extent ≡ length para.now }
        ensures room { self.new.room ≡ self.old.room }
        ensures once { (depth : ℕ) → HoldsLevels explicit.now depth (classes_of para.now) (level_of_para level)
            → HoldsOnce (leveled_of depth (classes_of para.now) (level_of_para level)) self.new.all }
        ensures fit { sum_by (λ s. length s.positions) self.new.all ≤ length para.now }
        ensures steps { steps.new ≡ steps.old + 2 * length para.now + sum_by (λ s. length s.positions) self.new.all }
    {
        let leveled = Leveled::new(para, isolates, explicit, level);
        self.fill_from(&leveled, steps);
    }

    /// Finds the one sequence of a paragraph of this level in which nothing begins an embedding or an isolate: all
    /// positions that remain (X9), which are all positions if `all_remain`. The paragraph must fit into the capacity.
    /// The sequences of an earlier paragraph are overwritten.
    pub fn fill_flat<L: Ledger>(
        &mut self,
        para: &[Unit],
        all_remain: bool,
        level: ParaLevel,
        steps: &mut Steps<L>,
    )
        requires room { length para.now ≤ self.old.room }
        requires flat { IsFlat (classes_of para.now) }
        requires all_remain { all_remain ≡ true → HasNone is_removed (classes_of para.now) }
        ensures all { (depth : ℕ)
            → self.new.all ≡ sequences_of (leveled_of depth (classes_of para.now) (level_of_para level)) }
        ensures extent { self.new.extent ≡ length para.now }
        ensures room { self.new.room ≡ self.old.room }
        ensures steps { steps.new ≡ steps.old + length para.now + length (remaining_of (classes_of para.now)) }
    {
        let flat = FlatParagraph {
            units: para,
            all_remain,
            level,
        };
        self.count = fill_one_sequence(
            &flat,
            &mut self.links,
            &mut self.heads,
            &mut self.column,
            steps,
        );
        self.size = para.len();
    }

    /// Returns the number of sequences.
    pub fn count(&self) -> usize
        ensures { result ≡ length self.now.all }
    {
        self.count
    }

    /// Returns the sequence with this number, counted from 0 in the order of first positions.
    pub fn get(&self, k: usize) -> Sequence<'_>
        requires { k < length self.now.all }
        ensures value { slice_get self.now.all k ≡ Some result }
        ensures extent { result.extent ≡ self.now.extent }
    {
        let head = self.heads[k];
        Sequence {
            positions: &self.column[head.start as usize..head.end as usize],
            links: &self.links[..self.size],
            level: head.level,
            sos: head.sos,
            eos: head.eos,
        }
    }
}
