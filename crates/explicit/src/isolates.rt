//! The isolates of a paragraph (BD9), and the side of each isolate's first strong class (P2, P3).
ghost use Rattle.std.specs.Prelude.{◌≡◌, ◌+◌, ◌-◌, ◌<◌, ◌≤◌, ℕ, true, false, length, List, Option, None, IfOk, slice_index_or};
ghost use Rattle.units.specs.Classes.{class_at, classes_of, is_isolate_initiator, is_isolate_formatting};
ghost use Rattle.units.specs.Isolates.{partner_of, first_strong};
ghost use Rattle.units.specs.declared.class.Class.{Class};
ghost use Rattle.explicit.specs.IsolateMaps.{room, HasPartners, IsFilledFrom, IsSideInside};
ghost use Rattle.explicit.specs.Sides.{HasSides, side_at, noted, noted_at};
ghost use Rattle.explicit.specs.Stops.{HasNoFormatting, IsNextStop, is_passed, without_partners};

use crate::side::Side;
use std::alloc::Global;
use std::boxed::BoxedSlice;
use std::marker::Model;
use std::sync::ledger::Ledger;
use units::bracket::Unit;
use units::class::Class;
use units::memory::Memory;
use units::optional_position::OptionalPosition;
use units::steps::Steps;

/// The isolates of a paragraph: the partner of each isolate initiator and of each PDI, and whether the first strong
/// class directly inside each isolate, and outside of all isolates, is R or AL. The memory is allocated once and filled
/// in place.
#[derive(Drop)]
pub struct IsolateMap {
    partners: BoxedSlice<OptionalPosition>,
    // The stack of open initiators, used while partners are matched.
    openers: BoxedSlice<u32>,
    // At each initiator, the side of the first strong class directly inside its isolate; stale at all other positions.
    sides: BoxedSlice<Side>,
    outside: Side,
}

impl Model for IsolateMap {
    ghost use Rattle.std.specs.Prelude.{◌≡◌, ◌≤◌, length};
    ghost use Rattle.std.specs.Box.{boxed_slice_items};
    ghost use Rattle.explicit.specs.IsolateMaps.{Isolates, FitsTogether};

    ghost Value = { Isolates };

    ghost view = { λ map. record {
      partners = boxed_slice_items map.partners;
      sides = boxed_slice_items map.sides;
      outside = map.outside;
    } };

    ghost invariant = { λ map.
        FitsTogether (length (boxed_slice_items map.partners)) (length (boxed_slice_items map.openers))
        (length (boxed_slice_items map.sides)) };
}

impl IsolateMap {
    /// Allocates memory for paragraphs of at most `n` units. Fails with `Memory` if there isn't enough memory. Also
    /// fails with `Memory` if `n` is 2^32 - 1 or more, which positions of four bytes can't count; then nothing is
    /// allocated.
    pub fn with_room(alloc: Global, n: usize) -> Result<IsolateMap, Memory>
        ensures { IfOk result (λ map. room map ≡ n) }
    {
        if n >= u32::MAX as usize {
            return Err(Memory);
        }
        let partners = vec![in alloc; OptionalPosition::none(); n]?.into_boxed_slice();
        let openers = vec![in alloc; 0; n]?.into_boxed_slice();
        let sides = vec![in alloc; Side::Unknown; n]?.into_boxed_slice();
        Ok(IsolateMap {
            partners,
            openers,
            sides,
            outside: Side::Unknown,
        })
    }

    /// Finds the isolates of a paragraph within the capacity. The isolates of an earlier paragraph are overwritten.
    // Never inlined, so that its loops have all registers.
    #[inline(never)]
    pub fn fill<L: Ledger>(&mut self, para: &[Unit], steps: &mut Steps<L>)
        requires { length para.now ≤ room self.old }
        ensures same_room { room self.new ≡ room self.old }
        ensures filled { IsFilledFrom self.new (classes_of para.now) }
        ensures steps { steps.new ≡ steps.old + length para.now }
    {
        self.outside = match_partners(
            para,
            &mut self.partners,
            &mut self.openers,
            &mut self.sides,
            steps,
        );
    }

    /// Returns the PDI that matches the isolate initiator at the position `p`, or the isolate initiator that matches
    /// the PDI at `p`, or none (BD9). `p` is a position of the paragraph that the map was filled from.
    pub fn partner(&self, p: usize) -> Option<usize>
        requires { p < room self.now }
        ensures retained { result ≡ slice_index_or self.now.partners p None }
        ensures matched { (cs : List Class) → IsFilledFrom self.now cs → p < length cs → result ≡ partner_of cs p }
    {
        self.partners[p].get()
    }

    // P2, P3: returns whether the first strong class directly inside the isolate that begins at `p` is R or AL.
    pub(crate) fn is_right_to_left(&self, p: usize) -> bool
        requires { p < room self.now }
        ensures { IsSideInside self.now p result }
    {
        self.sides[p].is_right_to_left()
    }

    // P2, P3: returns the side of the first strong class outside of all isolates.
    pub(crate) fn outside(&self) -> Side
        ensures { result ≡ self.now.outside }
    {
        self.outside
    }
}

// P2: notes a strong class for the innermost open isolate, or for the outside if no isolate is open. Returns the side
// outside of all isolates.
fn note_strong(
    class: Class,
    openers: &[u32],
    depth: usize,
    sides: &mut [Side],
    outside: Side,
) -> Side
    requires open { depth ≤ length openers.now }
    requires within { (d : ℕ) → depth ≡ d + 1 → slice_index_or openers.now d 0 < length sides.old }
    ensures outside { depth ≡ 0 → (result ≡ noted outside class) × (sides.new ≡ sides.old) }
    ensures inside { (d : ℕ) → depth ≡ d + 1
        → (result ≡ outside) × (sides.new ≡ noted_at sides.old (slice_index_or openers.now d 0) class) }
{
    if depth == 0 {
        return outside.noting(class);
    }
    let opener = openers[depth - 1] as usize;
    sides[opener] = sides[opener].noting(class);
    outside
}

// Returns whether the class is LRI, RLI, FSI or PDI, which are the last classes.
fn is_isolate_formatting(class: Class) -> bool
    ensures { result ≡ is_isolate_formatting class }
{
    class as u8 >= Class::LRI as u8
}

// Returns whether an isolate begins or ends at this position.
fn is_formatting_at(para: &[Unit], p: usize) -> bool
    requires { p < length para.now }
    ensures { result ≡ is_isolate_formatting (class_at (classes_of para.now) p) }
{
    is_isolate_formatting(para[p].class)
}

// Returns whether an isolate begins or ends at this position or at the one after it. With `|` in place of `||` the
// compiler would gather the classes first.
fn is_formatting_in_two(para: &[Unit], p: usize) -> bool
    requires { p + 2 ≤ length para.now }
    ensures { result ≡ false → HasNoFormatting (classes_of para.now) p (p + 2) }
{
    is_formatting_at(para, p) || is_formatting_at(para, p + 1)
}

// Returns whether an isolate begins or ends at this position or at one of the three after it.
fn is_formatting_in_four(para: &[Unit], p: usize) -> bool
    requires { p + 4 ≤ length para.now }
    ensures { result ≡ false → HasNoFormatting (classes_of para.now) p (p + 4) }
{
    is_formatting_in_two(para, p) || is_formatting_in_two(para, p + 2)
}

/// LRI, RLI, FSI and PDI, one bit for each class.
const FORMATTING: u32 = 0b111_1000_0000_0000_0000_0000;

/// The same, and L, R and AL.
const FORMATTING_OR_STRONG: u32 = 0b111_1000_0000_0000_0000_0111;

// Returns whether the pass over isolates skips a class: no isolate begins or ends there, and the class is not strong if
// the pass looks for a strong class.
fn is_passed(class: Class, wanted: bool) -> bool
    ensures { result ≡ is_passed wanted class }
{
    let stops = if wanted {
        FORMATTING_OR_STRONG
    } else {
        FORMATTING
    };
    stops >> (class as u32) & 1 == 0
}

// Removes the partners of four positions from `p` on. Each is a step. Written one by one without a loop, the four take
// one instruction.
fn clear_four<L: Ledger>(partners: &mut [OptionalPosition], p: usize, steps: &mut Steps<L>)
    requires { p + 4 ≤ length partners.old }
    ensures partners { partners.new ≡ without_partners p (p + 4) partners.old }
    ensures steps { steps.new ≡ steps.old + 4 }
{
    steps.add(4);
    partners[p] = OptionalPosition::none();
    partners[p + 1] = OptionalPosition::none();
    partners[p + 2] = OptionalPosition::none();
    partners[p + 3] = OptionalPosition::none();
}

// Skips four positions from `p` on, and removes their partners, if no isolate begins or ends at them. Returns the
// position after them, or `p`. Each skipped position is a step.
fn pass_four<L: Ledger>(
    para: &[Unit],
    p: usize,
    partners: &mut [OptionalPosition],
    steps: &mut Steps<L>,
) -> usize
    requires inside { p + 4 ≤ length para.now }
    requires room { length para.now ≤ length partners.old }
    ensures later { p ≤ result }
    ensures within { result ≤ p + 4 }
    ensures passed { HasNoFormatting (classes_of para.now) p result }
    ensures partners { partners.new ≡ without_partners p result partners.old }
    ensures steps { steps.new + p ≡ steps.old + result }
{
    if is_formatting_in_four(para, p) {
        return p;
    }
    clear_four(partners, p, steps);
    p + 4
}

// Skips four positions from `p` on, at which no isolate begins or ends, and removes their partners. Then it skips four
// more as `pass_four` does. Returns the position after those that it skips. Each is a step.
fn pass_eight<L: Ledger>(
    para: &[Unit],
    p: usize,
    partners: &mut [OptionalPosition],
    steps: &mut Steps<L>,
) -> usize
    requires inside { p + 8 ≤ length para.now }
    requires passed { HasNoFormatting (classes_of para.now) p (p + 4) }
    requires room { length para.now ≤ length partners.old }
    ensures later { p + 4 ≤ result }
    ensures within { result ≤ p + 8 }
    ensures passed { HasNoFormatting (classes_of para.now) p result }
    ensures partners { partners.new ≡ without_partners p result partners.old }
    ensures steps { steps.new + p ≡ steps.old + result }
{
    clear_four(partners, p, steps);
    pass_four(para, p + 4, partners, steps)
}

// If the pass looks for no strong class, skips positions from `from` on at which no isolate begins or ends, four at a
// time, and removes their partners. Returns the position after them. Each skipped position is a step. Each turn skips
// twice, which takes fewer instructions than a turn for each four. It begins only where it can skip, so each turn takes
// four steps or more.
fn pass_fours<L: Ledger>(
    para: &[Unit],
    from: usize,
    wanted: bool,
    partners: &mut [OptionalPosition],
    steps: &mut Steps<L>,
) -> usize
    requires from { from ≤ length para.now }
    requires room { length para.now ≤ length partners.old }
    ensures later { from ≤ result }
    ensures within { result ≤ length para.now }
    ensures passed { HasNoFormatting (classes_of para.now) from result }
    ensures seeks { wanted ≡ true → result ≡ from }
    ensures partners { partners.new ≡ without_partners from result partners.old }
    ensures steps { steps.new + from ≡ steps.old + result }
{
    let mut p = from;
    while !wanted && para.len() - p >= 8 && !is_formatting_in_four(para, p) {
        let end = pass_eight(para, p, partners, steps);
        if end != p + 8 {
            return end;
        }
        p = end;
    }
    p
}

// Returns the next position, from `from` on, at which an isolate begins or ends, or at which there is a strong class if
// `wanted` is true. If there is none, returns the paragraph's end. Removes the partners of the positions before it.
// Each of these is a step.
fn next_stop<L: Ledger>(
    para: &[Unit],
    from: usize,
    wanted: bool,
    partners: &mut [OptionalPosition],
    steps: &mut Steps<L>,
) -> usize
    requires from { from ≤ length para.now }
    requires room { length para.now ≤ length partners.old }
    ensures stop { IsNextStop wanted (classes_of para.now) from result }
    ensures partners { partners.new ≡ without_partners from result partners.old }
    ensures steps { steps.new + from ≡ steps.old + result }
{
    let mut p = pass_fours(para, from, wanted, partners, steps);
    while p < para.len() && is_passed(para[p].class, wanted) {
        steps.tick();
        partners[p] = OptionalPosition::none();
        p += 1;
    }
    p
}

// BD9, P2, P3: matches each PDI with the last open initiator, and notes the first strong class of each isolate. Writes
// the partners of all positions and the sides of all initiators, and returns the side outside of all isolates. After
// each isolate initiator and each PDI the pass looks for a strong class again. Each turn counts the position at which
// the pass stopped.
fn match_partners<L: Ledger>(
    para: &[Unit],
    partners: &mut [OptionalPosition],
    openers: &mut [u32],
    sides: &mut [Side],
    steps: &mut Steps<L>,
) -> Side
    requires inside { length para.now ≤ length partners.old }
    requires fits { length openers.old ≡ length partners.old }
    requires sides_fit { length sides.old ≡ length partners.old }
    requires few { length partners.old ≤ u32.MAX }
    ensures matched { HasPartners partners.new (classes_of para.now) }
    ensures sides { HasSides sides.new (classes_of para.now) }
    ensures outside { result ≡ side_at (classes_of para.now) (first_strong (classes_of para.now) None) }
    ensures steps { steps.new ≡ steps.old + length para.now }
{
    let mut outside = Side::Unknown;
    let mut depth = 0;
    let mut p = next_stop(para, 0, true, partners, steps);
    while p < para.len() {
        steps.tick();
        partners[p] = OptionalPosition::none();
        let class = para[p].class;
        let is_strong = class.is_strong();
        if class.is_isolate_initiator() {
            openers[depth] = p as u32;
            depth += 1;
            sides[p] = Side::Unknown;
        } else if class.is_pdi() && depth > 0 {
            depth -= 1;
            let opener = openers[depth] as usize;
            partners[opener] = OptionalPosition::some(p);
            partners[p] = OptionalPosition::some(opener);
        } else if is_strong {
            outside = note_strong(class, openers, depth, sides, outside);
        }
        p = next_stop(para, p + 1, !is_strong, partners, steps);
    }
    outside
}
