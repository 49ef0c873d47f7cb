//! The explicit levels of a paragraph (X1 to X9).
ghost use Rattle.std.specs.Prelude.{◌≡◌, ◌+◌, ◌-◌, ◌*◌, ◌<◌, ◌≤◌, length, None, slice_index_or, IfOk};
ghost use Rattle.std.specs.Option.{option_map_or};
ghost use Rattle.units.specs.Classes.{classes_of};
ghost use Rattle.units.specs.Isolates.{level_of_para};
ghost use Rattle.units.specs.declared.class.Class.TheVariants.{BN};
ghost use Rattle.explicit.specs.IsolateMaps.{IsFilledFrom};
ghost use Rattle.explicit.specs.ExplicitLevels.{HoldsLevels, IsExplicitAt, IsWithinDepth};
ghost use Rattle.explicit.specs.StatusStacks.{entry_count, is_ordinary};
ghost use Rattle.explicit.specs.Stretches.{IsStretch, IsStretchWithin, with_leveled};

use crate::isolates::IsolateMap;
use crate::leveled_class::LeveledClass;
use crate::roles::is_ordinary;
use crate::status::{LevelRange, Status, StatusStack};
use std::alloc::Global;
use std::boxed::BoxedSlice;
use std::marker::Model;
use std::sync::ledger::Ledger;
use units::bracket::Unit;
use units::class::Class;
use units::level::{Level, ParaLevel};
use units::limits::Limits;
use units::memory::Memory;
use units::steps::Steps;

/// The explicit level and the current class of each position of a paragraph, or none if X9 removes the position. The
/// memory is allocated once and filled in place. Contracts see the list for the whole capacity. The value also owns the
/// stack of directional statuses, which is empty between calls.
#[derive(Drop)]
pub struct Explicit {
    column: BoxedSlice<LeveledClass>,
    pub(crate) stack: StatusStack,
}

impl Model for Explicit {
    ghost use Rattle.std.specs.Prelude.{◌≡◌, ℕ, List, Option};
    ghost use Rattle.std.specs.Box.{boxed_slice_items};
    ghost use Rattle.units.specs.declared.class.Class.{Class};
    ghost use Rattle.explicit.specs.StatusStacks.{entry_count};

    ghost Value = { List (Option (ℕ × Class)) };

    ghost view = { λ explicit. boxed_slice_items explicit.column };

    ghost invariant = { λ explicit. entry_count explicit.stack ≡ 0 };
}

impl Explicit {
    /// Allocates memory for paragraphs of at most `n` units. Fails with `Memory` if there isn't enough memory, or if
    /// `n` is 2^32 - 1 or more, like `IsolateMap::with_room`.
    pub fn with_room(alloc: Global, n: usize) -> Result<Explicit, Memory>
        ensures { IfOk result (λ explicit. length explicit ≡ n) }
    {
        if n >= u32::MAX as usize {
            return Err(Memory);
        }
        let column = vec![in alloc; LeveledClass::none(); n]?.into_boxed_slice();
        Ok(Explicit {
            column,
            stack: StatusStack::empty(),
        })
    }

    /// Returns the explicit level of the position `p`, 0 to the depth of the last call that filled this value, and its
    /// current class, or none if it is removed (X1 to X9). `p` is a position of the paragraph of that call.
    pub fn at(&self, p: usize) -> Option<(Level, Class)>
        requires { p < length self.now }
        ensures retained { result ≡ slice_index_or self.now p None }
        ensures found { IsExplicitAt self.now p result }
        ensures within { IsWithinDepth self.now p result }
    {
        self.column[p].get()
    }

    /// Returns the whole column, as contracts see it: the explicit level and the current class of each position of the
    /// paragraph that it was filled from, or none if the position is removed (X1 to X9).
    pub fn column(&self) -> &[LeveledClass]
        ensures { result.now ≡ self.now }
    {
        &self.column
    }

    /// Returns the current class of the position `p`, or BN if it is removed (X1 to X9). `p` is a position of the
    /// paragraph that the column was filled from.
    pub fn class_at(&self, p: usize) -> Class
        requires { p < length self.now }
        ensures { result ≡ option_map_or (λ x. x.1) (slice_index_or self.now p None) BN }
    {
        self.column[p].class()
    }
}

// X5a to X6a: writes the level and the class of the position `p`, inside this status, if its class is ordinary. Returns
// the position after it, or else `p`. A written position is a step.
fn level_one<L: Ledger>(
    para: &[Unit],
    p: usize,
    status: &Status,
    explicit: &mut [LeveledClass],
    steps: &mut Steps<L>,
) -> usize
    requires inside { p < length para.now }
    requires room { length para.now ≤ length explicit.old }
    ensures stretch { IsStretchWithin is_ordinary (classes_of para.now) p (p + 1) result }
    ensures explicit { explicit.new ≡ with_leveled status.now (classes_of para.now) p result explicit.old }
    ensures steps { steps.new + p ≡ steps.old + result }
{
    let own = para[p].class;
    if !is_ordinary(own) {
        return p;
    }
    steps.tick();
    let (level, class) = status.leveled(own);
    explicit[p] = LeveledClass::some(level, class);
    p + 1
}

// X5a to X6a: writes up to two positions from `p` on as `level_one` does, and stops before a class that is not
// ordinary. Returns the position after the written ones. With `<` in place of `!=` the compiler would test again what
// it knows.
fn level_two<L: Ledger>(
    para: &[Unit],
    p: usize,
    status: &Status,
    explicit: &mut [LeveledClass],
    steps: &mut Steps<L>,
) -> usize
    requires inside { p + 2 ≤ length para.now }
    requires room { length para.now ≤ length explicit.old }
    ensures stretch { IsStretchWithin is_ordinary (classes_of para.now) p (p + 2) result }
    ensures explicit { explicit.new ≡ with_leveled status.now (classes_of para.now) p result explicit.old }
    ensures steps { steps.new + p ≡ steps.old + result }
{
    let middle = level_one(para, p, status, explicit, steps);
    if middle != p + 1 {
        return middle;
    }
    level_one(para, middle, status, explicit, steps)
}

// The same for up to four positions.
fn level_four<L: Ledger>(
    para: &[Unit],
    p: usize,
    status: &Status,
    explicit: &mut [LeveledClass],
    steps: &mut Steps<L>,
) -> usize
    requires inside { p + 4 ≤ length para.now }
    requires room { length para.now ≤ length explicit.old }
    ensures stretch { IsStretchWithin is_ordinary (classes_of para.now) p (p + 4) result }
    ensures explicit { explicit.new ≡ with_leveled status.now (classes_of para.now) p result explicit.old }
    ensures steps { steps.new + p ≡ steps.old + result }
{
    let middle = level_two(para, p, status, explicit, steps);
    if middle != p + 2 {
        return middle;
    }
    level_two(para, middle, status, explicit, steps)
}

// The same for up to eight positions.
fn level_eight<L: Ledger>(
    para: &[Unit],
    p: usize,
    status: &Status,
    explicit: &mut [LeveledClass],
    steps: &mut Steps<L>,
) -> usize
    requires inside { p + 8 ≤ length para.now }
    requires room { length para.now ≤ length explicit.old }
    ensures stretch { IsStretchWithin is_ordinary (classes_of para.now) p (p + 8) result }
    ensures explicit { explicit.new ≡ with_leveled status.now (classes_of para.now) p result explicit.old }
    ensures steps { steps.new + p ≡ steps.old + result }
{
    let middle = level_four(para, p, status, explicit, steps);
    if middle != p + 4 {
        return middle;
    }
    level_four(para, middle, status, explicit, steps)
}

// X5a to X6a: writes the level and the class of the positions from `from` on, inside this status, before the next
// position whose class is not ordinary, or the end. Returns that position. Each written position is a step.
fn level_rest<L: Ledger>(
    para: &[Unit],
    from: usize,
    status: &Status,
    explicit: &mut [LeveledClass],
    steps: &mut Steps<L>,
) -> usize
    requires from { from ≤ length para.now }
    requires room { length para.now ≤ length explicit.old }
    ensures stretch { IsStretch is_ordinary (classes_of para.now) from result }
    ensures explicit { explicit.new ≡ with_leveled status.now (classes_of para.now) from result explicit.old }
    ensures steps { steps.new + from ≡ steps.old + result }
{
    let mut p = from;
    while p < para.len() && is_ordinary(para[p].class) {
        steps.tick();
        let (level, class) = status.leveled(para[p].class);
        explicit[p] = LeveledClass::some(level, class);
        p += 1;
    }
    p
}

// The same. Each turn writes eight positions, which takes fewer instructions than a turn for each position. It begins
// only at an ordinary class, so each turn takes a step. Inlined, so that the compiler makes one loop for a status that
// overrides, and one for a status that doesn't.
#[inline(always)]
fn level_eights<L: Ledger>(
    para: &[Unit],
    from: usize,
    status: &Status,
    explicit: &mut [LeveledClass],
    steps: &mut Steps<L>,
) -> usize
    requires from { from ≤ length para.now }
    requires room { length para.now ≤ length explicit.old }
    ensures stretch { IsStretch is_ordinary (classes_of para.now) from result }
    ensures explicit { explicit.new ≡ with_leveled status.now (classes_of para.now) from result explicit.old }
    ensures steps { steps.new + from ≡ steps.old + result }
{
    let mut p = from;
    while para.len() - p >= 8 && is_ordinary(para[p].class) {
        let end = level_eight(para, p, status, explicit, steps);
        if end != p + 8 {
            return end;
        }
        p = end;
    }
    // If eight positions are left, the class of the first is not ordinary.
    if para.len() - p >= 8 {
        return p;
    }
    level_rest(para, p, status, explicit, steps)
}

// X5a to X6a: writes the level and the class of the positions from `from` on, inside this status, before the next
// position whose class is not ordinary, or the end. Returns that position. Each written position is a step. Whether the
// status overrides is asked once.
fn level_ordinary<L: Ledger>(
    para: &[Unit],
    from: usize,
    status: Status,
    explicit: &mut [LeveledClass],
    steps: &mut Steps<L>,
) -> usize
    requires from { from ≤ length para.now }
    requires room { length para.now ≤ length explicit.old }
    ensures stretch { IsStretch is_ordinary (classes_of para.now) from result }
    ensures explicit { explicit.new ≡ with_leveled status (classes_of para.now) from result explicit.old }
    ensures steps { steps.new + from ≡ steps.old + result }
{
    match status.override_class {
        None => {
            let own = Status {
                override_class: None,
                ..status
            };
            level_eights(para, from, &own, explicit, steps)
        }
        Some(class) => {
            let overriding = Status {
                override_class: Some(class),
                ..status
            };
            level_eights(para, from, &overriding, explicit, steps)
        }
    }
}

// X1 to X9: finds the level and the current class of each position. Successive positions of ordinary classes are
// written at once; each other position opens and closes what its class says. The stack is empty before and after.
fn find_explicit<L: Ledger>(
    para: &[Unit],
    map: &IsolateMap,
    range: &LevelRange,
    stack: &mut StatusStack,
    explicit: &mut [LeveledClass],
    steps: &mut Steps<L>,
)
    requires base { range.now.base ≤ 1 }
    requires within { range.now.depth ≤ 125 }
    requires room { length para.now ≤ length explicit.old }
    requires filled { IsFilledFrom map.now (classes_of para.now) }
    requires empty { entry_count stack.old ≡ 0 }
    ensures found { HoldsLevels explicit.new range.now.depth (classes_of para.now) range.now.base }
    ensures empty { entry_count stack.new ≡ 0 }
    ensures least_steps { steps.old + length para.now ≤ steps.new }
    ensures most_steps { steps.new ≤ steps.old + (2 * length para.now + 1) }
{
    stack.begin(range.base);
    let mut p = 0;
    while p < para.len() {
        steps.tick();
        let class = para[p].class;
        if is_ordinary(class) {
            p = level_ordinary(para, p, stack.current(), explicit, steps);
            continue;
        }
        let leveled = stack.pass(class, map.is_right_to_left(p), range, steps);
        explicit[p] = leveled;
        p += 1;
    }
    stack.clear(steps);
}

/// Finds the explicit levels and the current classes of a paragraph of this level, up to the depth of the limits (X1 to
/// X9, BD2). `out` has capacity for the paragraph, and `map` was filled from it. The levels of an earlier paragraph are
/// overwritten. Each position is a step. So is each stretch of successive ordinary classes, and each entry of the stack
/// (X1) that a PDI or the paragraph's end drops.
// Never inlined, so that its loops have all registers.
#[inline(never)]
pub fn explicit_levels<L: Ledger>(
    para: &[Unit],
    map: &IsolateMap,
    level: ParaLevel,
    limits: Limits,
    out: &mut Explicit,
    steps: &mut Steps<L>,
)
    requires room { length para.now ≤ length out.old }
    requires filled { IsFilledFrom map.now (classes_of para.now) }
    ensures same_room { length out.new ≡ length out.old }
    ensures found { HoldsLevels out.new limits.depth (classes_of para.now) (level_of_para level) }
    ensures least_steps { steps.old + length para.now ≤ steps.new }
    ensures most_steps { steps.new ≤ steps.old + (2 * length para.now + 1) }
{
    find_explicit(
        para,
        map,
        &LevelRange {
            base: level.level(),
            depth: limits.depth(),
        },
        &mut out.stack,
        &mut out.column,
        steps,
    );
}
