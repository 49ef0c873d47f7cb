//! Sequences that keep their level (W1 to I2).
ghost use Rattle.std.specs.Prelude.{◌≡◌, ◌↔◌, ℕ, false, true, ◌+◌, ◌-◌, ◌<◌, ◌≤◌, Contains, IsTrue, Some, length, slice_index};
ghost use Rattle.explicit.specs.FlatTheorems.{IsUniformSequence};
ghost use Rattle.sequences.specs.Links.{ArePositions};
ghost use Rattle.units.specs.Classes.{class_at, classes_at};
ghost use Rattle.units.specs.Runs.{direction_of};
ghost use Rattle.resolve.specs.ClassSets.{holds};
ghost use Rattle.resolve.specs.Raised.{resolved_at};
ghost use Rattle.resolve.specs.Repeats.{AreWithout, holds_one_of_four};
ghost use Rattle.resolve.specs.Resolved.{KeepsOtherLevels};

use crate::class_set::ClassSet;
use sequences::sequence::Sequence;
use std::sync::ledger::Ledger;
use units::class::Class;
use units::level::Level;
use units::steps::Steps;

/// Returns whether the set contains the class of one of the four positions from the index `k` on.
fn holds_one_of_four(set: ClassSet, positions: &[u32], k: usize, classes: &[Class]) -> bool
    requires positions { ArePositions positions.now (length classes.now) }
    requires within { k + 4 ≤ length positions.now }
    ensures { result ≡ holds_one_of_four set positions.now k classes.now }
{
    set.holds(classes[positions[k] as usize])
        | set.holds(classes[positions[k + 1] as usize])
        | set.holds(classes[positions[k + 2] as usize])
        | set.holds(classes[positions[k + 3] as usize])
}

/// How many positions are tested together.
const BLOCK: usize = 4;

/// Passes the positions of a sequence, four at a time, as long as the set contains the class of none of the next four.
/// Returns the index after them. Each position is a step.
fn pass_fours<L: Ledger>(
    set: ClassSet,
    positions: &[u32],
    classes: &[Class],
    steps: &mut Steps<L>,
) -> usize
    requires { ArePositions positions.now (length classes.now) }
    ensures without { AreWithout set positions.now 0 result classes.now }
    ensures steps { steps.new ≡ steps.old + result }
{
    let mut k = 0;
    while positions.len() - k >= BLOCK && !holds_one_of_four(set, positions, k, classes) {
        steps.add(BLOCK);
        k += BLOCK;
    }
    k
}

/// Passes the positions of a sequence as long as the set doesn't contain their classes. Returns the index after them.
/// Each position is a step.
fn pass_without<L: Ledger>(
    set: ClassSet,
    positions: &[u32],
    classes: &[Class],
    steps: &mut Steps<L>,
) -> usize
    requires { ArePositions positions.now (length classes.now) }
    ensures without { AreWithout set positions.now 0 result classes.now }
    ensures end { result < length positions.now
        → holds set (class_at classes.now (slice_index positions.now result)) ≡ true }
    ensures steps { steps.new ≡ steps.old + result }
{
    let mut k = pass_fours(set, positions, classes, steps);
    while k < positions.len() && !set.holds(classes[positions[k] as usize]) {
        steps.tick();
        k += 1;
    }
    k
}

/// X10: Returns whether the sos of a sequence is the direction of its level.
fn begins_in_its_direction(s: &Sequence) -> bool
    ensures { IsTrue result ↔ (s.now.sos ≡ direction_of s.now.level) }
{
    s.sos() == s.level().direction()
}

/// Returns false only if the sos of a sequence or the class of its first or last position before W1 shows that
/// `is_uniform` returns false. `classes` are those of its paragraph, by position.
pub fn may_be_uniform(s: &Sequence, classes: &[Class]) -> bool
    requires classes { length classes.now ≡ s.now.extent }
    requires some { 0 < length s.now.positions }
    ensures { IsUniformSequence s.now (classes_at classes.now s.now.positions) → IsTrue result }
{
    if !begins_in_its_direction(s) {
        return false;
    }
    let leaving = ClassSet::leaving(s.level());
    let positions = s.as_slice();
    if leaving.holds(classes[positions[0] as usize]) {
        return false;
    }
    !leaving.holds(classes[positions[positions.len() - 1] as usize])
}

/// Returns whether a sequence keeps its level at each position by its classes before W1: its sos is the direction of
/// its level, and none of the classes can bring a position above that level. `classes` are those of its paragraph, by
/// position. Each position before the first one with another class is a step.
pub fn is_uniform<L: Ledger>(s: &Sequence, classes: &[Class], steps: &mut Steps<L>) -> bool
    requires { length classes.now ≡ s.now.extent }
    ensures uniform { IsTrue result ↔ IsUniformSequence s.now (classes_at classes.now s.now.positions) }
    ensures at_least { steps.old ≤ steps.new }
    ensures at_most { steps.new ≤ steps.old + length s.now.positions }
    ensures if_not { result ≡ false → steps.new ≤ steps.old + (length s.now.positions - 1) }
{
    if !begins_in_its_direction(s) {
        return false;
    }
    let positions = s.as_slice();
    pass_without(ClassSet::leaving(s.level()), positions, classes, steps) == positions.len()
}

/// Gives the positions of a sequence its level. `levels` are those of its paragraph, by position. The levels at other
/// positions are unchanged.
pub fn give_level<L: Ledger>(s: &Sequence, levels: &mut [Option<Level>], steps: &mut Steps<L>)
    requires { length levels.old ≡ s.now.extent }
    ensures levels { (p : ℕ) → Contains s.now.positions p → resolved_at levels.new p ≡ Some s.now.level }
    ensures others { KeepsOtherLevels s.now.positions levels.old levels.new }
    ensures steps { steps.new ≡ steps.old + length s.now.positions }
{
    let positions = s.as_slice();
    let level = s.level();
    for k in 0..positions.len() {
        steps.tick();
        levels[positions[k] as usize] = Some(level);
    }
}
