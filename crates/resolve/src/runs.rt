//! Runs of one class along a sequence, which get the same class.
ghost use Rattle.std.specs.Prelude.{◌≡◌, ℕ, ◌+◌, ◌-◌, ◌<◌, ◌≤◌, Some, length, slice_index};
ghost use Rattle.sequences.specs.Links.{ArePositions};
ghost use Rattle.units.specs.Classes.{class_at};
ghost use Rattle.resolve.specs.Repeats.{with_along, AreNeutralOr, ArePassed, IsRunOf};

use crate::class_set::ClassSet;
use crate::rules::is_same;
use std::sync::ledger::Ledger;
use units::class::Class;
use units::level::Level;
use units::steps::Steps;

/// Gives the class `made` to the positions of a sequence from the index `start` on, as long as they have the class
/// `class`. Returns the index after them. Each position is a step.
pub(crate) fn give_run<L: Ledger>(
    positions: &[u32],
    start: usize,
    class: Class,
    made: Class,
    classes: &mut [Class],
    steps: &mut Steps<L>,
) -> usize
    requires positions { ArePositions positions.now (length classes.old) }
    requires start { start ≤ length positions.now }
    ensures run { IsRunOf class positions.now start result classes.old }
    ensures classes { classes.new ≡ with_along positions.now start (result - start) made classes.old }
    ensures steps { steps.new + start ≡ steps.old + result }
{
    let mut k = start;
    while k < positions.len() && is_same(classes[positions[k] as usize], class) {
        steps.tick();
        classes[positions[k] as usize] = made;
        k += 1;
    }
    k
}

/// How a class resolves (N1 to I2).
#[derive(Clone, Copy)]
pub(crate) struct Resolution {
    /// The class before N1.
    pub(crate) class: Class,

    /// The class after N2.
    pub(crate) made: Class,

    /// The resolved level.
    pub(crate) level: Level,
}

/// Gives the class `resolution.made` and its level to the positions of a sequence from the index `start` on, as long as
/// they have the class `resolution.class`. Returns the index after them. Each position is a step.
pub(crate) fn give_run_levels<L: Ledger>(
    positions: &[u32],
    start: usize,
    resolution: Resolution,
    classes: &mut [Class],
    levels: &mut [Option<Level>],
    steps: &mut Steps<L>,
) -> usize
    requires positions { ArePositions positions.now (length classes.old) }
    requires start { start ≤ length positions.now }
    requires levels { length levels.old ≡ length classes.old }
    ensures run { IsRunOf resolution.class positions.now start result classes.old }
    ensures classes { classes.new ≡ with_along positions.now start (result - start) resolution.made classes.old }
    ensures levels { levels.new ≡ with_along positions.now start (result - start) (Some resolution.level) levels.old }
    ensures steps { steps.new + start ≡ steps.old + result }
{
    let class = resolution.class;
    let made = resolution.made;
    let level = resolution.level;
    let mut k = start;
    while k < positions.len() && is_same(classes[positions[k] as usize], class) {
        steps.tick();
        classes[positions[k] as usize] = made;
        levels[positions[k] as usize] = Some(level);
        k += 1;
    }
    k
}

/// Gives the direction `resolution.made` and its level to the positions of a sequence from the index `start` on, as
/// long as they are neutral or have this direction. Returns the index after them. Each position is a step.
pub(crate) fn give_direction<L: Ledger>(
    positions: &[u32],
    start: usize,
    resolution: Resolution,
    classes: &mut [Class],
    levels: &mut [Option<Level>],
    steps: &mut Steps<L>,
) -> usize
    requires positions { ArePositions positions.now (length classes.old) }
    requires start { start ≤ length positions.now }
    requires levels { length levels.old ≡ length classes.old }
    ensures neutral_or { AreNeutralOr resolution.made positions.now start result classes.old }
    ensures classes { classes.new ≡ with_along positions.now start (result - start) resolution.made classes.old }
    ensures levels { levels.new ≡ with_along positions.now start (result - start) (Some resolution.level) levels.old }
    ensures steps { steps.new + start ≡ steps.old + result }
{
    let direction = resolution.made;
    let resolved = resolution.level;
    let neutral_or = ClassSet::neutral_or(direction);
    let mut k = start;
    while k < positions.len() && neutral_or.holds(classes[positions[k] as usize]) {
        steps.tick();
        let p = positions[k] as usize;
        classes[p] = direction;
        levels[p] = Some(resolved);
        k += 1;
    }
    k
}

/// Skips the positions of a sequence from the index `start` on, as long as they are neutral, AN, or this last strong
/// class. Returns the index after them. Each position is a step.
pub(crate) fn pass_over<L: Ledger>(
    positions: &[u32],
    start: usize,
    strong: Class,
    classes: &[Class],
    steps: &mut Steps<L>,
) -> usize
    requires positions { ArePositions positions.now (length classes.now) }
    requires start { start ≤ length positions.now }
    ensures passed { ArePassed strong positions.now start result classes.now }
    ensures steps { steps.new + start ≡ steps.old + result }
{
    let passed = ClassSet::passed(strong);
    let mut k = start;
    while k < positions.len() && passed.holds(classes[positions[k] as usize]) {
        steps.tick();
        k += 1;
    }
    k
}
