//! Stretches of a text with no removed position (X9): their positions, written in order.
ghost use Rattle.std.specs.Prelude.{◌≡◌, ◌<◌, ◌≤◌, ◌+◌, ◌-◌, ◌^◌, Some, length, replicate, reverse, take};
ghost use Rattle.std.specs.List.{list_all};
ghost use Rattle.std.specs.Option.{is_some};
ghost use Rattle.units.specs.Positions.{positions_from};

use std::sync::ledger::Ledger;
use units::level::Level;
use units::steps::Steps;

/// Returns whether no position was removed. Takes one step for each.
pub(crate) fn all_remain<L: Ledger>(levels: &[Option<Level>], steps: &mut Steps<L>) -> bool
    ensures remain { result ≡ list_all is_some levels.now }
    ensures steps { steps.new ≡ steps.old + length levels.now }
{
    steps.add(levels.len());
    let mut removed = false;
    for level in levels {
        removed |= level.is_none();
    }
    !removed
}

/// Writes this level for the first `count` positions. Takes one step for each.
#[inline(always)]
pub(crate) fn write_level<L: Ledger>(
    level: Level,
    count: usize,
    levels: &mut [Option<Level>],
    steps: &mut Steps<L>,
)
    requires { count ≤ length levels.old }
    ensures len { length levels.new ≡ length levels.old }
    ensures levels { take count levels.new ≡ replicate count (Some level) }
    ensures steps { steps.new ≡ steps.old + count }
{
    for k in 0..count {
        steps.tick();
        levels[k] = Some(level);
    }
}

/// Writes the positions from `start` on, rising. Takes one step for each.
pub(crate) fn count_up<L: Ledger>(start: usize, places: &mut [usize], steps: &mut Steps<L>)
    requires { start + length places.old < 2 ^ 64 }
    ensures order { places.new ≡ positions_from start (length places.old) }
    ensures steps { steps.new ≡ steps.old + length places.old }
{
    steps.add(places.len());
    for (index, place) in places.iter_mut().enumerate() {
        *place = start + index;
    }
}

/// Writes the positions before `end`, falling. Takes one step for each.
pub(crate) fn count_down<L: Ledger>(end: usize, places: &mut [usize], steps: &mut Steps<L>)
    requires { length places.old ≤ end }
    ensures order { places.new ≡ reverse (positions_from (end - length places.old) (length places.old)) }
    ensures steps { steps.new ≡ steps.old + length places.old }
{
    steps.add(places.len());
    for (index, place) in places.iter_mut().enumerate() {
        *place = end - 1 - index;
    }
}
