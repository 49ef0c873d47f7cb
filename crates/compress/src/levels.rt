//! The levels of a flat paragraph from those of the few units that were resolved in its place.
ghost use Rattle.std.specs.Prelude.{◌≡◌, ℕ, List, true, false, ◌+◌, ◌<◌, ◌≤◌, max, None, length, drop, slice_index_or, if◌then◌else◌, ◌-◌};
ghost use Rattle.units.specs.Classes.{is_removed};
ghost use Rattle.units.specs.Layout.{no_unit};
ghost use Rattle.units.specs.declared.bracket.Unit.{Unit as BidiUnit};
ghost use Rattle.compress.specs.Laid.{IsLaid, IsRun, IsRunAfter, RemainAll, ResolvesFrom, level_by};

use crate::pass::{Few, start_of};
use crate::passed_set::PassedSet;
use std::sync::ledger::Ledger;
use units::bracket::Unit;
use units::level::Level;
use units::steps::Steps;

/// X9: Returns this level, or `None` if the unit is removed.
fn level_at(unit: Unit, level: &Option<Level>) -> Option<Level>
    ensures { result ≡ (if is_removed unit.class then None else level.now) }
{
    if PassedSet::removed().has(unit.class) {
        return None;
    }
    *level
}

/// X9: Writes this level from `start` up to `end`, and `None` at what is removed.
fn write_remaining<L: Ledger>(
    para: &[Unit],
    start: usize,
    end: usize,
    level: &Option<Level>,
    levels: &mut [Option<Level>],
    steps: &mut Steps<L>,
)
    requires order { start ≤ end }
    requires within { end ≤ length para.now }
    requires levels { length levels.old ≡ length para.now }
    ensures run { IsRun para.now start end level.now levels.old levels.new }
    ensures steps { steps.new + start ≡ steps.old + end }
{
    for p in start..end {
        steps.tick();
        levels[p] = level_at(para[p], level);
    }
}

/// Writes this level from `start` up to `end`.
fn write_all<L: Ledger>(
    start: usize,
    end: usize,
    level: &Option<Level>,
    levels: &mut [Option<Level>],
    steps: &mut Steps<L>,
)
    requires order { start ≤ end }
    requires within { end ≤ length levels.old }
    ensures run { (us : List BidiUnit) → RemainAll us → length levels.old ≡ length us
        → IsRun us start end level.now levels.old levels.new }
    ensures steps { steps.new + start ≡ steps.old + end }
{
    for p in start..end {
        steps.tick();
        levels[p] = *level;
    }
}

/// How many levels are written together.
const BLOCK: usize = 8;

/// Writes this level at the eight positions before `end`. Returns the first of them. Each of them from `start` on is a
/// step, so at least one is.
// Eight levels are one store, so the few before `start` cost nothing. There is no loop: its turns would be steps.
fn write_eight<L: Ledger>(
    start: usize,
    end: usize,
    level: &Option<Level>,
    levels: &mut [Option<Level>],
    steps: &mut Steps<L>,
) -> usize
    requires eight { 8 ≤ end }
    requires some { start < end }
    requires within { end ≤ length levels.old }
    ensures first { result + 8 ≡ end }
    ensures run { (us : List BidiUnit) → RemainAll us → length levels.old ≡ length us
        → IsRun us result end level.now levels.old levels.new }
    ensures steps { steps.new + max start result ≡ steps.old + end }
{
    steps.add((end - start).min(BLOCK));
    let p = end - BLOCK;
    levels[p] = *level;
    levels[p + 1] = *level;
    levels[p + 2] = *level;
    levels[p + 3] = *level;
    levels[p + 4] = *level;
    levels[p + 5] = *level;
    levels[p + 6] = *level;
    levels[p + 7] = *level;
    p
}

/// Writes this level at the eight positions before `end`, or at the last one alone if there are no eight from `lowest`
/// on. Returns from which position on it is written. Each position from `start` on is a step.
fn write_last<L: Ledger>(
    lowest: usize,
    start: usize,
    end: usize,
    level: &Option<Level>,
    levels: &mut [Option<Level>],
    steps: &mut Steps<L>,
) -> usize
    requires lowest { lowest ≤ start }
    requires some { start < end }
    requires within { end ≤ length levels.old }
    ensures lowest { lowest ≤ result }
    ensures before { result < end }
    ensures run { (us : List BidiUnit) → RemainAll us → length levels.old ≡ length us
        → IsRun us result end level.now levels.old levels.new }
    ensures steps { steps.new + max start result ≡ steps.old + end }
{
    if end - lowest >= BLOCK {
        return write_eight(start, end, level, levels, steps);
    }
    steps.tick();
    levels[end - 1] = *level;
    end - 1
}

/// Writes this level before `end`, eight at a time, down to `start` or a few positions before it, but nothing before
/// `lowest`. Returns from which position on it is written. Each position from `start` on is a step.
fn write_back<L: Ledger>(
    lowest: usize,
    start: usize,
    end: usize,
    level: &Option<Level>,
    levels: &mut [Option<Level>],
    steps: &mut Steps<L>,
) -> usize
    requires lowest { lowest ≤ end }
    requires within { end ≤ length levels.old }
    ensures lowest { lowest ≤ result }
    ensures within { result ≤ end }
    ensures run { (us : List BidiUnit) → RemainAll us → length levels.old ≡ length us
        → IsRun us result end level.now levels.old levels.new }
    ensures steps { steps.new + max start result ≡ steps.old + max start end }
{
    let mut p = end;
    while p > start && p - lowest >= BLOCK {
        p = write_eight(start, p, level, levels, steps);
    }
    p
}

/// Writes this level from `start` up to `end`, and perhaps at positions before these, but at none before `lowest`. The
/// last positions are written without a loop, so that a caller's turn that writes a run is counted with them.
fn write_run<L: Ledger>(
    lowest: usize,
    start: usize,
    end: usize,
    level: &Option<Level>,
    levels: &mut [Option<Level>],
    steps: &mut Steps<L>,
)
    requires lowest { lowest ≤ start }
    requires some { start < end }
    requires within { end ≤ length levels.old }
    ensures run { (us : List BidiUnit) → RemainAll us → length levels.old ≡ length us
        → IsRunAfter us lowest start end level.now levels.old levels.new }
    ensures steps { steps.new + start ≡ steps.old + end }
{
    let last = write_last(lowest, start, end, level, levels, steps);
    let p = write_back(lowest, start, last, level, levels, steps);
    if p > start {
        write_all(start, p, level, levels, steps);
    }
}

/// X9: Does what `write_remaining` does, for at least one position. The last one is written without a loop, so that a
/// caller's turn that writes a run is counted with it.
fn write_run_remaining<L: Ledger>(
    para: &[Unit],
    start: usize,
    end: usize,
    level: &Option<Level>,
    levels: &mut [Option<Level>],
    steps: &mut Steps<L>,
)
    requires some { start < end }
    requires within { end ≤ length para.now }
    requires levels { length levels.old ≡ length para.now }
    ensures run { IsRun para.now start end level.now levels.old levels.new }
    ensures steps { steps.new + start ≡ steps.old + end }
{
    let last = end - 1;
    steps.tick();
    levels[last] = level_at(para[last], level);
    write_remaining(para, start, last, level, levels, steps);
}

/// A paragraph, and whether all its units remain (X9).
#[derive(Clone, Copy)]
pub struct FlatPara<'a> {
    /// Its units.
    pub units: &'a [Unit],
    /// True only if all of them remain.
    pub all_remain: bool,
}

/// Writes the levels of the units before `few.end` of a paragraph of which all units remain, by those of the chosen
/// ones, which are the first of the column.
#[inline(never)]
fn spread_all<L: Ledger>(
    para: &[Unit],
    starts: &[Unit],
    few: Few,
    levels: &mut [Option<Level>],
    steps: &mut Steps<L>,
)
    requires all_remain { RemainAll para.now }
    requires laid { IsLaid para.now starts.now few.chosen few.end }
    requires starts { few.chosen ≤ length starts.now }
    requires levels { length levels.old ≡ length para.now }
    ensures written { (p : ℕ) → p < few.end
        → slice_index_or levels.new p None ≡ level_by para.now starts.now levels.old few.chosen p }
    ensures unchanged { (p : ℕ) → few.end ≤ p
        → slice_index_or levels.new p None ≡ slice_index_or levels.old p None }
    ensures steps { steps.new ≡ steps.old + few.end }
{
    let mut end = few.end;
    for k in (0..few.chosen).rev() {
        let start = start_of(starts[k]);
        let level = levels[k];
        write_run(k, start, end, &level, levels, steps);
        end = start;
    }
    write_all(0, end, &None, levels, steps);
}

/// X9: Does what `spread_all` does, for any paragraph.
#[inline(never)]
fn spread_remaining<L: Ledger>(
    para: &[Unit],
    starts: &[Unit],
    few: Few,
    levels: &mut [Option<Level>],
    steps: &mut Steps<L>,
)
    requires laid { IsLaid para.now starts.now few.chosen few.end }
    requires starts { few.chosen ≤ length starts.now }
    requires levels { length levels.old ≡ length para.now }
    ensures written { (p : ℕ) → p < few.end
        → slice_index_or levels.new p None ≡ level_by para.now starts.now levels.old few.chosen p }
    ensures unchanged { (p : ℕ) → few.end ≤ p
        → slice_index_or levels.new p None ≡ slice_index_or levels.old p None }
    ensures steps { steps.new ≡ steps.old + few.end }
{
    let mut end = few.end;
    for k in (0..few.chosen).rev() {
        let start = start_of(starts[k]);
        let level = levels[k];
        write_run_remaining(para, start, end, &level, levels, steps);
        end = start;
    }
    write_remaining(para, 0, end, &None, levels, steps);
}

/// Writes the levels of a paragraph. The last of the column are those of the chosen units, and then those of all units
/// from `few.end` on, which are at their positions already. `starts` are the positions at which the chosen ones begin.
/// There are at most as many of these as other units before `few.end`. Each position before `few.end` is a step, and so
/// is each chosen unit, whose level is copied to the start of the column first.
pub fn spread<L: Ledger>(
    para: &FlatPara,
    starts: &[Unit],
    few: Few,
    levels: &mut [Option<Level>],
    steps: &mut Steps<L>,
)
    requires all_remain { para.now.all_remain ≡ true → RemainAll para.now.units.now }
    requires laid { IsLaid para.now.units.now starts.now few.chosen few.end }
    requires half { few.chosen + few.chosen ≤ few.end }
    requires starts { few.chosen ≤ length starts.now }
    requires levels { length levels.old ≡ length para.now.units.now }
    ensures resolved { ResolvesFrom para.now.units.now starts.now few.chosen few.end
        (drop (few.end - few.chosen) levels.old) levels.new }
    ensures steps { steps.new ≡ steps.old + few.chosen + few.end }
{
    steps.add(few.chosen);
    let (front, back) = levels.split_at_mut(few.end - few.chosen);
    front[..few.chosen].copy_from_slice(&back[..few.chosen]);
    if para.all_remain {
        spread_all(para.units, starts, few, levels, steps);
    } else {
        spread_remaining(para.units, starts, few, levels, steps);
    }
}
