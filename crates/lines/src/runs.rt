//! The runs of a line (L2): stretches of one level, linked in their order on the line from left to right.
ghost use Rattle.std.specs.Prelude.{◌≡◌, ◌≢◌, ◌≤◌, ◌<◌, ◌+◌, ◌-◌, ◌*◌, ◌^◌, ◌⊎◌, ℕ, [], MatchOption, false, length, true};
ghost use Rattle.lines.specs.RunLinks.{BeginsRun, IsFollowed, IsJoined, IsLinkedStretch, IsRunAt, StopsBelow};
ghost use Rattle.lines.specs.RunLinks.{run_alone, run_in};
ghost use Rattle.lines.specs.LinePositions.{HasLevel, IsAtOneLevel};
ghost use Rattle.lines.specs.Spans.{IsChainOfSpan, order_of, units_in_span};
ghost use Rattle.lines.specs.StepBounds.{linking_steps};

use crate::spans::LineSpan;
use std::sync::ledger::Ledger;
use units::level::Level;
use units::steps::Steps;

/// A run of a line: a stretch of the text whose remaining positions have one level. Its column has it at the index of
/// its first position.
#[derive(Clone, Copy, Default)]
pub struct Run {
    /// The position at which it ends in the text.
    pub(crate) end: u32,
    /// The position at which the next run on its right begins.
    pub(crate) next: u32,
}

/// Runs that are linked from left to right. Each is identified by the position at which it begins.
#[derive(Clone, Copy)]
pub(crate) struct Chain {
    pub(crate) first: u32,
    pub(crate) last: u32,
}

impl Chain {
    /// Links the last run of this chain to the first run of the chain on its right.
    fn followed_by(self, right: Chain, runs: &mut [Run]) -> Chain
        requires { self.last < length runs.old }
        ensures { IsFollowed self right result runs.old runs.new }
    {
        runs[self.last as usize].next = right.first;
        Chain {
            first: self.first,
            last: right.last,
        }
    }
}

/// A stretch of the text that ends before `end`.
#[derive(Clone, Copy)]
struct Stretch {
    end: usize,
    /// The least level in it.
    level: Level,
    /// Its runs.
    chain: Chain,
}

impl Stretch {
    /// Joins the stretch and the next one in the text. The earlier is left of the later if the lesser of their levels
    /// is even, and right of it if that is odd.
    fn joined(self, later: Stretch, runs: &mut [Run]) -> Stretch
        requires earlier { self.chain.last < length runs.old }
        requires later { later.chain.last < length runs.old }
        ensures { IsJoined self later result runs.old runs.new }
    {
        let level = self.level.min(later.level);
        let chain = if level.get() % 2 == 0 {
            self.chain.followed_by(later.chain, runs)
        } else {
            later.chain.followed_by(self.chain, runs)
        };
        Stretch {
            end: later.end,
            level,
            chain,
        }
    }
}

/// Returns whether there is another level than this one. A removed position has none.
// It takes a copy, so that the compiler reads eight positions together.
fn is_other_level(other: Option<Level>, level: Level) -> bool
    ensures same { result ≡ false → (v : ℕ) → other ≡ Some v → v ≡ level }
    ensures other { result ≡ true → (v : ℕ) × (other ≡ Some v) × (v ≢ level) }
{
    match other {
        Some(other) => other.get() != level.get(),
        None => false,
    }
}

/// Returns whether the position has another level than this one.
fn has_other_level(levels: &[Option<Level>], position: usize, level: Level) -> bool
    requires { position < length levels.now }
    ensures same { result ≡ false → IsAtOneLevel levels.now position (position + 1) level }
    ensures other { result ≡ true → (v : ℕ) × HasLevel levels.now position v × (v ≢ level) }
{
    is_other_level(levels[position], level)
}

/// Returns whether one of the four positions from this one on has another level.
fn has_other_in_four(levels: &[Option<Level>], position: usize, level: Level) -> bool
    requires { position + 4 ≤ length levels.now }
    ensures same { result ≡ false → IsAtOneLevel levels.now position (position + 4) level }
    ensures other { result ≡ true → ¬ IsAtOneLevel levels.now position (position + 4) level }
{
    has_other_level(levels, position, level)
        | has_other_level(levels, position + 1, level)
        | has_other_level(levels, position + 2, level)
        | has_other_level(levels, position + 3, level)
}

/// Returns whether one of the eight positions from this one on has another level.
fn has_other_in_eight(levels: &[Option<Level>], position: usize, level: Level) -> bool
    requires { position + 8 ≤ length levels.now }
    ensures same { result ≡ false → IsAtOneLevel levels.now position (position + 8) level }
    ensures other { result ≡ true → ¬ IsAtOneLevel levels.now position (position + 8) level }
{
    has_other_in_four(levels, position, level) | has_other_in_four(levels, position + 4, level)
}

/// How many positions of a run are passed together.
const BLOCK: usize = 8;

/// Passes positions from `start` on, eight at a time, as long as none of the next eight has another level. Returns the
/// position after them. Each passed position is a step.
fn pass_eights<L: Ledger>(
    levels: &[Option<Level>],
    start: usize,
    end: usize,
    level: Level,
    steps: &mut Steps<L>,
) -> usize
    requires order { start ≤ end }
    requires within { end ≤ length levels.now }
    ensures later { start ≤ result }
    ensures within { result ≤ end }
    ensures uniform { IsAtOneLevel levels.now start result level }
    ensures stops { result + 8 ≤ end → ¬ IsAtOneLevel levels.now result (result + 8) level }
    ensures steps { steps.new + start ≡ steps.old + result }
{
    let mut position = start;
    while end - position >= BLOCK && !has_other_in_eight(levels, position, level) {
        steps.add(BLOCK);
        position += BLOCK;
    }
    position
}

/// Returns the first position from `start` on that has another level than this one, or `end` if there is none, one by
/// one. Each position from `start` on is a step, the returned one among them.
fn end_by_each<L: Ledger>(
    levels: &[Option<Level>],
    start: usize,
    end: usize,
    level: Level,
    steps: &mut Steps<L>,
) -> usize
    requires order { start ≤ end }
    requires within { end ≤ length levels.now }
    ensures later { start ≤ result }
    ensures within { result ≤ end }
    ensures uniform { IsAtOneLevel levels.now start result level }
    ensures stops { (result ≡ end) ⊎ ((v : ℕ) × HasLevel levels.now result v × (v ≢ level)) }
    ensures at_least { steps.old + result ≤ steps.new + start }
    ensures at_most { steps.new + start ≤ steps.old + result + 1 }
{
    for next in start..end {
        steps.tick();
        if has_other_level(levels, next, level) {
            return next;
        }
    }
    end
}

/// Returns the first of the eight positions from `start` on that has another level than this one. Each position from
/// `start` on is a step, the returned one among them.
fn end_in_eight<L: Ledger>(
    levels: &[Option<Level>],
    start: usize,
    level: Level,
    steps: &mut Steps<L>,
) -> usize
    requires within { start + 8 ≤ length levels.now }
    requires other { ¬ IsAtOneLevel levels.now start (start + 8) level }
    ensures later { start ≤ result }
    ensures within { result < start + 8 }
    ensures uniform { IsAtOneLevel levels.now start result level }
    ensures stops { (v : ℕ) × HasLevel levels.now result v × (v ≢ level) }
    ensures steps { steps.new + start ≡ steps.old + result + 1 }
{
    for k in 0..BLOCK {
        steps.tick();
        if has_other_level(levels, start + k, level) {
            return start + k;
        }
    }
    unreachable!()
}

/// Does what `end_by_each` does, but passes eight positions at a time up to the first eight of which one has another
/// level. Never inlined, so that short runs don't pay for it.
#[inline(never)]
fn end_by_eights<L: Ledger>(
    levels: &[Option<Level>],
    start: usize,
    end: usize,
    level: Level,
    steps: &mut Steps<L>,
) -> usize
    requires order { start ≤ end }
    requires within { end ≤ length levels.now }
    ensures later { start ≤ result }
    ensures within { result ≤ end }
    ensures uniform { IsAtOneLevel levels.now start result level }
    ensures stops { (result ≡ end) ⊎ ((v : ℕ) × HasLevel levels.now result v × (v ≢ level)) }
    ensures at_least { steps.old + result ≤ steps.new + start }
    ensures at_most { steps.new + start ≤ steps.old + result + 1 }
{
    let first = pass_eights(levels, start, end, level, steps);
    if end - first >= BLOCK {
        end_in_eight(levels, first, level, steps)
    } else {
        end_by_each(levels, first, end, level, steps)
    }
}

/// How many positions after the first one of a run are read one by one.
const NEAR: usize = 4;

/// Returns the end of the run of this level that begins at the position. Takes at most one step for each position of
/// the run. Reads `NEAR` positions one by one, because passing eight at a time costs more if the run ends among them.
// Inlined, a short run takes fewer instructions.
#[inline(always)]
fn end_of_run<L: Ledger>(
    line: LineSpan<'_>,
    position: usize,
    level: Level,
    steps: &mut Steps<L>,
) -> usize
    requires position { position < line.end }
    requires level { HasLevel line.levels.now position level }
    ensures rises { position < result }
    ensures within { result ≤ line.entry.end }
    ensures uniform { IsAtOneLevel line.entry.levels.now position result level }
    ensures stops { (result ≡ line.entry.end) ⊎ ((v : ℕ) × HasLevel line.entry.levels.now result v × (v ≢ level)) }
    ensures at_least { steps.old + (result - position) ≤ steps.new + 1 }
    ensures at_most { steps.new ≤ steps.old + (result - position) }
{
    let LineSpan { levels, end, .. } = line;
    for next in position + 1..end {
        steps.tick();
        if levels[next].is_some_and(|other| other.get() != level.get()) {
            return next;
        }
        if next - position == NEAR {
            return end_by_eights(levels, next + 1, end, level, steps);
        }
    }
    end
}

/// Returns the stretch of the run of this level that begins at the position and ends at `run_end`.
#[inline(always)]
fn one_run(position: usize, run_end: usize, level: Level) -> Stretch
    requires { position < 2 ^ 32 }
    ensures { result ≡ run_alone position run_end level }
{
    Stretch {
        end: run_end,
        level,
        chain: Chain {
            first: position as u32,
            last: position as u32,
        },
    }
}

/// Starts a stretch with the run of this level that begins at the position. Takes at most one step for each position of
/// the run.
// Inlined, a short run takes fewer instructions.
#[inline(always)]
fn link_run<L: Ledger>(
    line: LineSpan<'_>,
    position: usize,
    level: Level,
    runs: &mut [Run],
    steps: &mut Steps<L>,
) -> Stretch
    requires position { position < line.end }
    requires room { line.end ≤ length runs.old }
    requires small { line.end < 2 ^ 32 }
    requires level { HasLevel line.levels.now position level }
    ensures begins { BeginsRun line.entry.levels.now position level line.entry.end result runs.old runs.new }
    ensures at_least { steps.old + (result.end - position) ≤ steps.new + 1 }
    ensures at_most { steps.new ≤ steps.old + (result.end - position) }
{
    let run_end = end_of_run(line, position, level, steps);
    runs[position].end = run_end as u32;
    one_run(position, run_end, level)
}

/// Returns the level of the position at which a run ends, if it is at least `least`, or none at the line's end.
#[inline(always)]
fn level_from(line: &LineSpan<'_>, run_end: usize, least: u8) -> Option<Level>
    requires within { run_end ≤ line.now.end }
    requires stops { (run_end ≡ line.now.end) ⊎ ((v : ℕ) × HasLevel line.now.levels.now run_end v) }
    ensures { MatchOption result (StopsBelow line.now.levels.now least run_end line.now.end)
        (λ level. (run_end < line.now.end) × HasLevel line.now.levels.now run_end level × (least ≤ level)) }
{
    let LineSpan { levels, end, .. } = *line;
    if run_end >= end {
        return None;
    }
    levels[run_end].filter(|level| level.get() >= least)
}

/// Returns whether the level is at least `least`, and the position at which its run ends has such a level too.
#[inline(always)]
fn continues_above(line: &LineSpan<'_>, run_end: usize, level: Level, least: u8) -> bool
    requires within { run_end ≤ line.now.end }
    requires stops { (run_end ≡ line.now.end) ⊎ ((v : ℕ) × HasLevel line.now.levels.now run_end v) }
    ensures above { result ≡ true → least ≤ level }
    ensures alone { result ≡ false → (level < least) ⊎ StopsBelow line.now.levels.now least run_end line.now.end }
{
    level.get() >= least && level_from(line, run_end, least).is_some()
}

/// Links to the run of this level, which begins at the position and ends at `run_end`, the longest stretch after it
/// whose levels are all at least `least`. Takes at most four steps for each position of that stretch, and one to find
/// its end.
fn link_on<L: Ledger>(
    line: &LineSpan<'_>,
    position: usize,
    run_end: usize,
    level: Level,
    least: u8,
    runs: &mut [Run],
    steps: &mut Steps<L>,
) -> Stretch
    requires begun { IsRunAt line.now.levels.now runs.old line.now.end position run_end level }
    requires room { line.now.end ≤ length runs.old }
    requires small { line.now.end < 2 ^ 32 }
    requires least { least ≤ level }
    ensures linked { IsLinkedStretch line.now.levels.now runs.new position result }
    ensures from { run_end ≤ result.end }
    ensures within { result.end ≤ line.now.end }
    ensures least { least ≤ result.level }
    ensures stops { StopsBelow line.now.levels.now least result.end line.now.end }
    ensures unchanged { (p : ℕ) → p < position → run_in runs.new p ≡ run_in runs.old p }
    ensures at_least { steps.old + (result.end - run_end) + 1 ≤ steps.new }
    ensures at_most { steps.new ≤ steps.old + linking_steps * (result.end - run_end) + 1 }
{
    let span = *line;
    let mut stretch = one_run(position, run_end, level);
    loop {
        steps.tick();
        let start = stretch.end;
        let Some(level) = level_from(&span, start, least) else {
            return stretch;
        };
        let run = link_run(span, start, level, runs, steps);
        let end = run.end;
        let least_above = stretch.level.get() + 1;
        let later = if continues_above(&span, end, level, least_above) {
            link_on(line, start, end, level, least_above, runs, steps)
        } else {
            one_run(start, end, level)
        };
        stretch = stretch.joined(later, runs);
    }
}

/// Links the longest stretch from the position on whose levels are all at least `least`. Takes at most four steps for
/// each position.
fn link_from<L: Ledger>(
    line: &LineSpan<'_>,
    position: usize,
    level: Level,
    least: u8,
    runs: &mut [Run],
    steps: &mut Steps<L>,
) -> Stretch
    requires position { position < line.now.end }
    requires room { line.now.end ≤ length runs.old }
    requires small { line.now.end < 2 ^ 32 }
    requires level { HasLevel line.now.levels.now position level }
    requires least { least ≤ level }
    ensures linked { IsLinkedStretch line.now.levels.now runs.new position result }
    ensures within { result.end ≤ line.now.end }
    ensures least { least ≤ result.level }
    ensures stops { StopsBelow line.now.levels.now least result.end line.now.end }
    ensures unchanged { (p : ℕ) → p < position → run_in runs.new p ≡ run_in runs.old p }
    ensures at_least { steps.old + (result.end - position) ≤ steps.new }
    ensures at_most { steps.new + 1 ≤ steps.old + linking_steps * (result.end - position) }
{
    let span = *line;
    let run = link_run(span, position, level, runs, steps);
    link_on(line, position, run.end, level, least, runs, steps)
}

/// Links the runs of the line from left to right. Returns `None` if no position remains.
pub(crate) fn link_line<L: Ledger>(
    line: LineSpan<'_>,
    runs: &mut [Run],
    steps: &mut Steps<L>,
) -> Option<Chain>
    requires room { line.end ≤ length runs.old }
    requires small { line.end < 2 ^ 32 }
    ensures linked { MatchOption result (order_of line.entry ≡ [])
        (IsChainOfSpan line.entry runs.new) }
    ensures at_least { steps.old + units_in_span line.entry ≤ steps.new }
    ensures at_most { steps.new ≤ steps.old + linking_steps * units_in_span line.entry }
{
    let levels = line.levels;
    for position in line.start..line.end {
        steps.tick();
        if let Some(level) = levels[position] {
            return Some(link_from(&line, position, level, 0, runs, steps).chain);
        }
    }
    None
}
