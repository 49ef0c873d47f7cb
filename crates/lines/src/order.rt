//! The order of the positions of one line (L2).
ghost use Rattle.std.specs.Prelude.{◌≡◌, ◌≤◌, ◌<◌, ◌+◌, ◌-◌, ◌*◌, ◌^◌, ◌++◌, IfSome, false, length, reverse, slice_range, take, true};
ghost use Rattle.std.specs.List.{list_all};
ghost use Rattle.std.specs.Option.{is_some};
ghost use Rattle.units.specs.Isolates.{level_of_para};
ghost use Rattle.units.specs.Positions.{positions_from};
ghost use Rattle.lines.specs.Spans.{IsRun, IsSpanAtLevel, order_of, remaining_in, units_in_span};
ghost use Rattle.lines.specs.StepBounds.{uniform_order_steps, order_steps, parts_of};

use crate::positions::{all_remain, count_down, count_up};
use crate::runs::{Run, link_line};
use crate::spans::LineSpan;
use crate::writing::{write_each_falling, write_each_rising, write_falling, write_rising};
use std::sync::ledger::Ledger;
use units::level::ParaLevel;
use units::steps::Steps;

/// Writes all positions from `start` up to `end` to the front of `order`, as they are shown from left to right at this
/// level. Takes one step for each.
fn write_all<L: Ledger>(
    start: usize,
    end: usize,
    level: ParaLevel,
    order: &mut [usize],
    steps: &mut Steps<L>,
)
    requires line { start ≤ end }
    requires room { end - start ≤ length order.old }
    ensures even { level_of_para level ≡ 0 → take (end - start) order.new ≡ positions_from start (end - start) }
    ensures odd { level_of_para level ≡ 1
        → take (end - start) order.new ≡ reverse (positions_from start (end - start)) }
    ensures steps { steps.new ≡ steps.old + (end - start) }
{
    let places = &mut order[..end - start];
    match level {
        ParaLevel::Zero => count_up(start, places, steps),
        ParaLevel::One => count_down(end, places, steps),
    }
}

#[tactic(auto, using(crate::proofs::RunWriting::run_one, crate::proofs::RunWriting::one_written))]
/// Writes the remaining positions of a run from left to right to the front of `order`, and returns their number. Takes
/// one step for each position of the run.
fn write_run<L: Ledger>(run: LineSpan<'_>, order: &mut [usize], steps: &mut Steps<L>) -> usize
    requires run { IsRun run }
    requires room { units_in_span run ≤ length order.old }
    ensures order { take result order.new ≡ order_of run.entry }
    ensures some { 0 < result }
    ensures count { result ≤ units_in_span run.entry }
    ensures steps { steps.new ≡ steps.old + units_in_span run.entry }
{
    if run.end - run.start == 1 {
        steps.tick();
        order[0] = run.start;
        return 1;
    }
    let levels = run.levels;
    if levels[run.start].is_some_and(|level| level.get() % 2 == 1) {
        write_falling(run, order, steps)
    } else {
        write_rising(run, order, steps)
    }
}

/// Writes the remaining positions of a run after the first `count` items of `order`, and returns how many items are
/// then written. Takes one step for each position of the run.
fn append_run<L: Ledger>(
    run: LineSpan<'_>,
    order: &mut [usize],
    count: usize,
    steps: &mut Steps<L>,
) -> usize
    requires run { IsRun run }
    requires room { count + units_in_span run ≤ length order.old }
    ensures order { take result order.new ≡ take count order.old ++ order_of run.entry }
    ensures some { count < result }
    ensures few { result ≤ count + units_in_span run.entry }
    ensures steps { steps.new ≡ steps.old + units_in_span run.entry }
{
    count + write_run(run, &mut order[count..], steps)
}

/// Writes the order of a line from its runs, which it first links in `runs`.
fn write_runs<L: Ledger>(
    line: LineSpan<'_>,
    runs: &mut [Run],
    order: &mut [usize],
    steps: &mut Steps<L>,
) -> usize
    requires runs { line.end ≤ length runs.old }
    requires small { line.end < 2 ^ 32 }
    requires room { units_in_span line ≤ length order.old }
    ensures order { take result order.new ≡ order_of line.entry }
    ensures count { result ≤ units_in_span line.entry }
    ensures at_least { steps.old + units_in_span line.entry ≤ steps.new }
    ensures at_most { steps.new ≤ steps.old + order_steps * units_in_span line.entry }
{
    let Some(chain) = link_line(line, runs, steps) else {
        return 0;
    };
    let levels = line.levels;
    let mut count = 0;
    let mut position = chain.first;
    loop {
        steps.tick();
        let link = &runs[position as usize];
        let run = LineSpan {
            levels,
            start: position as usize,
            end: link.end as usize,
        };
        count = append_run(run, order, count, steps);
        if position == chain.last {
            return count;
        }
        position = link.next;
    }
}

/// Writes the remaining positions of a part of a line from left to right to the front of `order`, and returns their
/// number. All of them have this level. Takes two steps for each position of the part: to look whether X9 removed it,
/// and to write it.
fn write_part<L: Ledger>(
    part: LineSpan<'_>,
    level: ParaLevel,
    order: &mut [usize],
    steps: &mut Steps<L>,
) -> usize
    requires level { IsSpanAtLevel part (level_of_para level) }
    requires room { units_in_span part ≤ length order.old }
    ensures order { take result order.new ≡ order_of part.entry }
    ensures count { result ≤ units_in_span part.entry }
    ensures steps { steps.new ≡ steps.old + 2 * units_in_span part.entry }
{
    let LineSpan { levels, start, end } = part;
    if all_remain(&levels[start..end], steps) {
        write_all(start, end, level, order, steps);
        return end - start;
    }
    match level {
        ParaLevel::Zero => write_rising(part, order, steps),
        ParaLevel::One => write_falling(part, order, steps),
    }
}

/// Writes the remaining positions of a part of a line after the first `count` items of `order`, and returns how many
/// items are then written. Takes the steps of `write_part`.
fn append_part<L: Ledger>(
    part: LineSpan<'_>,
    level: ParaLevel,
    order: &mut [usize],
    count: usize,
    steps: &mut Steps<L>,
) -> usize
    requires level { IsSpanAtLevel part (level_of_para level) }
    requires room { count + units_in_span part ≤ length order.old }
    ensures order { take result order.new ≡ take count order.old ++ order_of part.entry }
    ensures few { result ≤ count + units_in_span part.entry }
    ensures steps { steps.new ≡ steps.old + 2 * units_in_span part.entry }
{
    count + write_part(part, level, &mut order[count..], steps)
}

/// How many positions a part has in which `write_parts` looks for removed ones at once.
const PART: usize = 128;

/// Writes the remaining positions of a line at level 0 to the front of `order`, part by part, and returns their number.
/// Takes two steps for each position, and one for each part.
fn write_parts_rising<L: Ledger>(
    line: LineSpan<'_>,
    order: &mut [usize],
    steps: &mut Steps<L>,
) -> usize
    requires level { IsSpanAtLevel line 0 }
    requires room { units_in_span line ≤ length order.old }
    ensures order { take result order.new ≡ remaining_in line.entry }
    ensures count { result ≤ units_in_span line.entry }
    ensures steps { steps.new ≡ steps.old + 2 * units_in_span line.entry + parts_of (units_in_span line.entry) }
{
    let LineSpan { levels, start, end } = line;
    let mut count = 0;
    let mut position = start;
    while position < end {
        steps.tick();
        let next = position + PART.min(end - position);
        let part = LineSpan {
            levels,
            start: position,
            end: next,
        };
        count = append_part(part, ParaLevel::Zero, order, count, steps);
        position = next;
    }
    count
}

/// Does the same at level 1: falling, from the last part on.
fn write_parts_falling<L: Ledger>(
    line: LineSpan<'_>,
    order: &mut [usize],
    steps: &mut Steps<L>,
) -> usize
    requires level { IsSpanAtLevel line 1 }
    requires room { units_in_span line ≤ length order.old }
    ensures order { take result order.new ≡ reverse (remaining_in line.entry) }
    ensures count { result ≤ units_in_span line.entry }
    ensures steps { steps.new ≡ steps.old + 2 * units_in_span line.entry + parts_of (units_in_span line.entry) }
{
    let LineSpan { levels, start, end } = line;
    let mut count = 0;
    let mut position = end;
    while position > start {
        steps.tick();
        let next = position - PART.min(position - start);
        let part = LineSpan {
            levels,
            start: next,
            end: position,
        };
        count = append_part(part, ParaLevel::One, order, count, steps);
        position = next;
    }
    count
}

/// Does what `write_part` does, for a line, part by part. Takes one more step for each part.
// Inlined, short lines take more instructions.
#[inline(never)]
fn write_parts<L: Ledger>(
    line: LineSpan<'_>,
    level: ParaLevel,
    order: &mut [usize],
    steps: &mut Steps<L>,
) -> usize
    requires level { IsSpanAtLevel line (level_of_para level) }
    requires room { units_in_span line ≤ length order.old }
    ensures order { take result order.new ≡ order_of line.entry }
    ensures count { result ≤ units_in_span line.entry }
    ensures steps { steps.new ≡ steps.old + 2 * units_in_span line.entry + parts_of (units_in_span line.entry) }
{
    match level {
        ParaLevel::Zero => write_parts_rising(line, order, steps),
        ParaLevel::One => write_parts_falling(line, order, steps),
    }
}

/// Writes the order of a line (L2) to the front of `order`: its remaining positions from left to right. Returns their
/// number.
///
/// `order` needs an item for each unit of the line; items after the returned number have any value. `runs` needs an
/// item for each unit of the text up to the line's end. `uniform` is the level of all remaining positions of the line,
/// if that is known. On a line of n positions it takes between n and `6 * n` steps, and at most `2 * n` if that level
/// is known.
// Inlined, a short text takes fewer instructions.
#[inline(always)]
pub fn write_order<L: Ledger>(
    line: LineSpan<'_>,
    uniform: Option<ParaLevel>,
    runs: &mut [Run],
    order: &mut [usize],
    steps: &mut Steps<L>,
) -> usize
    requires uniform { IfSome uniform (λ level. IsSpanAtLevel line (level_of_para level)) }
    requires runs { line.end ≤ length runs.old }
    requires small { line.end < 2 ^ 32 }
    requires room { units_in_span line ≤ length order.old }
    ensures order { take result order.new ≡ order_of line.entry }
    ensures count { result ≤ units_in_span line.entry }
    ensures at_least { steps.old + units_in_span line.entry ≤ steps.new }
    ensures at_most { steps.new ≤ steps.old + order_steps * units_in_span line.entry }
    ensures if_uniform { IfSome uniform (λ _. steps.new ≤ steps.old + uniform_order_steps * units_in_span line.entry) }
    ensures twice { IfSome uniform (λ _. steps.old + 2 * units_in_span line.entry ≤ steps.new + 1) }
{
    let Some(level) = uniform else {
        return write_runs(line, runs, order, steps);
    };
    let LineSpan { levels, start, end } = line;
    if end - start > 1 && all_remain(&levels[start..end], steps) {
        write_all(start, end, level, order, steps);
        return end - start;
    }
    match level {
        ParaLevel::Zero => write_each_rising(line, order, steps),
        ParaLevel::One => write_each_falling(line, order, steps),
    }
}

/// Does what `write_order` does. If `complete`, X9 removed no position of the line, so the function doesn't look for
/// such positions. In a long line of one level it looks for them part by part. Each part takes a step, and a line that
/// has parts has fewer of them than positions.
#[inline(always)]
pub(crate) fn write_known_order<L: Ledger>(
    line: LineSpan<'_>,
    uniform: Option<ParaLevel>,
    complete: bool,
    runs: &mut [Run],
    order: &mut [usize],
    steps: &mut Steps<L>,
) -> usize
    requires uniform { IfSome uniform (λ level. IsSpanAtLevel line (level_of_para level)) }
    requires complete { IfSome uniform (λ _. complete ≡ true
        → list_all is_some (slice_range line.levels.now line.start line.end) ≡ true) }
    requires runs { line.end ≤ length runs.old }
    requires small { line.end < 2 ^ 32 }
    requires room { units_in_span line ≤ length order.old }
    ensures order { take result order.new ≡ order_of line.entry }
    ensures count { result ≤ units_in_span line.entry }
    ensures at_least { steps.old + units_in_span line.entry ≤ steps.new }
    ensures at_most { steps.new ≤ steps.old + order_steps * units_in_span line.entry }
    ensures if_uniform { IfSome uniform (λ _.
        steps.new ≤ steps.old + uniform_order_steps * units_in_span line.entry + (units_in_span line.entry - 1)) }
    ensures twice { IfSome uniform (λ _. complete ≡ false
        → steps.old + 2 * units_in_span line.entry ≤ steps.new + 1) }
{
    match uniform {
        Some(level) if complete => {
            write_all(line.start, line.end, level, order, steps);
            line.end - line.start
        }
        Some(_) if line.end - line.start == 1 => write_each_rising(line, order, steps),
        Some(level) if line.end - line.start > PART => write_parts(line, level, order, steps),
        _ => write_order(line, uniform, runs, order, steps),
    }
}
