//! The remaining positions of a span (X9), written in rising or falling order.
ghost use Rattle.std.specs.Prelude.{◌≡◌, ◌<◌, ◌≤◌, ◌+◌, ◌-◌, ◌^◌, ◌++◌, length, reverse, take, true};
ghost use Rattle.units.specs.Positions.{positions_from};
ghost use Rattle.lines.specs.AllRemaining.{AllRemain};
ghost use Rattle.lines.specs.LinePositions.{remaining};
ghost use Rattle.lines.specs.Spans.{remaining_in, units_in_span};

use crate::spans::LineSpan;
use std::sync::ledger::Ledger;
use units::level::Level;
use units::steps::Steps;

/// Returns whether X9 removed none of the four positions from this one on.
fn four_remain(levels: &[Option<Level>], position: usize) -> bool
    requires { position + 4 ≤ length levels.now }
    ensures { result ≡ true → AllRemain levels.now position (position + 4) }
{
    levels[position].is_some()
        & levels[position + 1].is_some()
        & levels[position + 2].is_some()
        & levels[position + 3].is_some()
}

/// Returns whether X9 removed none of the eight positions from this one on.
fn eight_remain(levels: &[Option<Level>], position: usize) -> bool
    requires { position + 8 ≤ length levels.now }
    ensures { result ≡ true → AllRemain levels.now position (position + 8) }
{
    four_remain(levels, position) & four_remain(levels, position + 4)
}

/// How many positions are written at once if X9 removed none of them.
// The functions that write a block are inlined, so that it takes no call.
const BLOCK: usize = 8;

/// Writes the remaining positions of a span to the front of `order`, rising, one by one, and returns their number.
/// Takes one step for each position of the span.
// Inlined, short runs take fewer instructions.
#[inline(always)]
pub(crate) fn write_each_rising<L: Ledger>(
    span: LineSpan<'_>,
    order: &mut [usize],
    steps: &mut Steps<L>,
) -> usize
    requires room { units_in_span span ≤ length order.old }
    ensures order { take result order.new ≡ remaining_in span.entry }
    ensures count { result ≤ units_in_span span.entry }
    ensures steps { steps.new ≡ steps.old + units_in_span span.entry }
{
    let LineSpan { levels, start, end } = span;
    let mut count = 0;
    for position in start..end {
        steps.tick();
        order[count] = position;
        count += usize::from(levels[position].is_some());
    }
    count
}

/// Writes the remaining positions of a span after the first `count` items of `order`, rising, one by one, and returns
/// how many items are then written. Takes one step for each position of the span.
fn append_each_rising<L: Ledger>(
    span: LineSpan<'_>,
    order: &mut [usize],
    count: usize,
    steps: &mut Steps<L>,
) -> usize
    requires room { count + units_in_span span ≤ length order.old }
    ensures order { take result order.new ≡ take count order.old ++ remaining_in span.entry }
    ensures few { result ≤ count + units_in_span span.entry }
    ensures steps { steps.new ≡ steps.old + units_in_span span.entry }
{
    count + write_each_rising(span, &mut order[count..], steps)
}

/// Writes a position after the first `count` items of `order` unless X9 removed it, and returns how many items are then
/// written.
#[inline(always)]
fn append_one(levels: &[Option<Level>], position: usize, order: &mut [usize], count: usize) -> usize
    requires within { position < length levels.now }
    requires room { count < length order.old }
    ensures order { take result order.new ≡ take count order.old ++ remaining levels.now position (position + 1) }
    ensures few { result ≤ count + 1 }
{
    order[count] = position;
    count + usize::from(levels[position].is_some())
}

/// Writes the remaining ones of the four positions from `start` on after the first `count` items of `order`, rising,
/// and returns how many items are then written.
#[inline(always)]
fn append_four_rising(
    levels: &[Option<Level>],
    start: usize,
    order: &mut [usize],
    count: usize,
) -> usize
    requires within { start + 4 ≤ length levels.now }
    requires room { count + 4 ≤ length order.old }
    ensures order { take result order.new ≡ take count order.old ++ remaining levels.now start (start + 4) }
    ensures few { result ≤ count + 4 }
{
    let one = append_one(levels, start, order, count);
    let two = append_one(levels, start + 1, order, one);
    let three = append_one(levels, start + 2, order, two);
    append_one(levels, start + 3, order, three)
}

/// Writes the eight positions from `start` on to the front of `order`, rising.
#[inline(always)]
fn write_all_of_eight_rising(start: usize, order: &mut [usize])
    requires small { start + 8 < 2 ^ 64 }
    requires room { 8 ≤ length order.old }
    ensures { take 8 order.new ≡ positions_from start 8 }
{
    order[0] = start;
    order[1] = start + 1;
    order[2] = start + 2;
    order[3] = start + 3;
    order[4] = start + 4;
    order[5] = start + 5;
    order[6] = start + 6;
    order[7] = start + 7;
}

/// Writes the remaining ones of the eight positions from `start` on to the front of `order`, rising, and returns their
/// number. Writes the eight at once if X9 removed none of them.
#[inline(always)]
fn write_eight_rising(levels: &[Option<Level>], start: usize, order: &mut [usize]) -> usize
    requires within { start + 8 ≤ length levels.now }
    requires room { 8 ≤ length order.old }
    ensures order { take result order.new ≡ remaining levels.now start (start + 8) }
    ensures count { result ≤ 8 }
{
    if eight_remain(levels, start) {
        write_all_of_eight_rising(start, order);
        return BLOCK;
    }
    let half = append_four_rising(levels, start, order, 0);
    append_four_rising(levels, start + 4, order, half)
}

/// Writes the remaining ones of the eight positions from `start` on after the first `count` items of `order`, rising,
/// and returns how many items are then written.
#[inline(always)]
fn append_eight_rising(
    levels: &[Option<Level>],
    start: usize,
    order: &mut [usize],
    count: usize,
) -> usize
    requires within { start + 8 ≤ length levels.now }
    requires room { count + 8 ≤ length order.old }
    ensures order { take result order.new ≡ take count order.old ++ remaining levels.now start (start + 8) }
    ensures few { result ≤ count + 8 }
{
    count + write_eight_rising(levels, start, &mut order[count..])
}

/// Writes the remaining positions from `start` up to `end` to the front of `order`, rising, eight at a time. Returns
/// their number. Takes one step for each position. Never inlined, so that short runs don't pay for it.
#[inline(never)]
fn write_eights_rising<L: Ledger>(
    levels: &[Option<Level>],
    start: usize,
    end: usize,
    order: &mut [usize],
    steps: &mut Steps<L>,
) -> usize
    requires forward { start ≤ end }
    requires within { end ≤ length levels.now }
    requires room { end - start ≤ length order.old }
    ensures order { take result order.new ≡ remaining levels.now start end }
    ensures count { result ≤ end - start }
    ensures steps { steps.new ≡ steps.old + (end - start) }
{
    let mut count = 0;
    let mut position = start;
    while end - position >= BLOCK {
        steps.add(BLOCK);
        count = append_eight_rising(levels, position, order, count);
        position += BLOCK;
    }
    let rest = LineSpan {
        levels,
        start: position,
        end,
    };
    append_each_rising(rest, order, count, steps)
}

/// Writes the remaining positions of a span to the front of `order`, rising, and returns their number. Takes one step
/// for each position of the span.
pub(crate) fn write_rising<L: Ledger>(
    span: LineSpan<'_>,
    order: &mut [usize],
    steps: &mut Steps<L>,
) -> usize
    requires room { units_in_span span ≤ length order.old }
    ensures order { take result order.new ≡ remaining_in span.entry }
    ensures count { result ≤ units_in_span span.entry }
    ensures steps { steps.new ≡ steps.old + units_in_span span.entry }
{
    if span.end - span.start < BLOCK {
        return write_each_rising(span, order, steps);
    }
    let LineSpan { levels, start, end } = span;
    write_eights_rising(levels, start, end, &mut order[..end - start], steps)
}

/// Does what `write_each_rising` does, but in falling order.
// Inlined, short runs take fewer instructions.
#[inline(always)]
pub(crate) fn write_each_falling<L: Ledger>(
    span: LineSpan<'_>,
    order: &mut [usize],
    steps: &mut Steps<L>,
) -> usize
    requires room { units_in_span span ≤ length order.old }
    ensures order { take result order.new ≡ reverse (remaining_in span.entry) }
    ensures count { result ≤ units_in_span span.entry }
    ensures steps { steps.new ≡ steps.old + units_in_span span.entry }
{
    let LineSpan { levels, start, end } = span;
    let mut count = 0;
    for position in (start..end).rev() {
        steps.tick();
        order[count] = position;
        count += usize::from(levels[position].is_some());
    }
    count
}

/// Does what `append_each_rising` does, but in falling order.
fn append_each_falling<L: Ledger>(
    span: LineSpan<'_>,
    order: &mut [usize],
    count: usize,
    steps: &mut Steps<L>,
) -> usize
    requires room { count + units_in_span span ≤ length order.old }
    ensures order { take result order.new ≡ take count order.old ++ reverse (remaining_in span.entry) }
    ensures few { result ≤ count + units_in_span span.entry }
    ensures steps { steps.new ≡ steps.old + units_in_span span.entry }
{
    count + write_each_falling(span, &mut order[count..], steps)
}

/// Does what `append_four_rising` does, but in falling order.
#[inline(always)]
fn append_four_falling(
    levels: &[Option<Level>],
    start: usize,
    order: &mut [usize],
    count: usize,
) -> usize
    requires within { start + 4 ≤ length levels.now }
    requires room { count + 4 ≤ length order.old }
    ensures order { take result order.new ≡ take count order.old ++ reverse (remaining levels.now start (start + 4)) }
    ensures few { result ≤ count + 4 }
{
    let one = append_one(levels, start + 3, order, count);
    let two = append_one(levels, start + 2, order, one);
    let three = append_one(levels, start + 1, order, two);
    append_one(levels, start, order, three)
}

/// Does what `write_all_of_eight_rising` does, but in falling order.
#[inline(always)]
fn write_all_of_eight_falling(start: usize, order: &mut [usize])
    requires small { start + 8 < 2 ^ 64 }
    requires room { 8 ≤ length order.old }
    ensures { take 8 order.new ≡ reverse (positions_from start 8) }
{
    order[0] = start + 7;
    order[1] = start + 6;
    order[2] = start + 5;
    order[3] = start + 4;
    order[4] = start + 3;
    order[5] = start + 2;
    order[6] = start + 1;
    order[7] = start;
}

/// Does what `write_eight_rising` does, but in falling order.
#[inline(always)]
fn write_eight_falling(levels: &[Option<Level>], start: usize, order: &mut [usize]) -> usize
    requires within { start + 8 ≤ length levels.now }
    requires room { 8 ≤ length order.old }
    ensures order { take result order.new ≡ reverse (remaining levels.now start (start + 8)) }
    ensures count { result ≤ 8 }
{
    if eight_remain(levels, start) {
        write_all_of_eight_falling(start, order);
        return BLOCK;
    }
    let half = append_four_falling(levels, start + 4, order, 0);
    append_four_falling(levels, start, order, half)
}

/// Does what `append_eight_rising` does, but in falling order.
#[inline(always)]
fn append_eight_falling(
    levels: &[Option<Level>],
    start: usize,
    order: &mut [usize],
    count: usize,
) -> usize
    requires within { start + 8 ≤ length levels.now }
    requires room { count + 8 ≤ length order.old }
    ensures order { take result order.new ≡ take count order.old ++ reverse (remaining levels.now start (start + 8)) }
    ensures few { result ≤ count + 8 }
{
    count + write_eight_falling(levels, start, &mut order[count..])
}

/// Does what `write_eights_rising` does, but in falling order.
#[inline(never)]
fn write_eights_falling<L: Ledger>(
    levels: &[Option<Level>],
    start: usize,
    end: usize,
    order: &mut [usize],
    steps: &mut Steps<L>,
) -> usize
    requires forward { start ≤ end }
    requires within { end ≤ length levels.now }
    requires room { end - start ≤ length order.old }
    ensures order { take result order.new ≡ reverse (remaining levels.now start end) }
    ensures count { result ≤ end - start }
    ensures steps { steps.new ≡ steps.old + (end - start) }
{
    let mut count = 0;
    let mut position = end;
    while position - start >= BLOCK {
        steps.add(BLOCK);
        position -= BLOCK;
        count = append_eight_falling(levels, position, order, count);
    }
    let rest = LineSpan {
        levels,
        start,
        end: position,
    };
    append_each_falling(rest, order, count, steps)
}

/// Does what `write_rising` does, but in falling order.
pub(crate) fn write_falling<L: Ledger>(
    span: LineSpan<'_>,
    order: &mut [usize],
    steps: &mut Steps<L>,
) -> usize
    requires room { units_in_span span ≤ length order.old }
    ensures order { take result order.new ≡ reverse (remaining_in span.entry) }
    ensures count { result ≤ units_in_span span.entry }
    ensures steps { steps.new ≡ steps.old + units_in_span span.entry }
{
    if span.end - span.start < BLOCK {
        return write_each_falling(span, order, steps);
    }
    let LineSpan { levels, start, end } = span;
    write_eights_falling(levels, start, end, &mut order[..end - start], steps)
}
