//! The orders of all lines of a text (L2), written one after another.
ghost use Rattle.std.specs.Prelude.{◌≡◌, ◌<◌, ◌≤◌, ◌+◌, ◌-◌, ◌*◌, ◌^◌, ◌++◌, IfSome, IsTrue, List, ℕ, false, length, take, true};
ghost use Rattle.std.specs.List.{list_all};
ghost use Rattle.std.specs.Option.{is_some};
ghost use Rattle.units.specs.Classes.{classes_of};
ghost use Rattle.units.specs.Isolates.{level_of_para};
ghost use Rattle.units.specs.Layout.{lines_cut_at};
ghost use Rattle.units.specs.Paragraphs.{paragraphs_of};
ghost use Rattle.units.specs.Reordering.{cuts_of};
ghost use Rattle.lines.specs.Bounds.{AreBounds};
ghost use Rattle.lines.specs.Columns.{bounds_filled, bounds_in, lines_filled, orders_filled, HasLineRoom, KeepsLineRoom};
ghost use Rattle.lines.specs.LineEnds.{AreAllLineEnds, AreEndsOfLines};
ghost use Rattle.lines.specs.Spaces.{StaysAtParas};
ghost use Rattle.lines.specs.StepBounds.{uniform_line_steps, uniform_order_steps, line_steps, order_steps};
ghost use Rattle.lines.specs.Spans.{IsSpanAtLevel, order_of, units_in_span};

use crate::bounds::Bound;
use crate::columns::LineColumns;
use crate::order::{write_known_order, write_order};
use crate::resolving::ResolvedText;
use crate::runs::Run;
use crate::spans::LineSpan;
use std::sync::ledger::Ledger;
use units::bracket::Unit;
use units::level::{Level, ParaLevel};
use units::steps::Steps;

/// How much of the column of orders and of that of bounds the lines of a text use.
#[derive(Clone, Copy)]
pub struct Filled {
    /// The number of lines. There is one more bound than lines.
    pub lines: usize,
    /// The number of positions in all orders.
    pub positions: usize,
}

/// Appends the order of one line to the orders that are written, and returns how many positions they then have.
// Inlined, a short text takes fewer instructions.
#[inline(always)]
fn write_line<L: Ledger>(
    line: LineSpan<'_>,
    uniform: Option<ParaLevel>,
    written: usize,
    runs: &mut [Run],
    orders: &mut [usize],
    steps: &mut Steps<L>,
) -> usize
    requires small { line.end < 2 ^ 32 }
    requires uniform { IfSome uniform (λ level. IsSpanAtLevel line (level_of_para level)) }
    requires few { written ≤ line.start }
    requires runs { line.end ≤ length runs.old }
    requires orders { line.end ≤ length orders.old }
    ensures order { take result orders.new ≡ take written orders.old ++ order_of line.entry }
    ensures few { result ≤ line.entry.end }
    ensures at_least { steps.old + units_in_span line.entry ≤ steps.new }
    ensures at_most { steps.new ≤ steps.old + order_steps * units_in_span line.entry }
    ensures if_uniform { IfSome uniform (λ _. steps.new ≤ steps.old + uniform_order_steps * units_in_span line.entry) }
    ensures twice { IfSome uniform (λ _. steps.old + 2 * units_in_span line.entry ≤ steps.new + 1) }
{
    written + write_order(line, uniform, runs, &mut orders[written..], steps)
}

/// Does what `fill_lines` does, for a text of one line.
#[inline(always)]
fn fill_line<L: Ledger>(
    own: &[Unit],
    resolved: ResolvedText,
    paras: &[ParaLevel],
    levels: &[Option<Level>],
    columns: &mut LineColumns,
    steps: &mut Steps<L>,
) -> Filled
    requires one { resolved.lines ≡ 1 }
    requires ends { AreEndsOfLines own.now 1 (bounds_in columns.old) }
    requires some { 0 < length own.now }
    requires paras { length paras.now ≡ length (paragraphs_of own.now) }
    requires levels { length levels.now ≡ length own.now }
    requires uniform { IsTrue resolved.uniform → StaysAtParas own.now paras.now levels.now }
    requires complete { IsTrue resolved.uniform → resolved.complete ≡ true → list_all is_some levels.now ≡ true }
    requires small { length own.now < 2 ^ 32 }
    requires room { HasLineRoom columns.old (length own.now) }
    ensures room { KeepsLineRoom columns.old columns.new }
    ensures bounds { AreBounds levels.now (orders_filled result columns.new) (bounds_filled result columns.new) }
    ensures lines { (breaks : List ℕ) → AreAllLineEnds own.now breaks 1 (bounds_in columns.old)
        → lines_filled result columns.new ≡ lines_cut_at levels.now (cuts_of (classes_of own.now) breaks) }
    ensures all { result.lines ≡ 1 }
    ensures few_positions { result.positions ≤ length own.now }
    ensures at_least { steps.old + length own.now + 1 ≤ steps.new }
    ensures at_most { steps.new ≤ steps.old + line_steps * length own.now }
    ensures if_uniform { IsTrue resolved.uniform → steps.new ≤ steps.old + uniform_line_steps * length own.now }
    ensures twice { IsTrue resolved.uniform → resolved.complete ≡ false
        → steps.old + 2 * length own.now ≤ steps.new }
{
    steps.tick();
    let runs: &mut [Run] = &mut columns.runs;
    let orders: &mut [usize] = &mut columns.orders;
    let bounds: &mut [Bound] = &mut columns.bounds;
    let span = LineSpan {
        levels,
        start: 0,
        end: levels.len(),
    };
    let level = resolved.uniform.then_some(paras[0]);
    let positions = write_known_order(span, level, resolved.complete, runs, orders, steps);
    bounds[1].order = positions as u32;
    Filled {
        lines: 1,
        positions,
    }
}

/// Writes the orders of a text's lines (L2) to the front of their column, and returns the number of lines and of
/// positions. The bounds already have the ends of the lines in the text; the function adds the ends of their orders.
///
/// `paras` has the levels of the paragraphs, and `levels` the levels of the positions after L1. For a text of n
/// positions it takes at least n and at most `7 * n` steps, however many lines it has. It takes at most `3 * n` if each
/// remaining position is known to have the level of its paragraph.
// Inlined, a short text takes fewer instructions.
#[inline(always)]
pub(crate) fn fill_lines<L: Ledger>(
    own: &[Unit],
    resolved: ResolvedText,
    paras: &[ParaLevel],
    levels: &[Option<Level>],
    columns: &mut LineColumns,
    steps: &mut Steps<L>,
) -> Filled
    requires ends { AreEndsOfLines own.now resolved.lines (bounds_in columns.old) }
    requires few { resolved.lines ≤ length own.now }
    requires paras { length paras.now ≡ length (paragraphs_of own.now) }
    requires levels { length levels.now ≡ length own.now }
    requires uniform { IsTrue resolved.uniform → StaysAtParas own.now paras.now levels.now }
    requires complete { IsTrue resolved.uniform → resolved.complete ≡ true → list_all is_some levels.now ≡ true }
    requires small { length own.now < 2 ^ 32 }
    requires room { HasLineRoom columns.old (length own.now) }
    ensures room { KeepsLineRoom columns.old columns.new }
    ensures bounds { AreBounds levels.now (orders_filled result columns.new) (bounds_filled result columns.new) }
    ensures lines { (breaks : List ℕ) → AreAllLineEnds own.now breaks resolved.lines (bounds_in columns.old)
        → lines_filled result columns.new ≡ lines_cut_at levels.now (cuts_of (classes_of own.now) breaks) }
    ensures all { result.lines ≡ resolved.lines }
    ensures few_positions { result.positions ≤ length own.now }
    ensures at_least { steps.old + length own.now + resolved.lines ≤ steps.new }
    ensures at_most { steps.new ≤ steps.old + line_steps * length own.now }
    ensures if_uniform { IsTrue resolved.uniform → steps.new ≤ steps.old + uniform_line_steps * length own.now }
    ensures twice { IsTrue resolved.uniform → resolved.complete ≡ false
        → steps.old + 2 * length own.now ≤ steps.new }
{
    if resolved.lines == 1 {
        return fill_line(own, resolved, paras, levels, columns, steps);
    }
    let runs: &mut [Run] = &mut columns.runs;
    let orders: &mut [usize] = &mut columns.orders;
    let bounds: &mut [Bound] = &mut columns.bounds;
    let mut positions = 0;
    let mut paragraph = 0;
    for line in 0..resolved.lines {
        steps.tick();
        let end = bounds[line + 1].position as usize;
        let span = LineSpan {
            levels,
            start: bounds[line].position as usize,
            end,
        };
        let level = resolved.uniform.then_some(paras[paragraph]);
        positions = write_line(span, level, positions, runs, orders, steps);
        bounds[line + 1].order = positions as u32;
        paragraph += usize::from(own[end - 1].class.is_separator());
    }
    Filled {
        lines: resolved.lines,
        positions,
    }
}
