//! The levels of a text after L1, and the orders of its lines (L2).
ghost use Rattle.std.specs.Prelude.{◌≡◌, ◌≤◌, ◌<◌, ◌+◌, ◌*◌, ◌^◌, false, length, true, take, IsTrue};
ghost use Rattle.std.specs.List.{list_all};
ghost use Rattle.std.specs.Option.{is_some};
ghost use Rattle.units.specs.Classes.{classes_of};
ghost use Rattle.units.specs.Layout.{lines_cut_at};
ghost use Rattle.units.specs.Paragraphs.{paragraphs_of};
ghost use Rattle.units.specs.Reordering.{cuts_of};
ghost use Rattle.lines.specs.Bounds.{AreBounds};
ghost use Rattle.lines.specs.Columns.{bounds_filled, bounds_in, lines_filled, orders_filled};
ghost use Rattle.lines.specs.Columns.{HasLineRoom, KeepsLineRoom};
ghost use Rattle.lines.specs.LineEnds.{AreAllLineEnds, AreAllParagraphEnds};
ghost use Rattle.lines.specs.Spaces.{HasNoSegments, StaysAtParas, levels_reset};
ghost use Rattle.lines.specs.StepBounds.{arranging_steps, uniform_line_steps};

use crate::breaks::Breaks;
use crate::columns::LineColumns;
use crate::filling::{Filled, fill_lines};
use crate::resets::reset_unless_uniform;
use crate::resolving::{ResolvedText, TextWithParagraphs};
use std::sync::ledger::Ledger;
use units::level::Level;
use units::steps::Steps;

/// Resets the levels of a text at the front of their column (L1), and writes the orders of its lines (L2) to the front
/// of theirs. The bounds already have the ends of the lines in the text; the function adds the ends of their orders. It
/// resets no level if each remaining position is known to have the level of its paragraph.
// Inlined, a short text takes fewer instructions.
#[inline(always)]
pub(crate) fn arrange<L: Ledger>(
    text: TextWithParagraphs<'_>,
    breaks: &Breaks,
    resolved: ResolvedText,
    levels: &mut [Option<Level>],
    columns: &mut LineColumns,
    steps: &mut Steps<L>,
) -> Filled
    requires len { breaks.now.len ≡ length text.units.now }
    requires levels { length text.units.now ≤ length levels.old }
    requires paras { length text.paras.now ≡ length (paragraphs_of text.units.now) }
    requires para_ends { AreAllParagraphEnds text.units.now text.para_ends.now }
    requires each { length text.para_ends.now ≡ length text.paras.now }
    requires segments { resolved.segmented ≡ false → HasNoSegments text.units.now }
    requires uniform { IsTrue resolved.uniform → StaysAtParas text.units.now text.paras.now
        (take (length text.units.now) levels.old) }
    requires complete { resolved.complete ≡ true
        → list_all is_some (take (length text.units.now) levels.old) ≡ true }
    requires small { length text.units.now < 2 ^ 32 }
    requires room { HasLineRoom columns.old (length text.units.now) }
    requires ends { AreAllLineEnds text.units.now breaks.now.positions resolved.lines (bounds_in columns.old) }
    requires few { resolved.lines ≤ length text.units.now }
    ensures room { KeepsLineRoom columns.old columns.new }
    ensures levels { take (length text.entry.units.now) levels.new
        ≡ levels_reset text.entry.units.now breaks.now.positions text.entry.paras.now
        (take (length text.entry.units.now) levels.old) }
    ensures bounds { AreBounds (take (length text.entry.units.now) levels.new) (orders_filled result columns.new)
        (bounds_filled result columns.new) }
    ensures lines { lines_filled result columns.new
        ≡ lines_cut_at (take (length text.entry.units.now) levels.new)
        (cuts_of (classes_of text.entry.units.now) breaks.now.positions) }
    ensures same { IsTrue resolved.uniform
        → take (length text.entry.units.now) levels.new ≡ take (length text.entry.units.now) levels.old }
    ensures all { result.lines ≡ resolved.lines }
    ensures few_positions { result.positions ≤ length text.entry.units.now }
    ensures at_least { steps.old + length text.entry.units.now ≤ steps.new }
    ensures at_most { steps.new ≤ steps.old + arranging_steps * length text.entry.units.now }
    ensures if_uniform { IsTrue resolved.uniform
        → steps.new ≤ steps.old + uniform_line_steps * length text.entry.units.now }
    ensures twice { IsTrue resolved.uniform → resolved.complete ≡ false
        → steps.old + 2 * length text.entry.units.now ≤ steps.new }
{
    let TextWithParagraphs { units, paras, .. } = text;
    let levels = &mut levels[..units.len()];
    reset_unless_uniform(text, breaks, resolved, levels, steps);
    fill_lines(units, resolved, paras, levels, columns, steps)
}
