//! Columns of a `Scratch`: boxed slices, which don't grow. They have one item for each unit of its capacity.
ghost use Rattle.std.specs.Prelude.{◌≡◌, ◌≤◌, ◌+◌, IfOk, length, take};
ghost use Rattle.lines.specs.Room.{items_in};

use crate::bounds::Bound;
use crate::runs::Run;
use std::alloc::Global;
use std::boxed::BoxedSlice;
use std::sync::ledger::Ledger;
use units::level::{Level, ParaLevel};
use units::memory::Memory;
use units::steps::Steps;

fn column<T: Copy>(alloc: Global, value: T, n: usize) -> Result<BoxedSlice<T>, Memory>
    ensures { IfOk result (λ column. items_in column ≡ n) }
{
    Ok(vec![in alloc; value; n]?.into_boxed_slice())
}

/// Copies levels to the front of a column. Takes one step for each.
fn copy_levels<L: Ledger>(
    levels: &[Option<Level>],
    column: &mut [Option<Level>],
    steps: &mut Steps<L>,
)
    requires { length levels.now ≤ length column.old }
    ensures copied { take (length levels.now) column.new ≡ levels.now }
    ensures steps { steps.new ≡ steps.old + length levels.now }
{
    steps.add(levels.len());
    column[..levels.len()].copy_from_slice(levels);
}

/// The columns of a text: the levels and the ends of its paragraphs, and the levels of its positions after L1 and
/// before L1. The levels before L1 have a column of their own only for a text in which L1 may change one.
#[derive(Drop)]
pub(crate) struct TextColumns {
    pub(crate) paras: BoxedSlice<ParaLevel>,
    pub(crate) para_ends: BoxedSlice<u32>,
    pub(crate) levels: BoxedSlice<Option<Level>>,
    resolved: BoxedSlice<Option<Level>>,
}

impl TextColumns {
    ghost use Rattle.std.specs.Prelude.{◌≡◌, ◌≤◌, ◌+◌, ◌-◌, IfOk, IsTrue, false, length, slice_range};
    ghost use Rattle.lines.specs.Columns.{levels_filled, resolved_column, resolved_filled};
    ghost use Rattle.lines.specs.Columns.{HasTextRoom, IsTextRoom, KeepsTextRoom};

    /// Allocates columns of `n` items.
    pub(crate) fn with_room(alloc: Global, n: usize) -> Result<TextColumns, Memory>
        ensures { IfOk result (λ columns. IsTextRoom columns n) }
    {
        Ok(TextColumns {
            paras: column(alloc, ParaLevel::Zero, n)?,
            para_ends: column(alloc, 0, n)?,
            levels: column(alloc, None, n)?,
            resolved: column(alloc, None, n)?,
        })
    }

    /// Stores the levels of the first `units` positions as they are before L1. It does nothing if the text is uniform,
    /// because L1 then changes no level.
    pub(crate) fn keep_resolved<L: Ledger>(
        &mut self,
        units: usize,
        uniform: bool,
        steps: &mut Steps<L>,
    )
        requires { HasTextRoom self.old units }
        ensures room { KeepsTextRoom self.old self.new }
        ensures paras { self.new.paras ≡ self.old.paras }
        ensures para_ends { self.new.para_ends ≡ self.old.para_ends }
        ensures levels { self.new.levels ≡ self.old.levels }
        ensures resolved { resolved_filled units uniform self.new ≡ levels_filled units self.old }
        ensures at_least { steps.old ≤ steps.new }
        ensures at_most { steps.new ≤ steps.old + units }
        ensures if_uniform { IsTrue uniform → steps.new ≡ steps.old }
    {
        if uniform {
            return;
        }
        copy_levels(&self.levels[..units], &mut self.resolved, steps);
    }

    /// Restores the levels that the first `units` positions had before L1.
    pub(crate) fn restore_resolved<L: Ledger>(
        &mut self,
        units: usize,
        uniform: bool,
        steps: &mut Steps<L>,
    )
        requires { HasTextRoom self.old units }
        ensures room { KeepsTextRoom self.old self.new }
        ensures paras { self.new.paras ≡ self.old.paras }
        ensures para_ends { self.new.para_ends ≡ self.old.para_ends }
        ensures unchanged { self.new.resolved ≡ self.old.resolved }
        ensures levels { levels_filled units self.new ≡ resolved_filled units uniform self.old }
        ensures resolved { resolved_filled units uniform self.new ≡ resolved_filled units uniform self.old }
        ensures at_least { steps.old ≤ steps.new }
        ensures at_most { steps.new ≤ steps.old + units }
        ensures if_uniform { IsTrue uniform → steps.new ≡ steps.old }
        ensures each { uniform ≡ false → steps.new ≡ steps.old + units }
    {
        if uniform {
            return;
        }
        copy_levels(&self.resolved[..units], &mut self.levels, steps);
    }

    /// Returns the levels of the first `units` positions before L1.
    pub(crate) fn resolved_levels(&self, units: usize, uniform: bool) -> &[Option<Level>]
        requires { HasTextRoom self.now units }
        ensures { result.now ≡ resolved_filled units uniform self.now }
    {
        if uniform {
            &self.levels[..units]
        } else {
            &self.resolved[..units]
        }
    }

    /// Copies the levels before L1 of the positions from `start` up to `end` to `line`. Takes one step for each.
    pub(crate) fn copy_line<L: Ledger>(
        &self,
        start: usize,
        end: usize,
        uniform: bool,
        line: &mut [Option<Level>],
        steps: &mut Steps<L>,
    )
        requires room { HasTextRoom self.now end }
        requires forward { start ≤ end }
        requires line { length line.old ≡ end - start }
        ensures copied { line.new ≡ slice_range (resolved_column uniform self.now) start end }
        ensures steps { steps.new ≡ steps.old + (end - start) }
    {
        if uniform {
            copy_levels(&self.levels[start..end], line, steps);
            return;
        }
        copy_levels(&self.resolved[start..end], line, steps);
    }
}

/// The columns of lines: their runs, the orders of their positions, and their bounds, of which there is one more than
/// lines.
#[derive(Drop)]
pub(crate) struct LineColumns {
    pub(crate) runs: BoxedSlice<Run>,
    pub(crate) orders: BoxedSlice<usize>,
    pub(crate) bounds: BoxedSlice<Bound>,
}

impl LineColumns {
    ghost use Rattle.std.specs.Prelude.{◌≤◌, IfOk};
    ghost use Rattle.units.specs.Layout.{longest_text};
    ghost use Rattle.lines.specs.Columns.{IsLineRoom};

    /// Allocates columns for `n` lines and `n` positions.
    pub(crate) fn with_room(alloc: Global, n: usize) -> Result<LineColumns, Memory>
        requires { n ≤ longest_text }
        ensures { IfOk result (λ columns. IsLineRoom columns n) }
    {
        let start = Bound {
            position: 0,
            order: 0,
        };
        Ok(LineColumns {
            runs: column(alloc, Run::default(), n)?,
            orders: column(alloc, 0, n)?,
            bounds: column(alloc, start, n + 1)?,
        })
    }
}
