//! The levels after L1 and the order (L2) of a paragraph that is one line.
ghost use Rattle.std.specs.Prelude.{◌≡◌, ◌≤◌, length, IfOk};
ghost use Rattle.units.specs.Layout.{longest_text};
ghost use Rattle.lines.specs.Layouts.{line_at, view_of};
ghost use Rattle.lines.specs.Scratches.{room_of};
ghost use Rattle.rule_columns.specs.Columns.{shown_part};

use lines::breaks::Breaks;
use lines::lay_out::lay_out;
use lines::layout::Layout;
use lines::scratch::Scratch;
use std::alloc::Global;
use std::marker::Model;
use std::sync::ledger::Ledger;
use units::bracket::Unit;
use units::level::{Direction, Level};
use units::memory::Memory;
use units::steps::Steps;

/// The levels after L1 and the order (L2) of a paragraph that is one line.
#[derive(Drop)]
pub struct ShownPart {
    pub(crate) levels: Vec<Option<Level>>,
    pub(crate) order: Vec<usize>,
}

impl Model for ShownPart {
    ghost use Rattle.rule_columns.specs.Columns.{ShownOf};

    ghost Value = { ShownOf };

    ghost view = { λ part. record { levels = part.levels.items; order = part.order.items } };
}

/// Returns the order of the first line, or no positions if there is no line.
fn first_order(alloc: Global, layout: &Layout<'_>) -> Result<Vec<usize>, Memory>
    ensures { IfOk result (λ order. order.items ≡ (line_at (view_of layout.now) 0).order) }
{
    if layout.line_count() == 0 {
        return Ok(Vec::new(alloc));
    }
    let line = layout.line(0);
    Ok(Vec::from_slice(alloc, line.order)?)
}

/// Copies the levels of a layout and the order of its first line.
fn shown_by(alloc: Global, layout: &Layout<'_>) -> Result<ShownPart, Memory>
    ensures levels { IfOk result (λ part. part.levels ≡ (view_of layout.now).levels) }
    ensures order { IfOk result (λ part. part.order ≡ (line_at (view_of layout.now) 0).order) }
{
    let levels = Vec::from_slice(alloc, layout.levels())?;
    let order = first_order(alloc, layout)?;
    Ok(ShownPart { levels, order })
}

/// Returns the levels after L1 and the order of a paragraph under a direction. `room` must have capacity for it.
fn shown_in<L: Ledger>(
    alloc: Global,
    room: &mut Scratch,
    para: &[Unit],
    direction: Direction,
    steps: &mut Steps<L>,
) -> Result<ShownPart, Memory>
    requires { length para.now ≤ room_of room.old }
    ensures { IfOk result (λ part. part ≡ shown_part para.now direction) }
{
    let breaks = Breaks::new(&[], para.len()).unwrap();
    let layout = lay_out(room, para, direction, &breaks, steps).unwrap();
    shown_by(alloc, &layout)
}

impl ShownPart {
    /// Returns the levels and the order of a paragraph under a direction, with the standard limits. Fails with `Memory`
    /// if an allocation fails.
    pub fn of<L: Ledger>(
        alloc: Global,
        para: &[Unit],
        direction: Direction,
        steps: &mut Steps<L>,
    ) -> Result<ShownPart, Memory>
        requires { length para.now ≤ longest_text }
        ensures { IfOk result (λ part. part ≡ shown_part para.now direction) }
    {
        let mut room = Scratch::reserve(alloc, para.len())?;
        shown_in(alloc, &mut room, para, direction, steps)
    }
}
