//! What a layout says about a text, in positions of its characters.
ghost use Rattle.std.specs.Prelude.{◌≡◌, IfErr, IfOk, length};
ghost use Rattle.lines.specs.Layouts.{line_at, view_of};
ghost use Rattle.room.specs.Places.{ArePlacesOf};
ghost use Rattle.room.specs.Written.{WritesWhole};
ghost use Rattle.for_c.specs.Positions.{IsLineAt, IsSamePosition, RejectsLine, WritesPlaces};

use crate::call_error::CallError;
use crate::columns::write_items;
use crate::line::{BidiLine, line_for_c};
use lines::layout::Layout;
use room::lookups::Line;
use room::places::NOWHERE;

/// Returns the line with the number `k`. Fails with `NoLine` if there is none.
pub fn line_at(layout: &Layout<'_>, k: usize) -> Result<BidiLine, CallError>
    ensures line { IfOk result (IsLineAt (view_of layout.now) k) }
    ensures reason { IfErr result (RejectsLine (view_of layout.now) k) }
{
    if layout.line_count() <= k {
        return Err(CallError::NoLine);
    }
    let line = layout.line(k);
    Ok(line_for_c(Line {
        start: line.start,
        end: line.end,
        shown: line.order.len(),
    }))
}

/// Writes the order of the line with the number `k` to the front of `out`, if all fit there. Returns how many
/// positions it has, 0 if there is no such line.
pub fn write_order(layout: &Layout<'_>, k: usize, out: &mut [usize]) -> usize
    ensures { WritesWhole (line_at (view_of layout.now) k).order result out.old out.new }
{
    if layout.line_count() <= k {
        return 0;
    }
    write_items(layout.line(k).order, out)
}

/// Writes the place in a line's order of each position from `start` on, as many as `out` has items.
fn fill_places(order: &[usize], start: usize, out: &mut [usize])
    ensures len { length out.new ≡ length out.old }
    ensures places { ArePlacesOf IsSamePosition order.now start (length out.old) out.new }
{
    out.fill(NOWHERE);
    for place in 0..order.len() {
        let position = order[place];
        if start <= position && position - start < out.len() {
            out[position - start] = place;
        }
    }
}

/// Writes the places of the positions of the line with the number `k` to the front of `out`, if all fit there. Returns
/// how many positions the line has, 0 if there is no such line.
pub fn write_places(layout: &Layout<'_>, k: usize, out: &mut [usize]) -> usize
    ensures { WritesPlaces (line_at (view_of layout.now) k) result out.old out.new }
{
    if layout.line_count() <= k {
        return 0;
    }
    let line = layout.line(k);
    let count = line.end - line.start;
    if count <= out.len() {
        fill_places(line.order, line.start, &mut out[..count]);
    }
    count
}
