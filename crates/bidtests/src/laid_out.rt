// Layouts of one text under several directions.
ghost use Rattle.std.specs.Prelude.{◌≡◌, ◌≤◌, Some, length, IfSome, IsSome};
ghost use Rattle.lines.specs.Scratches.{layout_in, room_of};
ghost use Rattle.bidtests.specs.LaidOut.{IsLaidOut};

use crate::compare::{direction_by_level, no_breaks};
use lines::lay_out::lay_out_into_with;
use lines::scratch::Scratch;
use units::bracket::Unit;
use units::level::Direction;
use units::limits::Limits;

/// Lays out a text, and returns another direction under which the layout is the same, if one is known.
fn lay_out_under(
    scratch: &mut Scratch,
    text: &[Unit],
    direction: Direction,
    limits: Limits,
) -> Option<Direction>
    requires { length text.now ≤ room_of scratch.old }
    ensures laid_out { IsLaidOut limits text.now scratch.new direction }
    ensures same { IfSome result (IsLaidOut limits text.now scratch.new) }
    ensures known { length (layout_in scratch.new).paras ≡ 1 → IsSome result }
    ensures room { room_of scratch.new ≡ room_of scratch.old }
{
    let breaks = no_breaks(text.len());
    lay_out_into_with(scratch, text, direction, &breaks, limits).unwrap();
    direction_by_level(scratch.layout().para_levels())
}

/// Lays out a text under a direction, without breaks and with these limits. The caller passes a direction under which
/// the scratch has the layout of this text, if there is one; if it is the same direction, the layout is reused. Returns
/// another direction under which the layout is the same, for the next call. It is known for a text of one paragraph.
pub fn lay_out_again(
    scratch: &mut Scratch,
    text: &[Unit],
    direction: Direction,
    limits: Limits,
    laid_out: Option<Direction>,
) -> Option<Direction>
    requires room { length text.now ≤ room_of scratch.old }
    requires laid_out { IfSome laid_out (IsLaidOut limits text.now scratch.old) }
    ensures laid_out { IsLaidOut limits text.now scratch.new direction }
    ensures same { IfSome result (IsLaidOut limits text.now scratch.new) }
    ensures known { length (layout_in scratch.new).paras ≡ 1 → IsSome result }
    ensures room { room_of scratch.new ≡ room_of scratch.old }
    ensures unchanged { laid_out ≡ Some direction → scratch.new ≡ scratch.old }
{
    if laid_out == Some(direction) {
        laid_out
    } else {
        lay_out_under(scratch, text, direction, limits)
    }
}
