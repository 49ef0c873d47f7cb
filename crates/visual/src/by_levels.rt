//! The order of positions from levels that the caller gives (L2).
ghost use Rattle.std.specs.Prelude.{◌≡◌, ◌<◌, ◌≤◌, ◌++◌, ℕ, length, reverse, slice_index, slice_range, take};
ghost use Rattle.units.specs.Reordering.{line_order};
ghost use Rattle.visual.specs.GivenLevels.{all_present, read_at};

/// Reverses the entries from `start` up to `end`.
fn reverse_span(order: &mut [usize], start: usize, end: usize)
    requires forward { start ≤ end }
    requires within { end ≤ length order.old }
    ensures len { length order.new ≡ length order.old }
    ensures reversed { take end order.new ≡ take start order.old ++ reverse (slice_range order.old start end) }
{
    order[start..end].reverse();
}

/// Writes the longest stretch from `start` on whose levels are at least `least` to its own places in `order`: from left
/// to right if `least` is even, and from right to left if it is odd. Returns where the stretch ends.
///
/// It first writes each stretch of higher levels in it, and then reverses that stretch. So it moves a position at most
/// as often as its level says.
fn write_stretch(levels: &[u8], start: usize, least: u8, order: &mut [usize]) -> usize
    requires start { start ≤ length levels.now }
    requires capacity { length order.old ≡ length levels.now }
    ensures len { length order.new ≡ length order.old }
    ensures forward { start ≤ result }
    ensures within { result ≤ length levels.now }
    ensures above { (p : ℕ) → start ≤ p → p < result → least ≤ slice_index levels.now p }
    ensures stops { result < length levels.now → slice_index levels.now result < least }
    ensures order { take result order.new
        ≡ take start order.old ++ read_at least (line_order (all_present levels.now) start result) }
{
    let mut end = start;
    while end < levels.len() && levels[end] >= least {
        if levels[end] > least {
            let higher_end = write_stretch(levels, end, least + 1, order);
            reverse_span(order, end, higher_end);
            end = higher_end;
        } else {
            order[end] = end;
            end += 1;
        }
    }
    end
}

/// Writes the order of all positions from left to right (L2). `levels` has the level of each position, also of one that
/// X9 removes.
///
/// Takes time proportional to the number of positions plus the sum of their levels.
pub fn write_order(levels: &[u8], order: &mut [usize])
    requires { length order.old ≡ length levels.now }
    ensures { order.new ≡ line_order (all_present levels.now) 0 (length levels.now) }
{
    write_stretch(levels, 0, 0, order);
}
