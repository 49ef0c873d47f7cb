// Compares the expected values of rows with layouts.
ghost use Rattle.std.specs.Prelude.{◌≡◌, ◌&&◌, nat_eq, not, MatchOption};
ghost use Rattle.units.specs.Layout.{all_orders};
ghost use Rattle.units.specs.Positions.{same_position};
ghost use Rattle.lines.specs.Layouts.{view_of};
ghost use Rattle.bidtests.specs.Comparisons.{DiffersAt};
ghost use Rattle.bidtests.specs.declared.verdict.Place.TheVariants.{Order};
ghost use Rattle.bidtests.specs.Readings.{expected_of};
ghost use Rattle.bidtests.specs.Verdicts.{first_difference, placed_in};
ghost use Rattle.report.specs.Comparing.{PassesLine, remaining_order};
ghost use Rattle.report.specs.ReadExpected.{all_parts_at, is_compared, levels_read, order_read, place_in, read_expected};
ghost use Rattle.report.specs.declared.terms.Parts.TheVariants as parts_of;

use crate::read_order::ReadOrder;
use crate::terms::{Leniency, Parts, Positions};
use bidtests::compare::agrees_with;
use bidtests::expected::Expected;
use bidtests::verdict::Place;
use lines::layout::Layout;
use units::level::Level;

/// Returns whether the expected level of a position differs from its level and is compared.
fn is_other(compared: Positions, claimed: Option<Level>, defined: Option<Level>) -> bool
    ensures { result ≡ is_compared compared defined && not (same_position claimed defined) }
{
    compared.has(defined) && claimed != defined
}

/// Returns the first index where a compared level differs or one of the lists ends.
fn differing_level(
    compared: Positions,
    claimed: &[Option<Level>],
    defined: &[Option<Level>],
) -> Option<usize>
    ensures { result
        ≡ first_difference same_position (levels_read parts_of.All compared defined.now claimed.now) defined.now 0 }
{
    let shorter = claimed.len().min(defined.len());
    for i in 0..shorter {
        if is_other(compared, claimed[i], defined[i]) {
            return Some(i);
        }
    }
    if claimed.len() == defined.len() {
        None
    } else {
        Some(shorter)
    }
}

/// Returns the first index of the line's order where the rest of the expected one differs or ends. Positions after the
/// line remain in the rest.
fn differing_position(claimed: &mut ReadOrder<'_>, line: &[usize]) -> Option<usize>
    ensures { MatchOption result (PassesLine line.now (remaining_order claimed.old) (remaining_order claimed.new))
        (DiffersAt (remaining_order claimed.old) line.now) }
{
    for i in 0..line.len() {
        if claimed.next() != Some(line[i]) {
            return Some(i);
        }
    }
    None
}

/// Returns the first index where the expected order, as it is read, differs from the joined orders of all lines or one
/// of them ends.
fn differing_order(compared: Positions, claimed: &[usize], layout: &Layout<'_>) -> Option<usize>
    ensures { result ≡ first_difference nat_eq
        (order_read compared (view_of layout.now).levels claimed.now) (all_orders (view_of layout.now)) 0 }
{
    let mut remaining = ReadOrder::new(compared, layout.levels(), claimed);
    let mut at = 0;
    for k in 0..layout.line_count() {
        let order = layout.line(k).order;
        if let Some(i) = differing_position(&mut remaining, order) {
            return Some(at + i);
        }
        at += order.len();
    }
    remaining.next().map(|_| at)
}

/// Returns the first place in the expected order, as it is read, where it differs from the layout.
fn wrong_order(compared: Positions, expected: Expected<'_>, layout: &Layout<'_>) -> Option<Place>
    ensures { result ≡ placed_in Order (first_difference nat_eq
        (order_read compared (view_of layout.now).levels expected.entry.order.now) (all_orders
        (view_of layout.now)) 0) }
{
    differing_order(compared, expected.order, layout).map(Place::Order)
}

/// Returns the first place where the expected values differ from the layout, if all parts are compared.
fn wrong_part(compared: Positions, expected: Expected<'_>, layout: &Layout<'_>) -> Option<Place>
    ensures { result ≡ place_in (view_of layout.now)
        (read_expected (all_parts_at compared) (view_of layout.now) (expected_of expected.entry)) }
{
    if !agrees_with(expected.para_level, layout.para_levels()) {
        return Some(Place::ParaLevel);
    }
    match differing_level(compared, expected.levels, layout.levels()) {
        Some(i) => Some(Place::Levels(i)),
        None => wrong_order(compared, expected, layout),
    }
}

/// Returns the first place where the expected values, as they are read, differ from the layout.
pub fn wrong_place(leniency: Leniency, expected: Expected<'_>, layout: &Layout<'_>) -> Option<Place>
    ensures { result
        ≡ place_in (view_of layout.now) (read_expected leniency (view_of layout.now) (expected_of expected.entry)) }
{
    match leniency.parts {
        Parts::All => wrong_part(leniency.positions, expected, layout),
        Parts::OrderAlone => wrong_order(leniency.positions, expected, layout),
    }
}
