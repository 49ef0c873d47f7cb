//! Comparison of expected layouts with those that the rules give.
ghost use Rattle.std.specs.Prelude.{◌≡◌, ◌≤◌, List, None, Some, [], ◌∷◌, length, map, nat_eq, MatchOption, IfSome};
ghost use Rattle.std.specs.Prelude.{IsSome};
ghost use Rattle.std.specs.Option.{option_map};
ghost use Rattle.units.specs.Layout.{all_orders};
ghost use Rattle.units.specs.declared.class.Class.{Class};
ghost use Rattle.units.specs.declared.level.Direction.{Direction};
ghost use Rattle.units.specs.Isolates.{level_of_para, para_level_of};
ghost use Rattle.units.specs.Positions.{same_position};
ghost use Rattle.lines.specs.Layouts.{view_of};
ghost use Rattle.lines.specs.Scratches.{room_of};
ghost use Rattle.bidtests.specs.Verdicts.{agrees, first_of, first_difference, Row};
ghost use Rattle.bidtests.specs.LineFaults.{line_fault_of};
ghost use Rattle.std.specs.Result.{result_err};
ghost use Rattle.bidtests.specs.Readings.{expected_of};
ghost use Rattle.bidtests.specs.Comparisons.{Compares, ComparesWith, DiffersAt, ContinuesAfter};

use crate::expected::Expected;
use crate::line_fault::LineFault;
use crate::verdict::Place;
use lines::breaks::Breaks;
use lines::lay_out::lay_out_into_with;
use lines::layout::Layout;
use lines::scratch::Scratch;
use units::level::{Direction, Level, ParaLevel};
use units::limits::Limits;

/// Returns whether the expected level is that of the first paragraph; it is also true if no level is expected.
pub fn agrees_with(claimed: Option<ParaLevel>, defined: &[ParaLevel]) -> bool
    ensures { result ≡ agrees (option_map level_of_para claimed) (first_of (map level_of_para defined.now)) }
{
    match (claimed, defined.first()) {
        (None, _) => true,
        (Some(_), None) => false,
        (Some(claimed), Some(first)) => claimed == *first,
    }
}

/// Returns the first index at which the lists differ or one of them ends.
fn differing_level(claimed: &[Option<Level>], defined: &[Option<Level>]) -> Option<usize>
    ensures { result ≡ first_difference same_position claimed.now defined.now 0 }
{
    let shorter = claimed.len().min(defined.len());
    for i in 0..shorter {
        if claimed[i] != defined[i] {
            return Some(i);
        }
    }
    if claimed.len() == defined.len() {
        None
    } else {
        Some(shorter)
    }
}

/// Returns the first index of the line's order at which the expected list differs or ends.
fn differing_position(claimed: &[usize], line: &[usize]) -> Option<usize>
    ensures { MatchOption result (ContinuesAfter claimed.now line.now) (DiffersAt claimed.now line.now) }
{
    for i in 0..line.len() {
        if i >= claimed.len() || claimed[i] != line[i] {
            return Some(i);
        }
    }
    None
}

/// Returns the first index at which the expected list differs from the joined orders of all lines, or at which one of
/// them ends.
fn differing_order(claimed: &[usize], layout: &Layout<'_>) -> Option<usize>
    ensures { result ≡ first_difference nat_eq claimed.now (all_orders (view_of layout.now)) 0 }
{
    let mut at = 0;
    for k in 0..layout.line_count() {
        let order = layout.line(k).order;
        if let Some(i) = differing_position(&claimed[at..], order) {
            return Some(at + i);
        }
        at += order.len();
    }
    if at < claimed.len() { Some(at) } else { None }
}

/// Returns an empty list of breaks.
pub(crate) fn no_breaks(len: usize) -> Breaks<'static>
    ensures { result ≡ record { positions = []; len = len } }
{
    match Breaks::new(&[], len) {
        Ok(breaks) => breaks,
        Err(_) => unreachable!(),
    }
}

/// The result of comparing a row with the layout of its text under one direction.
#[derive(Clone, Copy)]
pub enum Comparison {
    /// They differ; this is the first place.
    Differs(Place),
    /// They agree. If another direction is named, its layout is the same, so they agree under it too. For a text of one
    /// paragraph one is named.
    Agrees { also_under: Option<Direction> },
}

/// Returns the direction that gives every paragraph the level of the text's only paragraph, or `None` if the text
/// doesn't have exactly one.
#[tactic(auto, unfolding(units::specs::Isolates::para_level_of))]
pub(crate) fn direction_by_level(paras: &[ParaLevel]) -> Option<Direction>
    ensures level { IfSome result (λ direction. (classes : List Class)
        → map level_of_para paras.now ≡ para_level_of classes direction ∷ []) }
    ensures one { length paras.now ≡ 1 → IsSome result }
{
    match paras {
        [ParaLevel::Zero] => Some(Direction::Ltr),
        [ParaLevel::One] => Some(Direction::Rtl),
        _ => None,
    }
}

/// Compares a row with a layout of its text. The contract holds for each direction and all limits that give this
/// layout.
fn compare_with(expected: Expected<'_>, layout: &Layout<'_>) -> Comparison
    ensures { ComparesWith (view_of layout.now) result (expected_of expected.entry) }
{
    if !agrees_with(expected.para_level, layout.para_levels()) {
        return Comparison::Differs(Place::ParaLevel);
    }
    if let Some(at) = differing_level(expected.levels, layout.levels()) {
        return Comparison::Differs(Place::Levels(at));
    }
    match differing_order(expected.order, layout) {
        Some(at) => Comparison::Differs(Place::Order(at)),
        None => Comparison::Agrees {
            also_under: direction_by_level(layout.para_levels()),
        },
    }
}

/// Compares a row with the layout of its text under a direction.
fn compare(
    scratch: &mut Scratch,
    expected: Expected<'_>,
    direction: Direction,
    limits: Limits,
) -> Comparison
    requires { length expected.text.now ≤ room_of scratch.old }
    ensures compares { Compares limits result (expected_of expected.entry) direction }
    ensures room { room_of scratch.new ≡ room_of scratch.old }
{
    let breaks = no_breaks(expected.text.len());
    lay_out_into_with(scratch, expected.text, direction, &breaks, limits).unwrap();
    compare_with(expected, &scratch.layout())
}

/// Judges all cases of a row. On failure, returns the first direction under which the layout differs, and the place.
/// LTR or RTL is skipped if auto gave the same layout.
pub fn judge_expected(
    scratch: &mut Scratch,
    expected: Expected<'_>,
    limits: Limits,
) -> Result<(), LineFault>
    requires { length expected.text.now ≤ room_of scratch.old }
    ensures fault { result_err result ≡ line_fault_of limits (Row (expected_of expected.entry)) }
    ensures room { room_of scratch.new ≡ room_of scratch.old }
{
    let mut right = None;
    for direction in expected.directions {
        if right == Some(*direction) {
            continue;
        }
        match compare(scratch, expected, *direction, limits) {
            Comparison::Differs(place) => return Err(LineFault::OfCase(*direction, place)),
            Comparison::Agrees { also_under } => right = right.or(also_under),
        }
    }
    Ok(())
}
