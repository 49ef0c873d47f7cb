// Finds the wrong cases of a row.
ghost use Rattle.std.specs.Prelude.{◌≡◌, ◌<◌, ◌≤◌, Some, [], ◌++◌, length, map, vec_capacity};
ghost use Rattle.std.specs.List.{slice_get};
ghost use Rattle.std.specs.Option.{option_map, option_to_list};
ghost use Rattle.units.specs.Isolates.{level_of_para};
ghost use Rattle.units.specs.Layout.{all_orders};
ghost use Rattle.lines.specs.Layouts.{view_of};
ghost use Rattle.lines.specs.Scratches.{room_of};
ghost use Rattle.bidtests.specs.LaidOut.{IsLaidOut};
ghost use Rattle.bidtests.specs.Readings.{expected_of};
ghost use Rattle.report.specs.Comparing.{remaining_order};
ghost use Rattle.report.specs.ReadExpected.{place_in, read_expected};
ghost use Rattle.report.specs.WrongCases.{expected_at, defined_at, level_item, para_item, position_item};
ghost use Rattle.report.specs.WrongCases.{wrong_case_in, wrong_case_under, wrong_cases_under};

use crate::comparing::wrong_place;
use crate::read_order::ReadOrder;
use crate::terms::{Leniency, Terms};
use crate::wrong_case::{Item, WrongCase};
use bidtests::expected::Expected;
use bidtests::laid_out::lay_out_again;
use bidtests::verdict::Place;
use lines::layout::Layout;
use lines::scratch::Scratch;
use units::level::{Direction, Level, ParaLevel};

/// Returns the item at an index of a list of levels.
fn level_at(levels: &[Option<Level>], index: usize) -> Item
    ensures { result ≡ level_item (slice_get levels.now index) }
{
    match levels.get(index) {
        None => Item::Ended,
        Some(None) => Item::Removed,
        Some(Some(level)) => Item::Level(*level),
    }
}

/// Returns the item at an index of the rest of an order.
fn position_at(mut order: ReadOrder<'_>, index: usize) -> Item
    ensures { result ≡ position_item (slice_get (remaining_order order.entry) index) }
{
    match order.nth(index) {
        None => Item::Ended,
        Some(position) => Item::Position(position),
    }
}

/// Returns the item of the first paragraph's expected level.
fn expected_level(level: Option<ParaLevel>) -> Item
    ensures { result ≡ para_item (option_map level_of_para level) }
{
    match level {
        None => Item::Ended,
        Some(level) => Item::Level(level.level()),
    }
}

/// Returns the item of the first paragraph's level.
fn first_level(paras: &[ParaLevel]) -> Item
    ensures { result ≡ para_item (slice_get (map level_of_para paras.now) 0) }
{
    match paras.first() {
        None => Item::Ended,
        Some(level) => Item::Level(level.level()),
    }
}

/// Returns the item at an index of the joined orders of all lines.
fn position_in(layout: &Layout<'_>, index: usize) -> Item
    ensures { result ≡ position_item (slice_get (all_orders (view_of layout.now)) index) }
{
    let mut remaining = index;
    for k in 0..layout.line_count() {
        let order = layout.line(k).order;
        if remaining < order.len() {
            return Item::Position(order[remaining]);
        }
        remaining -= order.len();
    }
    Item::Ended
}

/// Returns the expected item at the first place where the expected values, as they are read, differ from the layout.
fn expected_item(
    leniency: Leniency,
    expected: Expected<'_>,
    layout: &Layout<'_>,
    place: Place,
) -> Item
    requires { place_in (view_of layout.now) (read_expected leniency (view_of layout.now) (expected_of expected))
        ≡ Some place }
    ensures { result ≡ expected_at (read_expected leniency (view_of layout.now) (expected_of expected.entry)) place }
{
    match place {
        Place::ParaLevel => expected_level(expected.para_level),
        Place::Levels(index) => level_at(expected.levels, index),
        Place::Order(index) => {
            let order = ReadOrder::new(leniency.positions, layout.levels(), expected.order);
            position_at(order, index)
        }
    }
}

/// Returns the item of a layout at a place.
fn item_defined(layout: &Layout<'_>, place: Place) -> Item
    ensures { result ≡ defined_at (view_of layout.now) place }
{
    match place {
        Place::ParaLevel => first_level(layout.para_levels()),
        Place::Levels(index) => level_at(layout.levels(), index),
        Place::Order(index) => position_in(layout, index),
    }
}

/// Returns the wrong case of a row, if its expected values, as they are read, differ from this layout of its text under
/// the direction.
fn wrong_case(
    line: u64,
    expected: Expected<'_>,
    direction: Direction,
    leniency: Leniency,
    layout: &Layout<'_>,
) -> Option<WrongCase>
    ensures { result ≡ wrong_case_in leniency line (expected_of expected.entry) direction (view_of layout.now) }
{
    let place = wrong_place(leniency, expected, layout)?;
    Some(WrongCase {
        line,
        direction,
        place,
        claimed: expected_item(leniency, expected, layout, place),
        defined: item_defined(layout, place),
    })
}

/// Returns the wrong case of a row under the direction under which its text is laid out, if there is one.
fn case_under(
    scratch: &Scratch,
    line: u64,
    expected: Expected<'_>,
    direction: Direction,
    terms: &Terms,
) -> Option<WrongCase>
    requires { IsLaidOut terms.now.limits expected.text.now scratch.now direction }
    ensures { result ≡ wrong_case_under terms.now line (expected_of expected.entry) direction }
{
    wrong_case(line, expected, direction, terms.leniency, &scratch.layout())
}

/// Puts the item at the end of the list, if there is one.
fn put<T: Copy>(list: &mut Vec<T>, item: Option<T>)
    requires { length list.old.items < vec_capacity list.old }
    ensures items { list.new.items ≡ list.old.items ++ option_to_list item }
    ensures capacity { vec_capacity list.new ≡ vec_capacity list.old }
{
    if let Some(item) = item {
        list.push_reserved(item);
    }
}

/// Writes the wrong cases of a row on the line with this number into the list.
pub fn find_wrong_cases(
    scratch: &mut Scratch,
    line: u64,
    expected: Expected<'_>,
    terms: &Terms,
    found: &mut Vec<WrongCase>,
)
    requires fits { length expected.text.now ≤ room_of scratch.old }
    requires none { found.old.items ≡ [] }
    requires room { length expected.directions.now ≤ vec_capacity found.old }
    ensures found { found.new.items
        ≡ wrong_cases_under terms.now line (expected_of expected.entry) expected.entry.directions.now }
    ensures room { room_of scratch.new ≡ room_of scratch.old }
    ensures capacity { vec_capacity found.new ≡ vec_capacity found.old }
{
    let mut laid_out = None;
    for direction in expected.directions {
        laid_out = lay_out_again(scratch, expected.text, *direction, terms.limits, laid_out);
        let case = case_under(scratch, line, expected, *direction, terms);
        put(found, case);
    }
}
