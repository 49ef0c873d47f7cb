//! Wrong cases as numbers.
ghost use Rattle.std.specs.Prelude.{◌≡◌};
ghost use Rattle.for_c.specs.ReportNumbers.{case_for_c, item_for_c};

use crate::directions::number_of_direction;
use crate::verdict::numbers_of_place;
use report::wrong_case::{Item, WrongCase};

/// The item at a place of the expected levels or order, or of a layout, as numbers.
#[repr(C)]
#[derive(Clone, Copy)]
pub struct BidiItem {
    /// 0 if the list ends before the place, 1 a position that X9 removes, 2 a level, 3 a position of the text.
    pub kind: u32,
    /// The level or the position, else 0.
    pub value: usize,
}

/// A wrong case, as numbers.
#[repr(C)]
#[derive(Clone, Copy)]
pub struct BidiWrongCase {
    /// The number of the line, from 1.
    pub line: u64,
    /// The number of the direction.
    pub direction: u32,
    /// 1 the paragraph's level, 2 the levels, 3 the order.
    pub place: u32,
    /// The index in the list of levels or of the order, from 0.
    pub index: usize,
    /// The expected item there.
    pub claimed: BidiItem,
    /// The item there by the rules P1 to L2.
    pub defined: BidiItem,
}

/// Returns an item as C gets it.
fn item_for_c(item: Item) -> BidiItem
    ensures { result ≡ item_for_c item }
{
    let (kind, value) = match item {
        Item::Ended => (0, 0),
        Item::Removed => (1, 0),
        Item::Level(level) => (2, level.get() as usize),
        Item::Position(position) => (3, position),
    };
    BidiItem { kind, value }
}

/// Returns a wrong case as C gets it.
pub(crate) fn case_for_c(case: WrongCase) -> BidiWrongCase
    ensures { result ≡ case_for_c case }
{
    let (place, index) = numbers_of_place(case.place);
    BidiWrongCase {
        line: case.line,
        direction: number_of_direction(case.direction),
        place,
        index,
        claimed: item_for_c(case.claimed),
        defined: item_for_c(case.defined),
    }
}
