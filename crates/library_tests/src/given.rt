//! Helpers: units, and a text that is laid out on one line.
ghost use Rattle.std.specs.Prelude.{◌≡◌, ◌<◌};

use lines::breaks::Breaks;
use lines::lay_out::lay_out;
use lines::layout::Layout;
use lines::scratch::Scratch;
use std::marker::Brand;
use std::process::Abort;
use std::sync::ledger::{Blank, Ledger};
use std::test::Fail;
use units::bracket::{Bracket, Unit};
use units::class::Class;
use units::level::{Direction, Level};
use units::steps::Steps;

/// Returns a unit of this class that is no bracket.
pub fn unit(class: Class) -> Unit {
    Unit {
        class,
        bracket: Bracket::No,
    }
}

/// The expected levels and order of a text on one line.
#[derive(Clone, Copy)]
pub struct Expected<'a> {
    pub levels: &'a [Option<Level>],
    pub order: &'a [usize],
}

/// Compares the levels and the order of a layout of one line.
fn is_one_line(rt: &impl Abort, layout: &Layout, levels: &[Option<Level>], order: &[usize]) {
    assert_eq!(rt; layout.levels(), levels);
    assert_eq!(rt; layout.line_count(), 1);
    assert_eq!(rt; layout.line(0).order, order);
}

/// Lays out a text on one line, and compares its levels and its order.
pub fn shows(
    rt: &impl Abort,
    room: &mut Scratch,
    text: &[Unit],
    direction: Direction,
    expected: &Expected,
) -> Result<(), Fail> {
    shows_counting::<Brand>(rt, room, text, direction, expected, Blank::new(1))
}

/// Does the same, with a counter of steps that begins with the blank.
fn shows_counting<K: Ledger>(
    rt: &impl Abort,
    room: &mut Scratch,
    text: &[Unit],
    direction: Direction,
    expected: &Expected,
    blank: Blank,
) -> Result<(), Fail>
    requires name { blank.name ≡ K.name }
    requires parts { blank.parts ≡ K.parts }
    requires some { 0 < blank.parts }
{
    let mut steps = Steps::<K>::new(blank);
    let breaks = Breaks::new(&[], text.len())?;
    let layout = lay_out(room, text, direction, &breaks, &mut steps)?;
    is_one_line(rt, &layout, expected.levels, expected.order);
    Ok(())
}
