//! A `Scratch` that lays out often, and the cost of a search through paragraphs.
ghost use Rattle.std.specs.Prelude.{◌≡◌};

use crate::given::{Expected, shows, unit};
use lines::alone::SEARCH_STEPS;
use lines::breaks::Breaks;
use lines::lay_out::lay_out_into;
use lines::layout::Layout;
use lines::scratch::{RoomFault, Scratch};
use std::process::Abort;
use std::test::Fail;
use units::bracket::Unit;
use units::class::Class;
use units::level::{Direction, Level};

/// Compares a line's levels and its order.
fn line_shows(
    rt: &impl Abort,
    layout: &Layout,
    k: usize,
    levels: &[Option<Level>],
    order: &[usize],
) {
    assert!(rt; k < layout.line_count());
    let line = layout.line(k);
    assert_eq!(rt; line.levels, levels);
    assert_eq!(rt; line.order, order);
}

/// Lays out two Hebrew letters with a space between them, from left to right, with a break before the second letter.
fn lays_out_broken(rt: &impl Abort, room: &mut Scratch, text: &[Unit]) -> Result<(), Fail> {
    let at = [2];
    let breaks = Breaks::new(&at, text.len())?;
    lay_out_into(room, text, Direction::Ltr, &breaks)?;
    let layout = room.layout();
    assert_eq!(rt; layout.line_count(), 2);
    line_shows(rt, &layout, 0, &[Level::new(1), Level::new(0)], &[0, 1]);
    line_shows(rt, &layout, 1, &[Level::new(1)], &[2]);
    Ok(())
}

/// Lays out this text a thousand times, with a break and on one line.
fn lays_out_often(rt: &impl Abort, room: &mut Scratch) -> Result<(), Fail> {
    let text = [unit(Class::R), unit(Class::WS), unit(Class::R)];
    let levels = [Level::new(1), Level::new(1), Level::new(1)];
    let whole = Expected {
        levels: &levels,
        order: &[2, 1, 0],
    };
    for _ in 0..1_000 {
        lays_out_broken(rt, room, &text)?;
        shows(rt, room, &text, Direction::Ltr, &whole)?;
    }
    Ok(())
}

#[test]
fn no_growth_comes_after_making(rt: HostRuntime) -> Result<(), Fail> {
    match Scratch::with_room(rt.alloc(), 64) {
        Ok(mut room) => lays_out_often(&rt, &mut room),
        Err(fault) => {
            assert_eq!(rt; fault, RoomFault::Memory);
            Ok(())
        }
    }
}

/// Returns the cost in steps of a search through the paragraphs of a text, when one of its lines is laid out alone.
fn steps_of_a_search() -> usize
    ensures { result ≡ 25 }
{
    SEARCH_STEPS
}

#[test]
fn counts_a_search_through_the_paragraphs_as_25_steps(rt: HostRuntime) {
    assert_eq!(rt; steps_of_a_search(), 25);
}
