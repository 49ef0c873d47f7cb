//! The numbers of directions.
ghost use Rattle.std.specs.Prelude.{◌≡◌};
ghost use Rattle.for_c.specs.Directions.{direction_number, direction_numbered};

use units::level::Direction;

/// Returns the direction with this number, if there is one.
pub fn direction_numbered(number: u32) -> Option<Direction>
    ensures { result ≡ direction_numbered number }
{
    match number {
        0 => Some(Direction::Ltr),
        1 => Some(Direction::Rtl),
        2 => Some(Direction::Auto),
        3 => Some(Direction::AutoRtl),
        _ => None,
    }
}

/// Returns the number of a direction.
pub(crate) fn number_of_direction(direction: Direction) -> u32
    ensures { result ≡ direction_number direction }
{
    match direction {
        Direction::Ltr => 0,
        Direction::Rtl => 1,
        Direction::Auto => 2,
        Direction::AutoRtl => 3,
    }
}
