// Bit sets of directions.
ghost use Rattle.std.specs.Prelude.{◌≡◌, ◌≤◌, [], ◌∷◌, IfSome, length};
ghost use Rattle.bidtests.specs.ClassesFile.{bit_set as directions_named};
ghost use Rattle.bidtests.specs.Readings.{MatchesNow};

use units::level::Direction;
use units::text::number::number;

/// Returns the directions that a number of 1 to 15 names, in the order auto, LTR, RTL, AutoRtl.
pub fn directions(field: &[u8]) -> Option<&'static [Direction]>
    ensures named { MatchesNow result (directions_named field.now) }
    ensures few { IfSome result (λ ds. length ds.now ≤ 4) }
{
    use Direction::{Auto, AutoRtl, Ltr, Rtl};
    match number(field, 15)? {
        1 => Some(&[Auto]),
        2 => Some(&[Ltr]),
        3 => Some(&[Auto, Ltr]),
        4 => Some(&[Rtl]),
        5 => Some(&[Auto, Rtl]),
        6 => Some(&[Ltr, Rtl]),
        7 => Some(&[Auto, Ltr, Rtl]),
        8 => Some(&[AutoRtl]),
        9 => Some(&[Auto, AutoRtl]),
        10 => Some(&[Ltr, AutoRtl]),
        11 => Some(&[Auto, Ltr, AutoRtl]),
        12 => Some(&[Rtl, AutoRtl]),
        13 => Some(&[Auto, Rtl, AutoRtl]),
        14 => Some(&[Ltr, Rtl, AutoRtl]),
        15 => Some(&[Auto, Ltr, Rtl, AutoRtl]),
        _ => None,
    }
}

/// Returns a list of only this direction.
pub fn alone(direction: Direction) -> &'static [Direction]
    ensures { result.now ≡ direction ∷ [] }
{
    match direction {
        Direction::Auto => &[Direction::Auto],
        Direction::Ltr => &[Direction::Ltr],
        Direction::Rtl => &[Direction::Rtl],
        Direction::AutoRtl => &[Direction::AutoRtl],
    }
}
