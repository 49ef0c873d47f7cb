// Reading of rows of classes in their usual form, in one pass.
ghost use Rattle.std.specs.Prelude.{◌≡◌, true, false, Some, ◌+◌, ◌*◌, ◌≤◌, [], ◌∷◌, length, vec_capacity, IfSome};
ghost use Rattle.units.specs.Text.{is_blank, longest_line};
ghost use Rattle.bidtests.specs.ClassesFile.{RowOf, bit_set, classes_line};
ghost use Rattle.bidtests.specs.PlainRows.{is_plain};

use crate::names::read_names;
use units::bracket::Unit;
use units::level::Direction;

/// Returns the directions that a digit names, in the order auto, LTR, RTL, AutoRtl.
fn named_by_digit(digit: u8) -> Option<&'static [Direction]>
    ensures named { IfSome result (λ ds. bit_set (digit ∷ []) ≡ Some ds.now) }
    ensures plain { IfSome result (λ _. is_plain digit ≡ true) }
    ensures full { IfSome result (λ _. is_blank digit ≡ false) }
    ensures few { IfSome result (λ ds. length ds.now ≤ 4) }
{
    use Direction::{Auto, AutoRtl, Ltr, Rtl};
    match digit {
        b'1' => Some(&[Auto]),
        b'2' => Some(&[Ltr]),
        b'3' => Some(&[Auto, Ltr]),
        b'4' => Some(&[Rtl]),
        b'5' => Some(&[Auto, Rtl]),
        b'6' => Some(&[Ltr, Rtl]),
        b'7' => Some(&[Auto, Ltr, Rtl]),
        b'8' => Some(&[AutoRtl]),
        b'9' => Some(&[Auto, AutoRtl]),
        _ => None,
    }
}

/// Reads a line that is a row of classes in the usual form: names with one space between them, `;`, a space and a
/// digit. Replaces the list by the text, and returns the row's directions. Returns `None` for every other line, also if
/// it is a row.
pub fn read_plain_row(line: &[u8], text: &mut Vec<Unit>) -> Option<&'static [Direction]>
    requires short { length line.now ≤ longest_line }
    requires room { length line.now ≤ 2 * vec_capacity text.old }
    ensures row { IfSome result (λ ds. classes_line line.now ≡ RowOf text.new.items ds.now) }
    ensures count { 2 * length text.new.items ≤ length line.now + 1 }
    ensures room { vec_capacity text.new ≡ vec_capacity text.old }
    ensures few { IfSome result (λ ds. length ds.now ≤ 4) }
{
    let end = read_names(line, text)?;
    let tail = &line[end..];
    if tail.len() != 3 {
        return None;
    }
    if tail[1] != b' ' {
        return None;
    }
    named_by_digit(tail[2])
}
