// Code points in hex digits.
ghost use Rattle.std.specs.Prelude.{◌≡◌, ◌+◌, ◌*◌, ◌<◌, true, false, MatchOption};
ghost use Rattle.units.specs.Text.{is_hex_digit, hex_digit_value, code_point_of, ends_of, ends as ends_read};

use crate::text::cut::cut;

fn hex_digit(byte: u8) -> Option<u32>
    ensures { MatchOption result (is_hex_digit byte ≡ false)
        (λ digit. (is_hex_digit byte ≡ true) × (digit ≡ hex_digit_value byte) × (digit < 16)) }
{
    match byte {
        b'0'..=b'9' => Some(u32::from(byte - b'0')),
        b'A'..=b'F' => Some(u32::from(byte - b'A') + 10),
        _ => None,
    }
}

/// Reads a code point: 4 to 6 upper-case hex digits, at most 10FFFF.
pub fn code_point(field: &[u8]) -> Option<u32>
    ensures { result ≡ code_point_of field.now }
{
    if field.len() < 4 || field.len() > 6 {
        return None;
    }
    let mut value = 0;
    for byte in field {
        match hex_digit(*byte) {
            None => return None,
            Some(digit) => value = value * 16 + digit,
        }
    }
    if value <= 0x10FFFF { Some(value) } else { None }
}

#[tactic(auto, using(crate::proofs::Ranges::range_pieces))]
/// Reads the ends of a code point or of a range `cp..cp`.
pub fn ends(field: &[u8]) -> Option<(u32, u32)>
    ensures { result ≡ ends_of field.now }
{
    let (first, rest) = cut(field, b'.');
    let Some(rest) = rest else {
        return both(code_point(first), code_point(first));
    };
    let (between, rest) = cut(rest, b'.');
    let (last, rest) = cut(rest?, b'.');
    match rest {
        None if between.is_empty() => both(code_point(first), code_point(last)),
        _ => None,
    }
}

fn both(first: Option<u32>, last: Option<u32>) -> Option<(u32, u32)>
    ensures { result ≡ ends_read first last }
{
    Some((first?, last?))
}
