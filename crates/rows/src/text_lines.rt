//! The lines of a text.
ghost use Rattle.std.specs.Prelude.{◌≡◌, ◌<◌, ◌==◌, ◌∷◌, length, IfSome};
ghost use Rattle.std.specs.List.{position};
ghost use Rattle.units.specs.Cuts.{pieces_after};
ghost use Rattle.rows.specs.TextLines.{first_long_line, text_lines};

use crate::exhaustive::LONGEST_ROW;

/// Returns the index of the first LF.
fn first_feed(text: &[char]) -> Option<usize>
    ensures { result ≡ position (λ code. code == 10) text.now }
{
    text.iter().position(|code| *code == '\n')
}

/// Returns the first line, and the text after its LF if it has one.
pub(crate) fn cut_line(text: &[char]) -> (&[char], Option<&[char]>)
    ensures lines { text_lines text.now ≡ result.0.now ∷ pieces_after 10 result.1 }
    ensures falls { IfSome result.1 (λ rest. length rest.now < length text.now) }
{
    match first_feed(text) {
        None => (text, None),
        Some(at) => (&text[..at], Some(&text[at + 1..])),
    }
}

/// Returns the number, counted from 1, of the first line of a text that has more than `LONGEST_ROW` characters. A line
/// ends at LF, which is no part of the line. The last line ends with the text.
pub fn first_long_line(text: &[char]) -> Option<usize>
    ensures { result ≡ first_long_line text.now }
{
    let mut remaining = Some(text);
    let mut number = 1;
    while let Some(lines) = remaining {
        let (line, rest) = cut_line(lines);
        if line.len() > LONGEST_ROW {
            return Some(number);
        }
        number += 1;
        remaining = rest;
    }
    None
}
