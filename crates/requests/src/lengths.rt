// Reads lengths from the value of an option.
ghost use Rattle.std.specs.Prelude.{◌≡◌, Some, IfOk, IfErr};
ghost use Rattle.units.specs.Text.{ends};
ghost use Rattle.requests.specs.LengthWords.{EndsLengths, length_of, lengths_named};

use crate::fault::Fault;
use units::text::cut::cut;
use units::text::number::number;

/// The least and the greatest length of some texts, in units.
#[derive(Clone, Copy, Debug, PartialEq, Eq)]
pub struct Lengths {
    pub least: usize,
    pub greatest: usize,
}

/// Returns the least and the greatest length, if both are given.
fn both(least: Option<u32>, greatest: Option<u32>) -> Option<(u32, u32)>
    ensures { result ≡ ends least greatest }
{
    Some((least?, greatest?))
}

/// Reads a length: decimal digits, at most 65,535.
fn length(item: &[u8]) -> Option<u32>
    ensures { result ≡ length_of item.now }
{
    number(item, 65_535)
}

/// Reads the lengths in `word`: `N`, or `N..N`.
#[tactic(auto, using(crate::proofs::LengthPieces::length_pieces))]
fn read_lengths(word: &[u8]) -> Option<(u32, u32)>
    ensures { result ≡ lengths_named word.now }
{
    let (first, rest) = cut(word, b'.');
    let Some(rest) = rest else {
        return both(length(first), length(first));
    };
    let (between, rest) = cut(rest, b'.');
    let (last, rest) = cut(rest?, b'.');
    match rest {
        None if between.is_empty() => both(length(first), length(last)),
        _ => None,
    }
}

/// Reads the lengths in `word`: one, or the least and the greatest with `..` between them. Fails with `NoLengths` if it
/// has another form.
pub fn lengths_in<'a>(word: &'a str) -> Result<Lengths, Fault<'a>>
    ensures lengths { IfOk result (λ lengths. lengths_named word.now ≡ Some (lengths.least, lengths.greatest)) }
    ensures fault { IfErr result (EndsLengths word.now) }
{
    match read_lengths(word.as_bytes()) {
        Some((least, greatest)) => Ok(Lengths {
            least: least as usize,
            greatest: greatest as usize,
        }),
        None => Err(Fault::NoLengths(word)),
    }
}
