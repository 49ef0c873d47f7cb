// Cuts at separators.
ghost use Rattle.std.specs.Prelude.{◌≡◌, ◌≢◌, ◌==◌, [], ◌∷◌, ◌≤◌, length, MatchOption, IfSome};
ghost use Rattle.std.specs.List.{before_first};
ghost use Rattle.units.specs.Text.{cut_at, fields_of};
ghost use Rattle.units.specs.Cuts.{IsAfterFirst, pieces_after, fields_after};

use crate::text::trim::trim;
use memchr::memchr;

/// Returns the bytes before the first separator, and the bytes after it.
pub fn cut(bytes: &[u8], separator: u8) -> (&[u8], Option<&[u8]>)
    ensures pieces { cut_at separator bytes.now ≡ result.0.now ∷ pieces_after separator result.1 }
    ensures before { result.0.now ≡ before_first (λ b. b == separator) bytes.now }
    ensures following { IsAfterFirst separator bytes.now result.1 }
    ensures short { length result.0.now ≤ length bytes.now }
    ensures less { IfSome result.1 (λ rest. length rest.now ≤ length bytes.now) }
{
    match memchr(separator, bytes) {
        None => (bytes, None),
        Some(at) => (&bytes[..at], Some(&bytes[at + 1..])),
    }
}

/// Returns the first field, and the bytes after its `;`.
pub fn cut_field(content: &[u8]) -> (&[u8], Option<&[u8]>)
    ensures fields { fields_of content.now ≡ result.0.now ∷ fields_after result.1 }
    ensures short { length result.0.now ≤ length content.now }
    ensures less { IfSome result.1 (λ rest. length rest.now ≤ length content.now) }
{
    let (field, rest) = cut(content, b';');
    (trim(field), rest)
}

/// Returns the fields of a content that has two.
pub fn two_fields(content: &[u8]) -> Option<(&[u8], &[u8])>
    ensures fields { MatchOption result (length (fields_of content.now) ≢ 2)
        (λ f. fields_of content.now ≡ f.0.now ∷ f.1.now ∷ []) }
    ensures short { IfSome result (λ f. length f.0.now ≤ length content.now) }
{
    let (first, rest) = cut_field(content);
    let (second, rest) = cut_field(rest?);
    match rest {
        None => Some((first, second)),
        Some(_) => None,
    }
}

/// Returns the fields of a content that has three.
pub fn three_fields(content: &[u8]) -> Option<(&[u8], &[u8], &[u8])>
    ensures { MatchOption result (length (fields_of content.now) ≢ 3)
        (λ f. fields_of content.now ≡ f.0.now ∷ f.1.now ∷ f.2.now ∷ []) }
{
    let (first, rest) = cut_field(content);
    let (second, rest) = cut_field(rest?);
    let (third, rest) = cut_field(rest?);
    match rest {
        None => Some((first, second, third)),
        Some(_) => None,
    }
}
