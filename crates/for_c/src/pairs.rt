//! The bracket that a bracket pairs with.
ghost use Rattle.std.specs.Prelude.{◌≡◌, ◌<◌, ℕ, true, false, MatchOption};
ghost use Rattle.std.specs.Char.{IsScalar};
ghost use Rattle.ucdfiles.specs.Tables.{bracket_by};
ghost use Rattle.for_c.specs.Pairs.{IsPairedBracket, are_paired, canonical_of, mirrored_partner};

use ucdfiles::tables::Tables;
use unicode_normalization::Form;
use unicode_normalization::char::decomposition;
use units::bracket::Bracket;

/// Returns whether one of two brackets opens, the other closes, and both are of one pair (BD16).
fn are_paired(one: Bracket, other: Bracket) -> bool
    ensures { result ≡ are_paired one other }
{
    match (one, other) {
        (Bracket::Open(key), Bracket::Close(closed)) => key.0 == closed.0,
        (Bracket::Close(key), Bracket::Open(opened)) => key.0 == opened.0,
        _ => false,
    }
}

/// Returns the one character that a character is canonically equivalent to by its decomposition, or itself.
fn canonical(c: char) -> char
    ensures { result ≡ canonical_of c }
{
    let mut room = [c; 3];
    match decomposition(c, Form::Nfd, &mut room) {
        [only] => *only,
        _ => c,
    }
}

/// Returns the mirrored character of what a character is canonically equivalent to, if the bracket pairs with it.
fn mirrored_partner(tables: &Tables, c: char, bracket: Bracket) -> Option<char>
    ensures { result ≡ mirrored_partner tables.now c bracket }
{
    let image = tables.mirrors().glyph(canonical(c))?;
    if are_paired(bracket, tables.unit(image).bracket) {
        Some(image)
    } else {
        None
    }
}

/// Returns the least character that the bracket pairs with, if there is one.
fn least_partner(tables: &Tables, bracket: Bracket) -> Option<char>
    ensures { MatchOption result
        ((code : ℕ) → IsScalar code → are_paired bracket (bracket_by tables.now.brackets code) ≡ false)
        (λ code. IsScalar code × (are_paired bracket (bracket_by tables.now.brackets code) ≡ true)
        × ((other : ℕ) → IsScalar other → other < code
        → are_paired bracket (bracket_by tables.now.brackets other) ≡ false)) }
{
    for code in 0..0x11_0000 {
        if let Some(c) = char::from_u32(code)
            && are_paired(bracket, tables.unit(c).bracket)
        {
            return Some(c);
        }
    }
    None
}

/// Returns the bracket that a code point pairs with (BD14 to BD16), or 0 if it is no bracket or pairs with none.
///
/// If a bracket pairs with several characters, which are canonically equivalent, this is the mirrored character of what
/// the bracket is canonically equivalent to, if that is one of them. In the published files it always is, and so U+2329
/// and U+3008 have the same partner, U+3009. Else each character is looked at, and this is the least of them.
pub fn paired_bracket(tables: &Tables, code: u32) -> u32
    ensures { IsPairedBracket tables.now code result }
{
    let Some(c) = char::from_u32(code) else {
        return 0;
    };
    let bracket = tables.unit(c).bracket;
    if matches!(bracket, Bracket::No) {
        return 0;
    }
    if let Some(partner) = mirrored_partner(tables, c, bracket) {
        return u32::from(partner);
    }
    match least_partner(tables, bracket) {
        Some(partner) => u32::from(partner),
        None => 0,
    }
}
