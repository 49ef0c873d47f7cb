//! A text read unit by unit, without columns for its units; and tests whether it is well formed.
ghost use Rattle.std.specs.Prelude.{◌≡◌, ◌<◌, ◌≤◌, ◌∷◌, drop, length, IfErr, MatchOption, OnOk};
ghost use Rattle.std.specs.Char.{IsScalar};
ghost use Rattle.std.specs.Str.{IsUtf8, StartsWithNoChar};
ghost use Rattle.std.specs.Str.Lossy.{utf8_invalid_len, utf8_valid_len};
ghost use Rattle.decoding.specs.Encodings.{in_utf16, in_utf8, utf16_text, utf8_text, IsFirstLone, IsUtf16};
ghost use Rattle.decoding.specs.LossyTexts.{utf8_lossy_text};
ghost use Rattle.sources.specs.ClassNumbers.{IsClassNumber};
ghost use Rattle.sources.specs.Kinds.{AllAre};
ghost use Rattle.sources.specs.NumberedUnits.{AreNumbered};
ghost use Rattle.sources.specs.Seen.{source_seen};
ghost use Rattle.sources.specs.Sources.{IsWellFormed, Classes, Codes, Units, Utf16, Utf8};
ghost use Rattle.sources.specs.Splitting.{IsEmpty, IsSplit};

use crate::class_numbers::{check_classes, unit_of};
use crate::codes::check_codes;
use crate::numbered_units::{NumberedUnit, check_units, unit_of_numbers};
use crate::source::Source;
use decoding::fault::Faults;
use decoding::known::known_char_at;
use decoding::spelling::char_at;
use decoding::utf16;
use ucdfiles::tables::Tables;
use units::bracket::Unit;

/// Tests whether bytes are UTF-8. Fails with the offset of the first fault.
fn check_utf8(bytes: &[u8]) -> Result<(), usize>
    ensures fault { IfErr result (λ at. (IsUtf8 bytes.now → ⊥) × (at ≡ utf8_valid_len bytes.now)) }
    ensures well_formed { OnOk result (IsUtf8 bytes.now) }
{
    match str::from_utf8(bytes) {
        Ok(_) => Ok(()),
        Err(error) => Err(error.valid_up_to()),
    }
}

/// Tests whether code units are UTF-16. Fails with the offset of the first lone surrogate.
fn check_utf16(text: &[u16]) -> Result<(), usize>
    ensures fault { IfErr result (IsFirstLone text.now) }
    ensures well_formed { OnOk result (IsUtf16 text.now) }
{
    let mut at = 0;
    while at < text.len() {
        let (Some(_), after) = utf16::char_at(text, at) else {
            return Err(at);
        };
        at = after;
    }
    Ok(())
}

/// Returns the first character of a text in UTF-8 that is well formed, and how many bytes spell it.
fn first_of_utf8(bytes: &[u8]) -> (char, usize)
    requires some { 0 < length bytes.now }
    requires well_formed { IsUtf8 bytes.now }
    ensures first { utf8_text bytes.now ≡ in_utf8 result.0 ∷ utf8_text (drop result.1 bytes.now) }
    ensures rest { IsUtf8 (drop result.1 bytes.now) }
    ensures forward { 0 < result.1 }
    ensures inside { result.1 ≤ length bytes.now }
{
    known_char_at(bytes, 0)
}

/// Returns the length of the maximal subpart at the front of bytes that begin no character.
fn fault_width(bytes: &[u8]) -> usize
    requires some { 0 < length bytes.now }
    requires none { StartsWithNoChar bytes.now }
    ensures width { result ≡ utf8_invalid_len bytes.now }
    ensures forward { 0 < result }
    ensures inside { result ≤ length bytes.now }
{
    match str::from_utf8(bytes) {
        Ok(_) => bytes.len(),
        Err(error) => error.error_len().unwrap_or(bytes.len()),
    }
}

/// Returns the first character of a text in UTF-8 that may be ill formed, and how many bytes it is read from. A maximal
/// subpart of ill-formed bytes is read as U+FFFD.
fn first_of_lossy(bytes: &[u8]) -> (char, usize)
    requires { 0 < length bytes.now }
    ensures first { utf8_lossy_text bytes.now
        ≡ record { code = result.0; width = result.1 } ∷ utf8_lossy_text (drop result.1 bytes.now) }
    ensures forward { 0 < result.1 }
    ensures inside { result.1 ≤ length bytes.now }
{
    match char_at(bytes, 0) {
        Some(found) => found,
        None => (char::REPLACEMENT_CHARACTER, fault_width(bytes)),
    }
}

/// Returns the first character of a text in UTF-16, and how many code units it is read from. A lone surrogate is read
/// as U+FFFD.
fn first_of_utf16(text: &[u16]) -> (char, usize)
    requires { 0 < length text.now }
    ensures first { utf16_text text.now ≡ in_utf16 result.0 ∷ utf16_text (drop result.1 text.now) }
    ensures rest { IsUtf16 text.now → IsUtf16 (drop result.1 text.now) }
    ensures forward { 0 < result.1 }
    ensures inside { result.1 ≤ length text.now }
{
    let (found, width) = utf16::char_at(text, 0);
    (found.unwrap_or(char::REPLACEMENT_CHARACTER), width)
}

/// Splits code points after the first.
fn split_codes<'t>(codes: &'t [u32], tables: &Tables) -> Option<(Unit, Source<'t>)>
    requires { AllAre IsScalar codes.now }
    ensures { MatchOption result (IsEmpty tables.now (Codes codes.now))
        (λ found. IsSplit tables.now (Codes codes.now) found.0 (source_seen found.1)) }
{
    if codes.is_empty() {
        return None;
    }
    let c = char::from_u32(codes[0]).unwrap();
    Some((tables.unit(c), Source::Codes(&codes[1..])))
}

/// Splits classes after the first.
fn split_classes<'t>(numbers: &'t [u8], tables: &Tables) -> Option<(Unit, Source<'t>)>
    requires { AllAre IsClassNumber numbers.now }
    ensures { MatchOption result (IsEmpty tables.now (Classes numbers.now))
        (λ found. IsSplit tables.now (Classes numbers.now) found.0 (source_seen found.1)) }
{
    if numbers.is_empty() {
        return None;
    }
    let unit = unit_of(numbers[0]).unwrap();
    Some((unit, Source::Classes(&numbers[1..])))
}

/// Splits units by numbers after the first.
fn split_units<'t>(numbered: &'t [NumberedUnit], tables: &Tables) -> Option<(Unit, Source<'t>)>
    requires { AreNumbered numbered.now }
    ensures { MatchOption result (IsEmpty tables.now (Units numbered.now))
        (λ found. IsSplit tables.now (Units numbered.now) found.0 (source_seen found.1)) }
{
    if numbered.is_empty() {
        return None;
    }
    let unit = unit_of_numbers(numbered[0]).unwrap();
    Some((unit, Source::Units(&numbered[1..])))
}

/// Splits bytes after the first character.
fn split_utf8<'t>(bytes: &'t [u8], faults: Faults, tables: &Tables) -> Option<(Unit, Source<'t>)>
    requires { IsWellFormed (Utf8 bytes.now faults) }
    ensures { MatchOption result (IsEmpty tables.now (Utf8 bytes.now faults))
        (λ found. IsSplit tables.now (Utf8 bytes.now faults) found.0 (source_seen found.1)) }
{
    if bytes.is_empty() {
        return None;
    }
    let (c, width) = match faults {
        Faults::Rejected => first_of_utf8(bytes),
        Faults::Replaced => first_of_lossy(bytes),
    };
    Some((tables.unit(c), Source::Utf8(&bytes[width..], faults)))
}

/// Splits code units of 16 bits after the first character.
fn split_utf16<'t>(text: &'t [u16], faults: Faults, tables: &Tables) -> Option<(Unit, Source<'t>)>
    requires { IsWellFormed (Utf16 text.now faults) }
    ensures { MatchOption result (IsEmpty tables.now (Utf16 text.now faults))
        (λ found. IsSplit tables.now (Utf16 text.now faults) found.0 (source_seen found.1)) }
{
    if text.is_empty() {
        return None;
    }
    let (c, width) = first_of_utf16(text);
    Some((tables.unit(c), Source::Utf16(&text[width..], faults)))
}

impl<'t> Source<'t> {
    ghost use Rattle.std.specs.Prelude.{◌≡◌, IfErr, MatchOption, OnOk};
    ghost use Rattle.sources.specs.Seen.{source_seen};
    ghost use Rattle.sources.specs.Sources.{IsFirstFault, IsWellFormed};
    ghost use Rattle.sources.specs.Splitting.{IsEmpty, IsSplit};

    /// Tests whether the text is well formed. Fails with the offset of its first unit that is not part of a character.
    // Inlined, a call on a short text takes fewer instructions.
    #[inline(always)]
    pub fn check(self) -> Result<(), usize>
        ensures fault { IfErr result (IsFirstFault (source_seen self.entry)) }
        ensures well_formed { OnOk result (IsWellFormed (source_seen self.entry)) }
    {
        match self {
            Source::Codes(codes) => check_codes(codes),
            Source::Classes(numbers) => check_classes(numbers),
            Source::Units(numbered) => check_units(numbered),
            Source::Utf8(bytes, Faults::Rejected) => check_utf8(bytes),
            Source::Utf16(text, Faults::Rejected) => check_utf16(text),
            Source::Utf8(_, Faults::Replaced) | Source::Utf16(_, Faults::Replaced) => Ok(()),
        }
    }

    /// Returns the unit of the first character of a well-formed text, and the text after it. Returns `None` if the text
    /// is empty.
    pub fn split_first(self, tables: &Tables) -> Option<(Unit, Source<'t>)>
        requires { IsWellFormed (source_seen self) }
        ensures { MatchOption result (IsEmpty tables.now (source_seen self.entry))
            (λ found. IsSplit tables.now (source_seen self.entry) found.0 (source_seen found.1)) }
    {
        match self {
            Source::Codes(codes) => split_codes(codes, tables),
            Source::Classes(numbers) => split_classes(numbers, tables),
            Source::Units(numbered) => split_units(numbered, tables),
            Source::Utf8(bytes, faults) => split_utf8(bytes, faults, tables),
            Source::Utf16(text, faults) => split_utf16(text, faults, tables),
        }
    }
}
