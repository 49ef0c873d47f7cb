// One line of BidiBrackets.txt or BidiMirroring.txt.
ghost use Rattle.std.specs.Prelude.{◌≡◌, ◌≤◌, IfOk};
ghost use Rattle.units.specs.Text.{fields_of};
ghost use Rattle.ucdfiles.specs.PairFiles.{char_of, side_named, bracket_in, mirror_in, pair_line_says};
ghost use Rattle.ucdfiles.specs.Statements.{IsRisingLine};

use crate::fault::Fault;
use crate::sided_bracket::{BracketSide, SidedBracket};
use crate::span::{FileLine, Span};
use units::line_cut::LONGEST_LINE;
use units::text::code_point::code_point;
use units::text::cut::{three_fields, two_fields};
use units::text::trim::content;

// Reads a code point that is no surrogate.
fn character(field: &[u8]) -> Option<char>
    ensures { result ≡ char_of field.now }
{
    char::from_u32(code_point(field)?)
}

fn side(field: &[u8]) -> Option<BracketSide>
    ensures { result ≡ side_named field.now }
{
    match field {
        b"o" => Some(BracketSide::Open),
        b"c" => Some(BracketSide::Close),
        _ => None,
    }
}

// Returns a span of one character with this value.
fn single<V>(c: char, value: V) -> Span<V>
    ensures first { result.first ≡ c }
    ensures last { result.last ≡ c }
    ensures value { result.value ≡ value }
{
    let code = u32::from(c);
    Span {
        first: code,
        last: code,
        value,
    }
}

fn mirror_span(content: &[u8]) -> Result<Span<char>, Fault>
    ensures value { mirror_in (fields_of content.now) ≡ result }
    ensures rising { IfOk result (λ span. span.first ≤ span.last) }
{
    let (code, image) = two_fields(content).ok_or(Fault::Fields)?;
    let code = character(code).ok_or(Fault::CodePoint)?;
    let image = character(image).ok_or(Fault::CodePoint)?;
    Ok(single(code, image))
}

fn bracket_span(content: &[u8]) -> Result<Span<SidedBracket>, Fault>
    ensures value { bracket_in (fields_of content.now) ≡ result }
    ensures rising { IfOk result (λ span. span.first ≤ span.last) }
{
    let (code, paired, kind) = three_fields(content).ok_or(Fault::Fields)?;
    let bracket = character(code).ok_or(Fault::CodePoint)?;
    let paired = character(paired).ok_or(Fault::CodePoint)?;
    let side = side(kind).ok_or(Fault::BracketKind)?;
    let keyed_by = match side {
        BracketSide::Open => paired,
        BracketSide::Close => bracket,
    };
    Ok(single(bracket, SidedBracket { side, keyed_by }))
}

/// Returns what a line of BidiMirroring.txt states.
pub fn mirror_line(line: &[u8]) -> FileLine<char>
    ensures value { pair_line_says mirror_in line.now ≡ result }
    ensures rising { IsRisingLine result }
{
    if line.len() > LONGEST_LINE {
        return FileLine::Faulty(Fault::LineTooLong);
    }
    let content = content(line);
    if content.is_empty() {
        return FileLine::Silent;
    }
    match mirror_span(content) {
        Ok(span) => FileLine::Data(span),
        Err(fault) => FileLine::Faulty(fault),
    }
}

/// Returns what a line of BidiBrackets.txt states.
pub fn bracket_line(line: &[u8]) -> FileLine<SidedBracket>
    ensures value { pair_line_says bracket_in line.now ≡ result }
    ensures rising { IsRisingLine result }
{
    if line.len() > LONGEST_LINE {
        return FileLine::Faulty(Fault::LineTooLong);
    }
    let content = content(line);
    if content.is_empty() {
        return FileLine::Silent;
    }
    match bracket_span(content) {
        Ok(span) => FileLine::Data(span),
        Err(fault) => FileLine::Faulty(fault),
    }
}
