//! The built-in classes, compared with a second source: the crate `ucd_bidi` of the kit, which has another edition.

use anyhow::{Context, Result, bail};
use row_files::words::push_word;
use std::alloc::{AllocError, Global};
use ucd_age::Age;
use ucd_bidi::BidiClass;
use ucdfiles::tables::Tables;
use units::class::Class;

/// Returns a class of the kit as one of ours.
fn class_of_kit(class: BidiClass) -> Class {
    match class {
        BidiClass::ArabicLetter => Class::AL,
        BidiClass::ArabicNumber => Class::AN,
        BidiClass::ParagraphSeparator => Class::B,
        BidiClass::BoundaryNeutral => Class::BN,
        BidiClass::CommonSeparator => Class::CS,
        BidiClass::EuropeanNumber => Class::EN,
        BidiClass::EuropeanSeparator => Class::ES,
        BidiClass::EuropeanTerminator => Class::ET,
        BidiClass::FirstStrongIsolate => Class::FSI,
        BidiClass::LeftToRight => Class::L,
        BidiClass::LeftToRightEmbedding => Class::LRE,
        BidiClass::LeftToRightIsolate => Class::LRI,
        BidiClass::LeftToRightOverride => Class::LRO,
        BidiClass::NonspacingMark => Class::NSM,
        BidiClass::OtherNeutral => Class::ON,
        BidiClass::PopDirectionalFormat => Class::PDF,
        BidiClass::PopDirectionalIsolate => Class::PDI,
        BidiClass::RightToLeft => Class::R,
        BidiClass::RightToLeftEmbedding => Class::RLE,
        BidiClass::RightToLeftIsolate => Class::RLI,
        BidiClass::RightToLeftOverride => Class::RLO,
        BidiClass::SegmentSeparator => Class::S,
        BidiClass::WhiteSpace => Class::WS,
    }
}

/// The characters whose classes are compared.
#[derive(Clone, Copy, PartialEq, Eq)]
enum Compared {
    /// Those that Unicode 18.0 added.
    New,
    /// All others.
    Older,
}

/// Returns whether the code point is one of these characters, and its built-in class differs from that of the kit.
fn differs(tables: &Tables, code: u32, compared: Compared) -> bool {
    match char::from_u32(code) {
        Some(c) => {
            (Age::for_char(c) == Age::V18_0) == (compared == Compared::New)
                && tables.unit(c).class != class_of_kit(BidiClass::for_char(c))
        }
        None => false,
    }
}

/// Returns the ranges of those of these characters, from the first to the last, whose classes differ.
fn differing(
    alloc: Global,
    compared: Compared,
    first: u32,
    last: u32,
) -> Result<Vec<(u32, u32)>, AllocError> {
    let tables = standard::tables();
    let mut ranges: Vec<(u32, u32)> = Vec::new(alloc);
    for code in first..=last {
        if differs(&tables, code, compared) {
            match ranges.last_mut() {
                Some(range) if code > 0 && range.1 == code - 1 => range.1 = code,
                _ => ranges.push((code, code))?,
            }
        }
    }
    Ok(ranges)
}

/// Appends the ranges in the range `FIRST..LAST` of code points where the classes of characters differ. They are those
/// of characters that are `new` or `older`. Fails if a field is not so.
pub fn push_differing(alloc: Global, age: &str, range: &str, out: &mut String) -> Result<()> {
    let compared = match age {
        "new" => Compared::New,
        "older" => Compared::Older,
        _ => bail!("characters are `new` or `older`, not {age}"),
    };
    let (first, last) = range.split_once("..").context("no `..` is in the range")?;
    let (first, last) = (
        u32::from_str_radix(first, 16)?,
        u32::from_str_radix(last, 16)?,
    );
    for (first, last) in &differing(alloc, compared, first, last)? {
        push_word(out, format_args!("{first:04X}..{last:04X}"))?;
    }
    Ok(())
}
