//! The characters of a text in UTF-16: their units, and the offsets at which they begin.
ghost use Rattle.std.specs.Prelude.{ℕ, ◌≡◌, ◌<◌, ◌≤◌, ◌+◌, ◌^◌, ◌∷◌, ◌++◌, List, drop, length, map, slice_index, slice_set, take, IfErr, IfOk, IfSome, IsTrue, MatchOption, OnOk, Some, None};
ghost use Rattle.std.specs.Option.{unwrap_or};
ghost use Rattle.std.specs.Char.Escape.{encode_utf16};
ghost use Rattle.std.specs.Char.Utf16.{utf16_chars};
ghost use Rattle.std.specs.Str.{IsAscii};
ghost use Rattle.units.specs.Classes.{classes_of};
ghost use Rattle.paragraph.specs.ClassSets.{IsSetOf};
ghost use Rattle.ucdfiles.specs.Tables.{AreNeutral, AreOfBlock};
ghost use Rattle.ucdfiles.specs.UnitStages.{unit_by_stages};
ghost use Rattle.decoding.specs.Decoded.{tables_with, AreDecoded, IsWritten};
ghost use Rattle.decoding.specs.Encodings.{in_one_unit, utf16_text, AreNoSurrogates, IsAt, IsFirstLone, IsPaired, IsUtf16};
ghost use Rattle.decoding.specs.Offsets.{Spelled, code_units};
ghost use Rattle.decoding.specs.declared.fault.Faults.TheVariants.{Rejected};

use crate::blocks::write_offsets;
use crate::decoded::{Decoded, KnownText};
use crate::fault::Faults;
use crate::fours::{look_up_ascii, look_up_scalars};
use crate::reached::{Passed, Reached};
use paragraph::class_set::ClassSet;
use std::simd::prelude::*;
use ucdfiles::tables::{BorrowedUnits, Tables};
use units::bracket::Unit;
use units::class::Class;

/// Returns the character that begins at an offset, or none if it is an unpaired surrogate, and the offset after it.
pub fn char_at(text: &[u16], at: usize) -> (Option<char>, usize)
    requires { at < length text.now }
    ensures first { utf16_chars (drop at text.now) ≡ result.0 ∷ utf16_chars (drop result.1 text.now) }
    ensures following { result.1 ≡ at + length (encode_utf16 (unwrap_or result.0 0xFFFD)) }
    ensures inside { result.1 ≤ length text.now }
    ensures forward { at < result.1 }
{
    let high = u32::from(text[at]);
    if high < 0xD800 || 0xE000 <= high {
        return (char::from_u32(high), at + 1);
    }
    if 0xDC00 <= high || text.len() - at < 2 {
        return (None, at + 1);
    }
    let low = u32::from(text[at + 1]);
    if low < 0xDC00 || 0xE000 <= low {
        return (None, at + 1);
    }
    let code = 0x1_0000 + (high - 0xD800) * 0x400 + (low - 0xDC00);
    (char::from_u32(code), at + 2)
}

/// Returns what a character or an unpaired surrogate, given as none, is read as, or none if it is rejected.
fn read(found: Option<char>, faults: Faults) -> Option<char>
    ensures { MatchOption result ((found ≡ None) × (faults ≡ Rejected))
        (λ c. (c ≡ unwrap_or found 0xFFFD) × (faults ≡ Rejected → found ≡ Some c)) }
{
    match (found, faults) {
        (None, Faults::Replaced) => Some(char::REPLACEMENT_CHARACTER),
        (found, _) => found,
    }
}

/// How many code units are tested at once for being no surrogates.
const BLOCK: usize = 8;

/// Returns whether none of these code units is a surrogate.
#[inline(always)]
fn are_no_surrogates(block: u16x8) -> bool
    ensures { IsTrue result → AreNoSurrogates block }
{
    (block >> u16x8::splat(11))
        .simd_eq(u16x8::splat(0x1B))
        .to_bitmask()
        == 0
}

/// Returns whether a block without surrogates begins at an offset.
#[inline(always)]
fn begins_block(text: &[u16], at: usize) -> bool
    requires { at ≤ length text.now }
    ensures { IsTrue result → (at + 8 ≤ length text.now) × AreNoSurrogates (take 8 (drop at text.now)) }
{
    text.len() - at >= BLOCK && are_no_surrogates(u16x8::from_slice(&text[at..]))
}

/// Returns whether a block is ASCII.
#[inline(always)]
fn is_ascii(block: u16x8) -> bool
    ensures { IsTrue result → IsAscii block }
{
    (block & u16x8::splat(0xFF80)).reduce_or() == 0
}

/// Returns four code units as code points.
#[inline(always)]
fn widened(four: &[u16]) -> [u32; 4]
    requires { length four.now ≡ 4 }
    ensures { result ≡ four.now }
{
    [
        u32::from(four[0]),
        u32::from(four[1]),
        u32::from(four[2]),
        u32::from(four[3]),
    ]
}

/// Writes the units of the four ASCII characters from the index `k` on after those of the characters before them.
/// `before` must be the set of the classes before them. Returns that set with their classes.
#[inline(always)]
fn write_ascii_four(
    borrowed: &BorrowedUnits<'_>,
    ascii: &[Class],
    block: &[u16],
    k: usize,
    before: ClassSet,
    units: &mut [Unit],
) -> ClassSet
    requires neutral { AreNeutral borrowed.now.classes borrowed.now.brackets }
    requires block { AreOfBlock borrowed.now.classes 0 ascii.now }
    requires inside { k + 4 ≤ length block.now }
    requires small { IsAscii block.now }
    requires fits { length block.now ≤ length units.old }
    requires before { take k units.old ≡ map (unit_by_stages borrowed.now) (take k block.now) }
    requires classes { IsSetOf before (classes_of (take k units.old)) }
    ensures len { length units.new ≡ length units.old }
    ensures written { take (k + 4) units.new ≡ map (unit_by_stages borrowed.now) (take (k + 4) block.now) }
    ensures classes { IsSetOf result (classes_of (take (k + 4) units.new)) }
{
    let four = widened(&block[k..k + 4]);
    let own = look_up_ascii(borrowed, ascii, &four, &mut units[k..k + 4]);
    before.joined(own)
}

/// Does what `write_ascii_four` does, for code units that are no surrogates.
#[inline(always)]
fn write_four(
    borrowed: &BorrowedUnits<'_>,
    block: &[u16],
    k: usize,
    before: ClassSet,
    units: &mut [Unit],
) -> ClassSet
    requires neutral { AreNeutral borrowed.now.classes borrowed.now.brackets }
    requires inside { k + 4 ≤ length block.now }
    requires scalars { AreNoSurrogates block.now }
    requires fits { length block.now ≤ length units.old }
    requires before { take k units.old ≡ map (unit_by_stages borrowed.now) (take k block.now) }
    requires classes { IsSetOf before (classes_of (take k units.old)) }
    ensures len { length units.new ≡ length units.old }
    ensures written { take (k + 4) units.new ≡ map (unit_by_stages borrowed.now) (take (k + 4) block.now) }
    ensures classes { IsSetOf result (classes_of (take (k + 4) units.new)) }
{
    let four = widened(&block[k..k + 4]);
    let own = look_up_scalars(borrowed, &four, &mut units[k..k + 4]);
    before.joined(own)
}

/// Writes the units of a block of ASCII, and returns the set of their classes. `ascii` must be the classes of ASCII.
/// The class of each bracket must be ON.
#[inline(always)]
fn write_ascii(
    borrowed: &BorrowedUnits<'_>,
    ascii: &[Class],
    block: &[u16],
    units: &mut [Unit],
) -> ClassSet
    requires neutral { AreNeutral borrowed.now.classes borrowed.now.brackets }
    requires block { AreOfBlock borrowed.now.classes 0 ascii.now }
    requires len { length block.now ≡ 8 }
    requires small { IsAscii block.now }
    requires fits { length units.old ≡ 8 }
    ensures units { units.new ≡ map (unit_by_stages borrowed.now) block.now }
    ensures classes { IsSetOf result (classes_of units.new) }
{
    let half = write_ascii_four(borrowed, ascii, block, 0, ClassSet::none(), units);
    write_ascii_four(borrowed, ascii, block, 4, half, units)
}

/// Writes the units of a block without surrogates, and returns the set of their classes. The class of each bracket must
/// be ON.
#[inline(always)]
fn write_scalars(borrowed: &BorrowedUnits<'_>, block: &[u16], units: &mut [Unit]) -> ClassSet
    requires neutral { AreNeutral borrowed.now.classes borrowed.now.brackets }
    requires len { length block.now ≡ 8 }
    requires scalars { AreNoSurrogates block.now }
    requires fits { length units.old ≡ 8 }
    ensures units { units.new ≡ map (unit_by_stages borrowed.now) block.now }
    ensures classes { IsSetOf result (classes_of units.new) }
{
    let half = write_four(borrowed, block, 0, ClassSet::none(), units);
    write_four(borrowed, block, 4, half, units)
}

/// Writes the units of a block without surrogates, and returns the set of their classes. `ascii` must be the classes
/// of ASCII. The class of each bracket must be ON.
#[inline(always)]
fn look_up_block(
    borrowed: &BorrowedUnits<'_>,
    ascii: &[Class],
    block: &[u16],
    units: &mut [Unit],
) -> ClassSet
    requires neutral { AreNeutral borrowed.now.classes borrowed.now.brackets }
    requires block { AreOfBlock borrowed.now.classes 0 ascii.now }
    requires len { length block.now ≡ 8 }
    requires scalars { AreNoSurrogates block.now }
    requires fits { length units.old ≡ 8 }
    ensures units { units.new ≡ map (unit_by_stages borrowed.now) block.now }
    ensures classes { IsSetOf result (classes_of units.new) }
{
    if is_ascii(u16x8::from_slice(block)) {
        write_ascii(borrowed, ascii, block, units)
    } else {
        write_scalars(borrowed, block, units)
    }
}

/// Writes the units and the offsets of a block without surrogates. `classes` must be the set of the classes before it.
/// Returns that set with the classes of the block. `ascii` must be the classes of ASCII, and the class of each bracket
/// ON.
#[inline(always)]
fn decode_block(
    text: &[u16],
    borrowed: &BorrowedUnits<'_>,
    ascii: &[Class],
    before: Reached,
    classes: ClassSet,
    units: &mut [Unit],
    starts: &mut [u32],
) -> ClassSet
    requires neutral { AreNeutral borrowed.now.classes borrowed.now.brackets }
    requires ascii { AreOfBlock borrowed.now.classes 0 ascii.now }
    requires block { before.code_units + 8 ≤ length text.now }
    requires scalars { AreNoSurrogates (take 8 (drop before.code_units text.now)) }
    requires few { before.characters ≤ before.code_units }
    requires units { length text.now ≤ length units.old }
    requires starts { length text.now ≤ length starts.old }
    requires small { length text.now < 2 ^ 32 }
    requires classes { IsSetOf classes (classes_of (take before.characters units.old)) }
    ensures units_len { length units.new ≡ length units.old }
    ensures starts_len { length starts.new ≡ length starts.old }
    ensures written { (front : List Spelled) → IsWritten (tables_with borrowed.now) front before units.old starts.old
        → IsWritten (tables_with borrowed.now)
        (front ++ map in_one_unit (take 8 (drop before.code_units text.now)))
        (record { characters = before.characters + 8; code_units = before.code_units + 8 }) units.new starts.new }
    ensures classes { IsSetOf result (classes_of (take (before.characters + 8) units.new)) }
{
    let count = before.characters;
    let at = before.code_units;
    let own = look_up_block(
        borrowed,
        ascii,
        &text[at..at + BLOCK],
        &mut units[count..count + BLOCK],
    );
    write_offsets(&mut starts[count..count + BLOCK], at);
    classes.joined(own)
}

/// Writes the units and the offsets of blocks from an offset on, as long as they have no surrogates. Writes nothing if
/// the class of each bracket isn't known to be ON.
#[inline(never)]
fn decode_blocks(
    text: &[u16],
    tables: &Tables,
    before: Passed,
    units: &mut [Unit],
    starts: &mut [u32],
) -> Passed
    requires units { length text.now ≤ length units.old }
    requires starts { length text.now ≤ length starts.old }
    requires small { length text.now < 2 ^ 32 }
    requires reached { IsAt text.now before.reached.characters before.reached.code_units }
    requires written { IsWritten tables.now (take before.reached.characters (utf16_text text.now)) before.reached
        units.old starts.old }
    requires classes { IsSetOf before.classes (classes_of (take before.reached.characters units.old)) }
    ensures units_len { length units.new ≡ length units.old }
    ensures starts_len { length starts.new ≡ length starts.old }
    ensures from { before.reached.code_units ≤ result.reached.code_units }
    ensures reached { IsAt text.now result.reached.characters result.reached.code_units }
    ensures written { IsWritten tables.now (take result.reached.characters (utf16_text text.now)) result.reached
        units.new starts.new }
    ensures paired { (k : ℕ) → before.reached.characters ≤ k → k < result.reached.characters
        → IsPaired text.now k }
    ensures classes { IsSetOf result.classes (classes_of (take result.reached.characters units.new)) }
{
    let borrowed = tables.units();
    if !borrowed.are_neutral() {
        return before;
    }
    let ascii = borrowed.block_classes(0);
    let mut count = before.reached.characters;
    let mut at = before.reached.code_units;
    let mut classes = before.classes;
    'scalars: while begins_block(text, at) {
        let reached = Reached {
            characters: count,
            code_units: at,
        };
        classes = decode_block(text, &borrowed, ascii, reached, classes, units, starts);
        count += BLOCK;
        at += BLOCK;
    }
    Passed {
        reached: Reached {
            characters: count,
            code_units: at,
        },
        classes,
    }
}

/// Writes the unit of a character after those of the `count` characters before it. `classes` must be the set of the
/// classes before it. Returns that set with its own class.
#[inline(always)]
fn write_char(
    borrowed: &BorrowedUnits<'_>,
    c: char,
    count: usize,
    classes: ClassSet,
    units: &mut [Unit],
) -> ClassSet
    requires inside { count < length units.old }
    requires classes { IsSetOf classes (classes_of (take count units.old)) }
    ensures units { units.new ≡ slice_set units.old count (unit_by_stages borrowed.now c) }
    ensures classes { IsSetOf result (classes_of (take (count + 1) units.new)) }
{
    borrowed.write_unit(c, &mut units[count]);
    classes.with(units[count].class)
}

/// Does what `look_up_utf16` does. Tests for blocks only if `by_blocks` is true.
#[inline(always)]
fn decode_units(
    text: &[u16],
    faults: Faults,
    tables: &Tables,
    by_blocks: bool,
    units: &mut [Unit],
    starts: &mut [u32],
) -> Result<KnownText, usize>
    requires units { length text.now ≤ length units.old }
    requires starts { length text.now < length starts.old }
    requires small { length text.now < 2 ^ 32 }
    ensures units_len { length units.new ≡ length units.old }
    ensures starts_len { length starts.new ≡ length starts.old }
    ensures fault { IfErr result (λ at. (faults ≡ Rejected) × IsFirstLone text.now at) }
    ensures well_formed { OnOk result (faults ≡ Rejected → IsUtf16 text.now) }
    ensures decoded { IfOk result (λ known.
        AreDecoded tables.now (utf16_text text.now) known.characters units.new starts.new) }
    ensures classes { IfOk result (λ known.
        IsSetOf known.classes (classes_of (take known.characters units.new))) }
    ensures whole { OnOk result (code_units (utf16_text text.now) ≡ length text.now) }
{
    let borrowed = tables.units();
    let mut count = 0;
    let mut at = 0;
    let mut tested = 0;
    let mut classes = ClassSet::none();
    while at < text.len() {
        if by_blocks && tested <= at {
            let before = Passed {
                reached: Reached {
                    characters: count,
                    code_units: at,
                },
                classes,
            };
            let passed = decode_blocks(text, tables, before, units, starts);
            count = passed.reached.characters;
            at = passed.reached.code_units;
            classes = passed.classes;
            tested = at + 2 * BLOCK;
            continue;
        }
        let (found, following) = char_at(text, at);
        let Some(c) = read(found, faults) else {
            return Err(at);
        };
        classes = write_char(&borrowed, c, count, classes, units);
        starts[count] = at as u32;
        count += 1;
        at = following;
    }
    starts[count] = at as u32;
    Ok(KnownText {
        characters: count,
        classes,
    })
}

/// Does what `decode_utf16` does, one by one. Takes fewer instructions if there is no block.
// Not inlined, a code unit takes fewer instructions.
#[inline(never)]
fn decode_short(
    text: &[u16],
    faults: Faults,
    tables: &Tables,
    units: &mut [Unit],
    starts: &mut [u32],
) -> Result<usize, usize>
    requires units { length text.now ≤ length units.old }
    requires starts { length text.now < length starts.old }
    requires small { length text.now < 2 ^ 32 }
    ensures units_len { length units.new ≡ length units.old }
    ensures starts_len { length starts.new ≡ length starts.old }
    ensures fault { IfErr result (λ at. (faults ≡ Rejected) × IsFirstLone text.now at) }
    ensures well_formed { OnOk result (faults ≡ Rejected → IsUtf16 text.now) }
    ensures decoded { IfOk result (λ count.
        AreDecoded tables.now (utf16_text text.now) count units.new starts.new) }
    ensures whole { OnOk result (code_units (utf16_text text.now) ≡ length text.now) }
{
    match decode_units(text, faults, tables, false, units, starts) {
        Ok(known) => Ok(known.characters),
        Err(at) => Err(at),
    }
}

/// Does what `look_up_utf16` does, by blocks.
// Not inlined, a code unit takes fewer instructions.
#[inline(never)]
fn decode_long(
    text: &[u16],
    faults: Faults,
    tables: &Tables,
    units: &mut [Unit],
    starts: &mut [u32],
) -> Result<KnownText, usize>
    requires units { length text.now ≤ length units.old }
    requires starts { length text.now < length starts.old }
    requires small { length text.now < 2 ^ 32 }
    ensures units_len { length units.new ≡ length units.old }
    ensures starts_len { length starts.new ≡ length starts.old }
    ensures fault { IfErr result (λ at. (faults ≡ Rejected) × IsFirstLone text.now at) }
    ensures well_formed { OnOk result (faults ≡ Rejected → IsUtf16 text.now) }
    ensures decoded { IfOk result (λ known.
        AreDecoded tables.now (utf16_text text.now) known.characters units.new starts.new) }
    ensures classes { IfOk result (λ known.
        IsSetOf known.classes (classes_of (take known.characters units.new))) }
    ensures whole { OnOk result (code_units (utf16_text text.now) ≡ length text.now) }
{
    decode_units(text, faults, tables, true, units, starts)
}

/// Does what `decode_utf16` does, and also returns the set of the classes of these units, or `None` if there are only a
/// few.
pub fn look_up_utf16(
    text: &[u16],
    faults: Faults,
    tables: &Tables,
    units: &mut [Unit],
    starts: &mut [u32],
) -> Result<Decoded, usize>
    requires units { length text.now ≤ length units.old }
    requires starts { length text.now < length starts.old }
    requires small { length text.now < 2 ^ 32 }
    ensures units_len { length units.new ≡ length units.old }
    ensures starts_len { length starts.new ≡ length starts.old }
    ensures fault { IfErr result (λ at. (faults ≡ Rejected) × IsFirstLone text.now at) }
    ensures well_formed { OnOk result (faults ≡ Rejected → IsUtf16 text.now) }
    ensures decoded { IfOk result (λ decoded.
        AreDecoded tables.now (utf16_text text.now) decoded.characters units.new starts.new) }
    ensures whole { OnOk result (code_units (utf16_text text.now) ≡ length text.now) }
    ensures classes { IfOk result (λ decoded. IfSome decoded.classes
        (λ set. IsSetOf set (classes_of (take decoded.characters units.new)))) }
{
    if text.len() < BLOCK {
        return match decode_short(text, faults, tables, units, starts) {
            Ok(characters) => Ok(Decoded {
                characters,
                classes: None,
            }),
            Err(at) => Err(at),
        };
    }
    match decode_long(text, faults, tables, units, starts) {
        Ok(known) => Ok(Decoded {
            characters: known.characters,
            classes: Some(known.classes),
        }),
        Err(at) => Err(at),
    }
}

/// Writes the units and the offsets of a text, and after the offsets the offset of the text's end. Returns how many
/// characters there are. If `faults` rejects unpaired surrogates, fails with the offset of the first one.
pub fn decode_utf16(
    text: &[u16],
    faults: Faults,
    tables: &Tables,
    units: &mut [Unit],
    starts: &mut [u32],
) -> Result<usize, usize>
    requires units { length text.now ≤ length units.old }
    requires starts { length text.now < length starts.old }
    requires small { length text.now < 2 ^ 32 }
    ensures units_len { length units.new ≡ length units.old }
    ensures starts_len { length starts.new ≡ length starts.old }
    ensures fault { IfErr result (λ at. (faults ≡ Rejected) × IsFirstLone text.now at) }
    ensures well_formed { OnOk result (faults ≡ Rejected → IsUtf16 text.now) }
    ensures decoded { IfOk result (λ count.
        AreDecoded tables.now (utf16_text text.now) count units.new starts.new) }
    ensures whole { OnOk result (code_units (utf16_text text.now) ≡ length text.now) }
{
    let decoded = look_up_utf16(text, faults, tables, units, starts)?;
    Ok(decoded.characters)
}
