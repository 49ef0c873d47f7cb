//! The characters of a text in UTF-8: their units, the offsets at which they begin, and the offset of the first fault.
ghost use Rattle.std.specs.Prelude.{ℕ, ◌≡◌, ◌<◌, ◌≤◌, ◌+◌, ◌^◌, ◌++◌, List, drop, length, map, slice_index, take, eqb, leb, IfErr, IfOk, IfSome, IsTrue, OnOk};
ghost use Rattle.std.specs.Simd.Lanes.{mask_l};
ghost use Rattle.std.specs.Str.{chars, IsAscii, IsUtf8};
ghost use Rattle.std.specs.Str.Lossy.{utf8_valid_len};
ghost use Rattle.units.specs.Classes.{classes_of};
ghost use Rattle.paragraph.specs.ClassSets.{IsSetOf};
ghost use Rattle.ucdfiles.specs.Tables.{AreNeutral, AreOfBlock};
ghost use Rattle.ucdfiles.specs.UnitStages.{unit_by_stages};
ghost use Rattle.decoding.specs.Decoded.{AreDecoded, IsReadUpTo, IsWritten};
ghost use Rattle.decoding.specs.Encodings.{utf8_text};
ghost use Rattle.decoding.specs.Offsets.{Spelled};
ghost use Rattle.decoding.specs.Spelling.{AreFollowed, IsInBlock};

use crate::blocks::write_offsets;
use crate::decoded::Decoded;
use crate::fours::look_up_ascii;
use crate::known::{InBlock, four_at, known_char_at, one_at, three_at, two_at};
use crate::reached::{Passed, Reached};
use crate::spelling::char_at;
use paragraph::class_set::ClassSet;
use std::simd::prelude::*;
use ucdfiles::tables::{BorrowedUnits, Tables};
use units::bracket::Unit;
use units::class::Class;

/// Appends the unit and the offset of each character of a text to the columns, after the `before.characters` that are
/// written already.
pub(crate) fn fill_str(
    text: &str,
    tables: &Tables,
    before: Reached,
    units: &mut [Unit],
    starts: &mut [u32],
) -> Reached
    requires units { before.characters + length (chars text.now) ≤ length units.old }
    requires starts { before.characters + length (chars text.now) ≤ length starts.old }
    requires small { before.code_units + length text.now < 2 ^ 32 }
    ensures units_len { length units.new ≡ length units.old }
    ensures starts_len { length starts.new ≡ length starts.old }
    ensures characters { result.characters ≡ before.characters + length (chars text.now) }
    ensures code_units { result.code_units ≡ before.code_units + length text.now }
    ensures written { (front : List Spelled) → IsWritten tables.now front before units.old starts.old
        → IsWritten tables.now (front ++ utf8_text text.now) result units.new starts.new }
{
    let borrowed = tables.units();
    let mut characters = before.characters;
    let mut code_units = before.code_units;
    for c in text.chars() {
        borrowed.write_unit(c, &mut units[characters]);
        starts[characters] = code_units as u32;
        characters += 1;
        code_units += c.len_utf8();
    }
    Reached {
        characters,
        code_units,
    }
}

/// How many bytes are tested, or decoded, at once.
const BLOCK: usize = 16;

#[inline(always)]
fn is_ascii(block: u8x16) -> bool
    ensures { IsTrue result → IsAscii block }
{
    block.simd_ge(u8x16::splat(0x80)).to_bitmask() == 0
}

/// Returns the end of the blocks of ASCII that begin at an offset.
#[inline(always)]
fn ascii_end(bytes: &[u8], from: usize) -> usize
    requires inside { from ≤ length bytes.now }
    requires front { IsUtf8 (take from bytes.now) }
    ensures forward { from ≤ result }
    ensures inside { result ≤ length bytes.now }
    ensures front { IsUtf8 (take result bytes.now) }
{
    let mut at = from;
    while bytes.len() - at >= BLOCK && is_ascii(u8x16::from_slice(&bytes[at..])) {
        at += BLOCK;
    }
    at
}

/// Returns which bytes of a block are at least as great as another one, the first one's bit lowest.
#[inline(always)]
fn at_least(block: u8x16, least: u8) -> u64
    ensures small { result < 2 ^ 16 }
    ensures bits { result ≡ mask_l (map (leb least) block) }
{
    block.simd_ge(u8x16::splat(least)).to_bitmask()
}

/// Returns which bytes of a block are equal to another one, the first one's bit lowest.
#[inline(always)]
fn equal_to(block: u8x16, byte: u8) -> u64
    ensures small { result < 2 ^ 16 }
    ensures bits { result ≡ mask_l (map (λ x. eqb x byte) block) }
{
    block.simd_eq(u8x16::splat(byte)).to_bitmask()
}

/// Returns whether each byte `above` of a block is followed by one that is at least `limit`, and each byte `below` by a
/// smaller one. Nothing follows the last byte.
#[inline(always)]
fn are_followed(block: u8x16, above: u8, below: u8, limit: u8) -> bool
    requires { above < below }
    ensures { IsTrue result → AreFollowed block above below limit }
{
    let first = equal_to(block, above);
    let both = first + equal_to(block, below);
    both == 0 || both & (at_least(block, limit) / 2) == first % 0x8000
}

/// Returns whether the first two bytes of each character of four bytes in a block are well formed. `fours` must be the
/// bits of their first bytes.
#[inline(always)]
fn are_fours(block: u8x16, fours: u64) -> bool
    requires { fours ≡ mask_l (map (leb 0xF0) block) }
    ensures most { IsTrue result → mask_l (map (leb 0xF5) block) ≡ 0 }
    ensures followed { IsTrue result → AreFollowed block 0xF0 0xF4 0x90 }
{
    if fours == 0 {
        return true;
    }
    at_least(block, 0xF5) == 0 && are_followed(block, 0xF0, 0xF4, 0x90)
}

/// Does what `whole_chars` does, for a block without characters of three bytes or more.
#[inline(always)]
fn whole_pairs(block: u8x16) -> usize
    requires { mask_l (map (leb 0xE0) block) ≡ 0 }
    ensures inside { result ≤ 16 }
    ensures text { IsUtf8 (take result block) }
{
    let leads = at_least(block, 0xC0);
    let others = at_least(block, 0x80);
    // The bits of continuation bytes are those of lead bytes, one byte later.
    if others == 0 || leads + leads * 2 % 0x1_0000 != others || at_least(block, 0xC2) != leads {
        return 0;
    }
    16 - (leads / 0x8000) as usize
}

/// Does what `whole_chars` does, for a block with a character of three or four bytes.
#[inline(always)]
fn whole_long(block: u8x16) -> usize
    ensures inside { result ≤ 16 }
    ensures text { IsUtf8 (take result block) }
{
    let leads = at_least(block, 0xC0);
    let threes = at_least(block, 0xE0);
    let fours = at_least(block, 0xF0);
    // The bits of continuation bytes are also those of lead bytes of three, two bytes later, and of four, three later.
    if leads + (leads * 2 + threes * 4 + fours * 8) % 0x1_0000 != at_least(block, 0x80)
        || at_least(block, 0xC2) != leads
        || !are_followed(block, 0xE0, 0xED, 0xA0)
        || !are_fours(block, fours)
    {
        return 0;
    }
    16 - (leads / 0x8000 + threes / 0x4000 % 2 * 2 + fours / 0x2000 % 2 * 3) as usize
}

/// Returns how many bytes of a block are of whole characters, if characters begin with it and at most the last one
/// continues after it. Returns 0 for other blocks, and for those of ASCII.
#[inline(always)]
fn whole_chars(block: u8x16) -> usize
    ensures inside { result ≤ 16 }
    ensures text { IsUtf8 (take result block) }
{
    if at_least(block, 0xE0) == 0 {
        whole_pairs(block)
    } else {
        whole_long(block)
    }
}

/// Returns the end of the blocks of characters that begin at an offset.
#[inline(always)]
fn chars_end(bytes: &[u8], from: usize) -> usize
    requires inside { from ≤ length bytes.now }
    requires front { IsUtf8 (take from bytes.now) }
    ensures forward { from ≤ result }
    ensures inside { result ≤ length bytes.now }
    ensures front { IsUtf8 (take result bytes.now) }
{
    let mut at = from;
    while bytes.len() - at >= BLOCK {
        let whole = whole_chars(u8x16::from_slice(&bytes[at..]));
        if whole == 0 {
            return at;
        }
        at += whole;
    }
    at
}

/// Tests the characters that begin from the offset `from` on and before `end`, and returns the end of the last one.
/// Fails with the offset of the first fault if there is one.
#[inline(always)]
fn test_chars(bytes: &[u8], from: usize, end: usize) -> Result<usize, usize>
    requires bounds { (from ≤ end) × (end ≤ length bytes.now) }
    requires front { IsUtf8 (take from bytes.now) }
    ensures fault { IfErr result (λ at. (IsUtf8 bytes.now → ⊥) × (at ≡ utf8_valid_len bytes.now)) }
    ensures passed { IfOk result (λ at. (end ≤ at) × (at ≤ length bytes.now) × IsUtf8 (take at bytes.now)) }
{
    let mut at = from;
    while at < end {
        let Some((_, following)) = char_at(bytes, at) else {
            return Err(at);
        };
        at = following;
    }
    Ok(at)
}

/// Tests the next characters, block by block if blocks begin at an offset, and returns the end of the last one. Fails
/// with the offset of the first fault if there is one.
#[inline(always)]
fn test_next(bytes: &[u8], from: usize) -> Result<usize, usize>
    requires inside { from < length bytes.now }
    requires front { IsUtf8 (take from bytes.now) }
    ensures fault { IfErr result (λ at. (IsUtf8 bytes.now → ⊥) × (at ≡ utf8_valid_len bytes.now)) }
    ensures passed { IfOk result (λ at. (from < at) × (at ≤ length bytes.now) × IsUtf8 (take at bytes.now)) }
{
    let ascii = ascii_end(bytes, from);
    let passed = chars_end(bytes, ascii);
    if passed > ascii {
        return Ok(passed);
    }
    test_chars(bytes, ascii, bytes.len().min(ascii + BLOCK))
}

/// Tests a text character by character. Fails with the offset of the first fault if the text is ill-formed.
#[inline(never)]
fn test_short(bytes: &[u8]) -> Result<(), usize>
    ensures fault { IfErr result (λ at. (IsUtf8 bytes.now → ⊥) × (at ≡ utf8_valid_len bytes.now)) }
    ensures well_formed { OnOk result (IsUtf8 bytes.now) }
{
    test_chars(bytes, 0, bytes.len())?;
    Ok(())
}

/// Tests a text block by block. Fails with the offset of the first fault if the text is ill-formed.
#[inline(never)]
fn test_utf8(bytes: &[u8]) -> Result<(), usize>
    requires small { length bytes.now < 2 ^ 32 }
    ensures fault { IfErr result (λ at. (IsUtf8 bytes.now → ⊥) × (at ≡ utf8_valid_len bytes.now)) }
    ensures well_formed { OnOk result (IsUtf8 bytes.now) }
{
    let mut at = 0;
    while at < bytes.len() {
        at = test_next(bytes, at)?;
    }
    Ok(())
}

/// Returns four bytes as code points.
#[inline(always)]
fn widened(four: &[u8]) -> [u32; 4]
    requires { length four.now ≡ 4 }
    ensures { result ≡ four.now }
{
    [
        u32::from(four[0]),
        u32::from(four[1]),
        u32::from(four[2]),
        u32::from(four[3]),
    ]
}

/// Writes the units of the four ASCII characters from the index `k` on after those of the characters before them.
/// `before` must be the set of the classes before them. Returns that set with their classes.
#[inline(always)]
fn write_four(
    borrowed: &BorrowedUnits<'_>,
    ascii: &[Class],
    block: &[u8],
    k: usize,
    before: ClassSet,
    units: &mut [Unit],
) -> ClassSet
    requires neutral { AreNeutral borrowed.now.classes borrowed.now.brackets }
    requires block { AreOfBlock borrowed.now.classes 0 ascii.now }
    requires inside { k + 4 ≤ length block.now }
    requires ascii { IsAscii block.now }
    requires fits { length block.now ≤ length units.old }
    requires before { take k units.old ≡ map (unit_by_stages borrowed.now) (take k block.now) }
    requires classes { IsSetOf before (classes_of (take k units.old)) }
    ensures len { length units.new ≡ length units.old }
    ensures written { take (k + 4) units.new ≡ map (unit_by_stages borrowed.now) (take (k + 4) block.now) }
    ensures classes { IsSetOf result (classes_of (take (k + 4) units.new)) }
{
    let four = widened(&block[k..k + 4]);
    let own = look_up_ascii(borrowed, ascii, &four, &mut units[k..k + 4]);
    before.joined(own)
}

/// Writes the units of a block of ASCII, and returns the set of their classes.
#[inline(always)]
fn write_ascii(
    borrowed: &BorrowedUnits<'_>,
    ascii: &[Class],
    block: &[u8],
    units: &mut [Unit],
) -> ClassSet
    requires neutral { AreNeutral borrowed.now.classes borrowed.now.brackets }
    requires block { AreOfBlock borrowed.now.classes 0 ascii.now }
    requires len { length block.now ≡ 16 }
    requires ascii { IsAscii block.now }
    requires fits { length units.old ≡ 16 }
    ensures units { units.new ≡ map (unit_by_stages borrowed.now) block.now }
    ensures classes { IsSetOf result (classes_of units.new) }
{
    let four = write_four(borrowed, ascii, block, 0, ClassSet::none(), units);
    let eight = write_four(borrowed, ascii, block, 4, four, units);
    let twelve = write_four(borrowed, ascii, block, 8, eight, units);
    write_four(borrowed, ascii, block, 12, twelve, units)
}

/// Writes the units and the offsets of a block of ASCII. The class of each bracket must be ON.
#[inline(always)]
fn decode_ascii(
    bytes: &[u8],
    borrowed: &BorrowedUnits<'_>,
    ascii: &[Class],
    before: Passed,
    units: &mut [Unit],
    starts: &mut [u32],
) -> Passed
    requires neutral { AreNeutral borrowed.now.classes borrowed.now.brackets }
    requires block { AreOfBlock borrowed.now.classes 0 ascii.now }
    requires remaining { before.reached.code_units + 16 ≤ length bytes.now }
    requires ascii { IsAscii (take 16 (drop before.reached.code_units bytes.now)) }
    requires units { length bytes.now ≤ length units.old }
    requires starts { length bytes.now ≤ length starts.old }
    requires small { length bytes.now < 2 ^ 32 }
    requires read { IsReadUpTo borrowed.now bytes.now before.reached units.old starts.old }
    requires classes { IsSetOf before.classes (classes_of (take before.reached.characters units.old)) }
    ensures units_len { length units.new ≡ length units.old }
    ensures starts_len { length starts.new ≡ length starts.old }
    ensures code_units { result.reached.code_units ≡ before.reached.code_units + 16 }
    ensures read { IsReadUpTo borrowed.now bytes.now result.reached units.new starts.new }
    ensures classes { IsSetOf result.classes (classes_of (take result.reached.characters units.new)) }
{
    let count = before.reached.characters;
    let at = before.reached.code_units;
    let own = write_ascii(
        borrowed,
        ascii,
        &bytes[at..at + BLOCK],
        &mut units[count..count + BLOCK],
    );
    write_offsets(&mut starts[count..count + BLOCK], at);
    Passed {
        reached: Reached {
            characters: count + BLOCK,
            code_units: at + BLOCK,
        },
        classes: before.classes.joined(own),
    }
}

/// Writes the unit and the offset of the next character, which was found in its block. The class of each bracket must
/// be ON.
#[inline(always)]
fn write_character(
    found: InBlock,
    borrowed: &BorrowedUnits<'_>,
    before: Reached,
    units: &mut [Unit],
    starts: &mut [u32],
) -> Reached
    requires neutral { AreNeutral borrowed.now.classes borrowed.now.brackets }
    requires block { found.block < 8704 }
    requires index { found.index < 128 }
    requires units { before.characters < length units.old }
    requires starts { before.characters < length starts.old }
    requires small { before.code_units < 2 ^ 32 }
    ensures units_len { length units.new ≡ length units.old }
    ensures starts_len { length starts.new ≡ length starts.old }
    ensures one { result.characters ≡ before.characters + 1 }
    ensures following { result.code_units ≡ found.following }
    ensures unchanged { take before.characters units.new ≡ take before.characters units.old }
    ensures read { (bytes : List ℕ) → IsInBlock bytes before.code_units found
        → IsReadUpTo borrowed.now bytes before units.old starts.old
        → IsReadUpTo borrowed.now bytes result units.new starts.new }
{
    let classes = borrowed.block_classes(found.block);
    borrowed.write_in_block(
        classes,
        found.block,
        found.index,
        &mut units[before.characters],
    );
    starts[before.characters] = before.code_units as u32;
    Reached {
        characters: before.characters + 1,
        code_units: found.following,
    }
}

/// Writes the unit and the offset of a character, of whatever length. The class of each bracket must be ON.
#[inline(always)]
fn decode_next(
    bytes: &[u8],
    borrowed: &BorrowedUnits<'_>,
    before: Reached,
    units: &mut [Unit],
    starts: &mut [u32],
) -> Reached
    requires well_formed { IsUtf8 bytes.now }
    requires neutral { AreNeutral borrowed.now.classes borrowed.now.brackets }
    requires remaining { before.code_units < length bytes.now }
    requires units { length bytes.now ≤ length units.old }
    requires starts { length bytes.now ≤ length starts.old }
    requires small { length bytes.now < 2 ^ 32 }
    requires read { IsReadUpTo borrowed.now bytes.now before units.old starts.old }
    ensures units_len { length units.new ≡ length units.old }
    ensures starts_len { length starts.new ≡ length starts.old }
    ensures one { result.characters ≡ before.characters + 1 }
    ensures unchanged { take before.characters units.new ≡ take before.characters units.old }
    ensures forward { before.code_units < result.code_units }
    ensures read { IsReadUpTo borrowed.now bytes.now result units.new starts.new }
{
    let at = before.code_units;
    let x = bytes[at];
    if x < 0x80 {
        write_character(one_at(bytes, at), borrowed, before, units, starts)
    } else if x < 0xE0 {
        write_character(two_at(bytes, at), borrowed, before, units, starts)
    } else if x < 0xF0 {
        write_character(three_at(bytes, at), borrowed, before, units, starts)
    } else {
        write_character(four_at(bytes, at), borrowed, before, units, starts)
    }
}

/// Does what `decode_next` does, and adds the class of the character to those of the characters before it.
#[inline(always)]
fn pass_next(
    bytes: &[u8],
    borrowed: &BorrowedUnits<'_>,
    before: Passed,
    units: &mut [Unit],
    starts: &mut [u32],
) -> Passed
    requires well_formed { IsUtf8 bytes.now }
    requires neutral { AreNeutral borrowed.now.classes borrowed.now.brackets }
    requires remaining { before.reached.code_units < length bytes.now }
    requires units { length bytes.now ≤ length units.old }
    requires starts { length bytes.now ≤ length starts.old }
    requires small { length bytes.now < 2 ^ 32 }
    requires read { IsReadUpTo borrowed.now bytes.now before.reached units.old starts.old }
    requires classes { IsSetOf before.classes (classes_of (take before.reached.characters units.old)) }
    ensures units_len { length units.new ≡ length units.old }
    ensures starts_len { length starts.new ≡ length starts.old }
    ensures forward { before.reached.code_units < result.reached.code_units }
    ensures read { IsReadUpTo borrowed.now bytes.now result.reached units.new starts.new }
    ensures classes { IsSetOf result.classes (classes_of (take result.reached.characters units.new)) }
{
    let reached = decode_next(bytes, borrowed, before.reached, units, starts);
    Passed {
        reached,
        classes: before.classes.with(units[before.reached.characters].class),
    }
}

/// Writes the units and the offsets of the characters that begin before the offset `end`.
#[inline(always)]
fn decode_chars(
    bytes: &[u8],
    end: usize,
    borrowed: &BorrowedUnits<'_>,
    before: Passed,
    units: &mut [Unit],
    starts: &mut [u32],
) -> Passed
    requires well_formed { IsUtf8 bytes.now }
    requires neutral { AreNeutral borrowed.now.classes borrowed.now.brackets }
    requires end { end ≤ length bytes.now }
    requires units { length bytes.now ≤ length units.old }
    requires starts { length bytes.now ≤ length starts.old }
    requires small { length bytes.now < 2 ^ 32 }
    requires read { IsReadUpTo borrowed.now bytes.now before.reached units.old starts.old }
    requires classes { IsSetOf before.classes (classes_of (take before.reached.characters units.old)) }
    ensures units_len { length units.new ≡ length units.old }
    ensures starts_len { length starts.new ≡ length starts.old }
    ensures passed { end ≤ result.reached.code_units }
    ensures read { IsReadUpTo borrowed.now bytes.now result.reached units.new starts.new }
    ensures classes { IsSetOf result.classes (classes_of (take result.reached.characters units.new)) }
{
    let mut passed = before;
    while passed.reached.code_units < end {
        passed = pass_next(bytes, borrowed, passed, units, starts);
    }
    passed
}

/// Returns whether a block of ASCII begins at an offset. In other scripts the test of the first byte is mostly enough.
#[inline(always)]
fn begins_ascii(bytes: &[u8], at: usize) -> bool
    requires { at ≤ length bytes.now }
    ensures { IsTrue result → (at + 16 ≤ length bytes.now) × IsAscii (take 16 (drop at bytes.now)) }
{
    if bytes.len() - at < BLOCK {
        return false;
    }
    bytes[at] < 0x80 && is_ascii(u8x16::from_slice(&bytes[at..]))
}

/// Writes the units and the offsets of the next characters, up to the end of a block or past it.
#[inline(always)]
fn decode_block(
    bytes: &[u8],
    borrowed: &BorrowedUnits<'_>,
    ascii: &[Class],
    before: Passed,
    units: &mut [Unit],
    starts: &mut [u32],
) -> Passed
    requires well_formed { IsUtf8 bytes.now }
    requires neutral { AreNeutral borrowed.now.classes borrowed.now.brackets }
    requires block { AreOfBlock borrowed.now.classes 0 ascii.now }
    requires remaining { before.reached.code_units < length bytes.now }
    requires units { length bytes.now ≤ length units.old }
    requires starts { length bytes.now ≤ length starts.old }
    requires small { length bytes.now < 2 ^ 32 }
    requires read { IsReadUpTo borrowed.now bytes.now before.reached units.old starts.old }
    requires classes { IsSetOf before.classes (classes_of (take before.reached.characters units.old)) }
    ensures units_len { length units.new ≡ length units.old }
    ensures starts_len { length starts.new ≡ length starts.old }
    ensures forward { before.reached.code_units < result.reached.code_units }
    ensures read { IsReadUpTo borrowed.now bytes.now result.reached units.new starts.new }
    ensures classes { IsSetOf result.classes (classes_of (take result.reached.characters units.new)) }
{
    let at = before.reached.code_units;
    if begins_ascii(bytes, at) {
        decode_ascii(bytes, borrowed, ascii, before, units, starts)
    } else {
        let end = bytes.len().min(at + BLOCK);
        decode_chars(bytes, end, borrowed, before, units, starts)
    }
}

/// Writes the units and the offsets of a well-formed text. The class of each bracket must be ON.
#[inline(always)]
fn decode_blocks(
    bytes: &[u8],
    borrowed: &BorrowedUnits<'_>,
    units: &mut [Unit],
    starts: &mut [u32],
) -> Passed
    requires well_formed { IsUtf8 bytes.now }
    requires neutral { AreNeutral borrowed.now.classes borrowed.now.brackets }
    requires units { length bytes.now ≤ length units.old }
    requires starts { length bytes.now ≤ length starts.old }
    requires small { length bytes.now < 2 ^ 32 }
    ensures units_len { length units.new ≡ length units.old }
    ensures starts_len { length starts.new ≡ length starts.old }
    ensures whole { length bytes.now ≤ result.reached.code_units }
    ensures read { IsReadUpTo borrowed.now bytes.now result.reached units.new starts.new }
    ensures classes { IsSetOf result.classes (classes_of (take result.reached.characters units.new)) }
{
    let ascii = borrowed.block_classes(0);
    let mut passed = Passed {
        reached: Reached {
            characters: 0,
            code_units: 0,
        },
        classes: ClassSet::none(),
    };
    while passed.reached.code_units < bytes.len() {
        passed = decode_block(bytes, borrowed, ascii, passed, units, starts);
    }
    passed
}

/// Writes the units and the offsets of a well-formed text, and after the offsets the offset of the text's end. Returns
/// how many characters there are.
#[inline(never)]
fn decode_well_formed(
    bytes: &[u8],
    tables: &Tables,
    units: &mut [Unit],
    starts: &mut [u32],
) -> usize
    requires well_formed { IsUtf8 bytes.now }
    requires units { length bytes.now ≤ length units.old }
    requires starts { length bytes.now < length starts.old }
    requires small { length bytes.now < 2 ^ 32 }
    ensures units_len { length units.new ≡ length units.old }
    ensures starts_len { length starts.new ≡ length starts.old }
    ensures decoded { AreDecoded tables.now (utf8_text bytes.now) result units.new starts.new }
{
    let borrowed = tables.units();
    let mut count = 0;
    let mut at = 0;
    while at < bytes.len() {
        let (c, following) = known_char_at(bytes, at);
        borrowed.write_unit(c, &mut units[count]);
        starts[count] = at as u32;
        count += 1;
        at = following;
    }
    starts[count] = at as u32;
    count
}

/// Does what `decode_well_formed` does, and also returns the set of the classes of these units, if the class of each
/// bracket is known to be ON. Takes fewer instructions if there are several characters.
#[inline(never)]
fn decode_long(bytes: &[u8], tables: &Tables, units: &mut [Unit], starts: &mut [u32]) -> Decoded
    requires well_formed { IsUtf8 bytes.now }
    requires units { length bytes.now ≤ length units.old }
    requires starts { length bytes.now < length starts.old }
    requires small { length bytes.now < 2 ^ 32 }
    ensures units_len { length units.new ≡ length units.old }
    ensures starts_len { length starts.new ≡ length starts.old }
    ensures decoded { AreDecoded tables.now (utf8_text bytes.now) result.characters units.new starts.new }
    ensures classes { IfSome result.classes
        (λ set. IsSetOf set (classes_of (take result.characters units.new))) }
{
    let borrowed = tables.units();
    if !borrowed.are_neutral() {
        return Decoded {
            characters: decode_well_formed(bytes, tables, units, starts),
            classes: None,
        };
    }
    let passed = decode_blocks(bytes, &borrowed, units, starts);
    let Reached {
        characters,
        code_units,
    } = passed.reached;
    starts[characters] = code_units as u32;
    Decoded {
        characters,
        classes: Some(passed.classes),
    }
}

/// Does what `look_up_utf8` does, for a text that is known to be well formed.
#[inline(always)]
fn decode_known(bytes: &[u8], tables: &Tables, units: &mut [Unit], starts: &mut [u32]) -> Decoded
    requires well_formed { IsUtf8 bytes.now }
    requires units { length bytes.now ≤ length units.old }
    requires starts { length bytes.now < length starts.old }
    requires small { length bytes.now < 2 ^ 32 }
    ensures units_len { length units.new ≡ length units.old }
    ensures starts_len { length starts.new ≡ length starts.old }
    ensures decoded { AreDecoded tables.now (utf8_text bytes.now) result.characters units.new starts.new }
    ensures classes { IfSome result.classes
        (λ set. IsSetOf set (classes_of (take result.characters units.new))) }
{
    if bytes.len() < BLOCK {
        return Decoded {
            characters: decode_well_formed(bytes, tables, units, starts),
            classes: None,
        };
    }
    decode_long(bytes, tables, units, starts)
}

/// Tests a text. Fails with the offset of the first fault if the text is ill-formed.
#[inline(always)]
fn test(bytes: &[u8]) -> Result<(), usize>
    requires small { length bytes.now < 2 ^ 32 }
    ensures fault { IfErr result (λ at. (IsUtf8 bytes.now → ⊥) × (at ≡ utf8_valid_len bytes.now)) }
    ensures well_formed { OnOk result (IsUtf8 bytes.now) }
{
    if bytes.len() < BLOCK {
        return test_short(bytes);
    }
    test_utf8(bytes)
}

/// Does what `decode_utf8` does, and also returns the set of the classes of these units if it is known.
pub fn look_up_utf8(
    bytes: &[u8],
    tables: &Tables,
    units: &mut [Unit],
    starts: &mut [u32],
) -> Result<Decoded, usize>
    requires units { length bytes.now ≤ length units.old }
    requires starts { length bytes.now < length starts.old }
    requires small { length bytes.now < 2 ^ 32 }
    ensures units_len { length units.new ≡ length units.old }
    ensures starts_len { length starts.new ≡ length starts.old }
    ensures fault { IfErr result (λ at. (IsUtf8 bytes.now → ⊥) × (at ≡ utf8_valid_len bytes.now)) }
    ensures unchanged { IfErr result (λ _. (units.new ≡ units.old) × (starts.new ≡ starts.old)) }
    ensures well_formed { OnOk result (IsUtf8 bytes.now) }
    ensures decoded { IfOk result (λ decoded.
        AreDecoded tables.now (utf8_text bytes.now) decoded.characters units.new starts.new) }
    ensures classes { IfOk result (λ decoded. IfSome decoded.classes
        (λ set. IsSetOf set (classes_of (take decoded.characters units.new)))) }
{
    test(bytes)?;
    Ok(decode_known(bytes, tables, units, starts))
}

/// Writes the units and the offsets of a text, and after the offsets the offset of the text's end. Returns how many
/// characters there are. A first pass only tests the text. If it is ill-formed, the function writes nothing and fails
/// with the offset of the first fault.
pub fn decode_utf8(
    bytes: &[u8],
    tables: &Tables,
    units: &mut [Unit],
    starts: &mut [u32],
) -> Result<usize, usize>
    requires units { length bytes.now ≤ length units.old }
    requires starts { length bytes.now < length starts.old }
    requires small { length bytes.now < 2 ^ 32 }
    ensures units_len { length units.new ≡ length units.old }
    ensures starts_len { length starts.new ≡ length starts.old }
    ensures fault { IfErr result (λ at. (IsUtf8 bytes.now → ⊥) × (at ≡ utf8_valid_len bytes.now)) }
    ensures unchanged { IfErr result (λ _. (units.new ≡ units.old) × (starts.new ≡ starts.old)) }
    ensures well_formed { OnOk result (IsUtf8 bytes.now) }
    ensures decoded { IfOk result (λ count.
        AreDecoded tables.now (utf8_text bytes.now) count units.new starts.new) }
{
    let decoded = look_up_utf8(bytes, tables, units, starts)?;
    Ok(decoded.characters)
}
