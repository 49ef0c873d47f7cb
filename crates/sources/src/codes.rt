//! The units of code points.
ghost use Rattle.std.specs.Prelude.{ℕ, true, ◌≡◌, ◌<◌, ◌≤◌, ◌+◌, length, map, slice_index, take, IfErr, IfSome, OnErr, OnOk};
ghost use Rattle.std.specs.Char.{IsScalar};
ghost use Rattle.units.specs.Classes.{classes_of};
ghost use Rattle.ucdfiles.specs.Tables.{AreNeutral, AreOfBlock, units_by};
ghost use Rattle.ucdfiles.specs.UnitStages.{unit_by_stages};
ghost use Rattle.paragraph.specs.ClassSets.{IsSetOf};
ghost use Rattle.sources.specs.Kinds.{AllAre, IsFirstOther, IsNoSurrogate};

use decoding::fours::{look_up_ascii, look_up_scalars};
use paragraph::class_set::ClassSet;
use std::simd::prelude::*;
use ucdfiles::tables::{BorrowedUnits, Tables};
use units::bracket::Unit;
use units::class::Class;

/// Returns the greatest of these numbers, 0 if there is none.
fn greatest_of(codes: &[u32]) -> u32
    ensures { AllAre (λ code. code ≤ result) codes.now }
{
    let mut greatest = 0;
    for code in codes {
        greatest = greatest.max(*code);
    }
    greatest
}

/// The first surrogate, which is no scalar value. All numbers below are scalar values.
const FIRST_SURROGATE: u32 = 0xD800;

/// How many surrogates there are, one after another. All numbers from there on up to 0x10FFFF are scalar values.
const SURROGATES: u32 = 0x800;

/// Returns whether none of these numbers is a surrogate. From the first surrogate on it counts them, and numbers below
/// that wrap round to great ones.
fn have_no_surrogate(codes: &[u32]) -> bool
    ensures { result ≡ true → AllAre IsNoSurrogate codes.now }
{
    let mut least = u32::MAX;
    for code in codes {
        least = least.min(code.wrapping_sub(FIRST_SURROGATE));
    }
    least >= SURROGATES
}

/// Returns whether all these numbers are scalar values. Each loop reads all of them whatever it finds, so that the
/// processor can test several at once.
fn are_scalars(codes: &[u32]) -> bool
    ensures { result ≡ true → AllAre IsScalar codes.now }
{
    let greatest = greatest_of(codes);
    if greatest < FIRST_SURROGATE {
        return true;
    }
    greatest <= char::MAX as u32 && have_no_surrogate(codes)
}

/// Fails with the index of the first code point that isn't a scalar value.
pub fn check_codes(codes: &[u32]) -> Result<(), usize>
    ensures fault { IfErr result (IsFirstOther IsScalar codes.now) }
    ensures scalars { OnOk result (AllAre IsScalar codes.now) }
{
    if are_scalars(codes) {
        return Ok(());
    }
    for i in 0..codes.len() {
        if char::from_u32(codes[i]).is_none() {
            return Err(i);
        }
    }
    Ok(())
}

/// Returns the code point with the index `k`.
#[inline(always)]
fn scalar_at(codes: &[u32], k: usize) -> char
    requires inside { k < length codes.now }
    requires scalars { AllAre IsScalar codes.now }
    ensures { result ≡ slice_index codes.now k }
{
    // SAFETY: it is a scalar value.
    unsafe { char::from_u32_unchecked(codes[k]) }
}

/// How many code points are looked up at once.
const BLOCK: usize = 4;

/// Returns whether a block is ASCII.
#[inline(always)]
fn is_ascii(block: u32x4) -> bool
    ensures { result ≡ true → AllAre (λ code. code < 0x80) block }
{
    (block & u32x4::splat(0xFFFF_FF80)).reduce_or() == 0
}

/// Writes the units of a block, and returns the set of their classes. `ascii` must be the classes of ASCII, and the
/// class of each bracket ON.
#[inline(always)]
fn look_up_block(
    borrowed: &BorrowedUnits<'_>,
    ascii: &[Class],
    block: &[u32],
    units: &mut [Unit],
) -> ClassSet
    requires neutral { AreNeutral borrowed.now.classes borrowed.now.brackets }
    requires classes { AreOfBlock borrowed.now.classes 0 ascii.now }
    requires len { length block.now ≡ 4 }
    requires scalars { (k : ℕ) → k < 4 → IsScalar (slice_index block.now k) }
    requires fits { length units.old ≡ 4 }
    ensures units { units.new ≡ map (unit_by_stages borrowed.now) block.now }
    ensures classes { IsSetOf result (classes_of units.new) }
{
    if is_ascii(u32x4::from_slice(block)) {
        look_up_ascii(borrowed, ascii, block, units)
    } else {
        look_up_scalars(borrowed, block, units)
    }
}

/// Writes the units of the block from the index `k` on after those of the code points before it. `before` must be the
/// set of the classes before it. Returns that set with the classes of the block.
#[inline(always)]
fn write_block(
    borrowed: &BorrowedUnits<'_>,
    ascii: &[Class],
    codes: &[u32],
    k: usize,
    before: ClassSet,
    units: &mut [Unit],
) -> ClassSet
    requires neutral { AreNeutral borrowed.now.classes borrowed.now.brackets }
    requires block { AreOfBlock borrowed.now.classes 0 ascii.now }
    requires inside { k + 4 ≤ length codes.now }
    requires fits { length codes.now ≤ length units.old }
    requires scalars { AllAre IsScalar codes.now }
    requires before { take k units.old ≡ map (unit_by_stages borrowed.now) (take k codes.now) }
    requires classes { IsSetOf before (classes_of (take k units.old)) }
    ensures len { length units.new ≡ length units.old }
    ensures written { take (k + 4) units.new ≡ map (unit_by_stages borrowed.now) (take (k + 4) codes.now) }
    ensures classes { IsSetOf result (classes_of (take (k + 4) units.new)) }
{
    let own = look_up_block(
        borrowed,
        ascii,
        &codes[k..k + BLOCK],
        &mut units[k..k + BLOCK],
    );
    before.joined(own)
}

/// The front of a text: its number of units, and the set of their classes.
#[derive(Clone, Copy)]
struct Front {
    length: usize,
    classes: ClassSet,
}

/// Writes the units of code points, up to fewer than a block at the end. The class of each bracket must be ON.
#[inline(always)]
fn write_blocks(borrowed: &BorrowedUnits<'_>, codes: &[u32], units: &mut [Unit]) -> Front
    requires neutral { AreNeutral borrowed.now.classes borrowed.now.brackets }
    requires fits { length codes.now ≤ length units.old }
    requires scalars { AllAre IsScalar codes.now }
    ensures len { length units.new ≡ length units.old }
    ensures within { result.length ≤ length codes.now }
    ensures written { take result.length units.new
        ≡ map (unit_by_stages borrowed.now) (take result.length codes.now) }
    ensures classes { IsSetOf result.classes (classes_of (take result.length units.new)) }
{
    let ascii = borrowed.block_classes(0);
    let blocks = codes.len() / BLOCK;
    let mut classes = ClassSet::none();
    for block in 0..blocks {
        classes = write_block(borrowed, ascii, codes, block * BLOCK, classes, units);
    }
    Front {
        length: blocks * BLOCK,
        classes,
    }
}

/// Writes the unit of the code point with the index `k` after those of the code points before it. `before` must be the
/// set of the classes before it. Returns that set with its own class.
#[inline(always)]
fn write_next(
    borrowed: &BorrowedUnits<'_>,
    codes: &[u32],
    k: usize,
    before: ClassSet,
    units: &mut [Unit],
) -> ClassSet
    requires inside { k < length codes.now }
    requires fits { length codes.now ≤ length units.old }
    requires scalars { AllAre IsScalar codes.now }
    requires before { take k units.old ≡ map (unit_by_stages borrowed.now) (take k codes.now) }
    requires classes { IsSetOf before (classes_of (take k units.old)) }
    ensures len { length units.new ≡ length units.old }
    ensures written { take (k + 1) units.new ≡ map (unit_by_stages borrowed.now) (take (k + 1) codes.now) }
    ensures classes { IsSetOf result (classes_of (take (k + 1) units.new)) }
{
    borrowed.write_unit(scalar_at(codes, k), &mut units[k]);
    before.with(units[k].class)
}

/// Writes the units of code points after this front. Returns the set of the classes of all.
#[inline(always)]
fn write_rest(
    borrowed: &BorrowedUnits<'_>,
    codes: &[u32],
    front: Front,
    units: &mut [Unit],
) -> ClassSet
    requires fits { length codes.now ≤ length units.old }
    requires scalars { AllAre IsScalar codes.now }
    requires within { front.length ≤ length codes.now }
    requires before { take front.length units.old
        ≡ map (unit_by_stages borrowed.now) (take front.length codes.now) }
    requires classes { IsSetOf front.classes (classes_of (take front.length units.old)) }
    ensures len { length units.new ≡ length units.old }
    ensures written { take (length codes.now) units.new ≡ map (unit_by_stages borrowed.now) codes.now }
    ensures classes { IsSetOf result (classes_of (take (length codes.now) units.new)) }
{
    let mut classes = front.classes;
    for k in front.length..codes.len() {
        classes = write_next(borrowed, codes, k, classes, units);
    }
    classes
}

/// Does what `look_up_codes` does. Takes fewer instructions than its loop if there are several code points.
#[inline(never)]
fn look_up_long(units: &mut [Unit], tables: &Tables, codes: &[u32]) -> ClassSet
    requires fits { length codes.now ≤ length units.old }
    requires scalars { AllAre IsScalar codes.now }
    ensures len { length units.new ≡ length units.old }
    ensures units { take (length codes.now) units.new ≡ units_by tables.now codes.now }
    ensures classes { IsSetOf result (classes_of (take (length codes.now) units.new)) }
{
    let borrowed = tables.units();
    let front = if borrowed.are_neutral() {
        write_blocks(&borrowed, codes, units)
    } else {
        Front {
            length: 0,
            classes: ClassSet::none(),
        }
    };
    write_rest(&borrowed, codes, front, units)
}

/// Writes the units of code points one by one.
#[inline(always)]
fn fill_short(units: &mut [Unit], tables: &Tables, codes: &[u32])
    requires fits { length codes.now ≤ length units.old }
    requires scalars { AllAre IsScalar codes.now }
    ensures len { length units.new ≡ length units.old }
    ensures units { take (length codes.now) units.new ≡ units_by tables.now codes.now }
{
    let borrowed = tables.units();
    for k in 0..codes.len() {
        borrowed.write_unit(scalar_at(codes, k), &mut units[k]);
    }
}

/// Writes the units of code points to the front of the column. All of them must be scalar values.
pub fn fill_codes(units: &mut [Unit], tables: &Tables, codes: &[u32])
    requires fits { length codes.now ≤ length units.old }
    requires scalars { AllAre IsScalar codes.now }
    ensures len { length units.new ≡ length units.old }
    ensures units { take (length codes.now) units.new ≡ units_by tables.now codes.now }
{
    look_up_codes(units, tables, codes);
}

/// Does what `fill_codes` does. Returns the set of the classes of these units, or `None` if there are only a few.
pub fn look_up_codes(units: &mut [Unit], tables: &Tables, codes: &[u32]) -> Option<ClassSet>
    requires fits { length codes.now ≤ length units.old }
    requires scalars { AllAre IsScalar codes.now }
    ensures len { length units.new ≡ length units.old }
    ensures units { take (length codes.now) units.new ≡ units_by tables.now codes.now }
    ensures classes { IfSome result (λ set. IsSetOf set (classes_of (take (length codes.now) units.new))) }
{
    if codes.len() >= BLOCK {
        return Some(look_up_long(units, tables, codes));
    }
    fill_short(units, tables, codes);
    None
}
