// A value for each code point, read with two loads.
ghost use Rattle.std.specs.Prelude.{◌≡◌, false, ◌<◌, ◌≤◌, ◌+◌, ◌*◌, ◌%◌, ℕ, length, true, IfOk, OnOk, slice_index_or};
ghost use Rattle.std.specs.Prelude.{List, ◌++◌};
ghost use Rattle.std.specs.List.{find};
ghost use Rattle.std.specs.Option.{unwrap_or};
ghost use Rattle.ucdfiles.specs.Spans.{holds, IsRising, value_in};
ghost use Rattle.ucdfiles.specs.Stages.{IsPainted, value_over, value_over_all, stage_at, most_blocks, HasBlock};

use crate::span::Span;
use crate::spans::{beginning_by, ending_from};
use std::alloc::{AllocError, Global};
use std::marker::Model;

/// The number of code points of a block.
pub const BLOCK: usize = 128;

/// The number of blocks of all code points.
pub const BLOCKS: u32 = 8_704;

/// The number of each block of 128 code points, and the values of the blocks; consecutive blocks with the same values
/// share them.
#[derive(Drop)]
pub struct TwoStage<V> {
    numbers: Vec<u16>,
    values: Vec<V>,
}

impl<V> Model for TwoStage<V> {
    ghost use Rattle.ucdfiles.specs.Stages.{Stages, AreStages};

    ghost Value = { Stages V };

    ghost view = { λ t. record { numbers = t.numbers.items; values = t.values.items } };

    ghost invariant = { λ t. AreStages (record { numbers = t.numbers.items; values = t.values.items }) };
}

// Returns which of the `len` code points from `first` on the span contains: the index of the first one, and the index
// after the last one. Indices are counted from `first`.
fn covered_range<V>(span: &Span<V>, first: u32, len: usize) -> (usize, usize)
    ensures bound { result.1 ≤ len }
    ensures before { (k : ℕ) → k < result.0 → holds (first + k) span.now ≡ false }
    ensures inside { (k : ℕ) → result.0 ≤ k → k < result.1 → holds (first + k) span.now ≡ true }
    ensures following { (k : ℕ) → result.1 ≤ k → k < len → holds (first + k) span.now ≡ false }
{
    if span.last < first {
        return (0, 0);
    }
    let from = span.first.saturating_sub(first) as usize;
    let to = (span.last - first) as usize + 1;
    (from, to.min(len))
}

// Lays a span over the values of the code points from `first` on.
fn paint<V: Copy>(block: &mut [V], first: u32, span: &Span<V>)
    requires { first + length block.old ≤ 0x110000 }
    ensures len { length block.new ≡ length block.old }
    ensures values { IsPainted first (λ c. value_over c span.now) block.old block.new }
{
    let (from, to) = covered_range(span, first, block.len());
    for k in from..to {
        block[k] = span.value;
    }
}

// Lays spans over the values of the code points from `first` on, one after the other.
fn paint_all<V: Copy>(block: &mut [V], first: u32, spans: &[Span<V>])
    requires { first + length block.old ≤ 0x110000 }
    ensures len { length block.new ≡ length block.old }
    ensures values { IsPainted first (λ c. value_over_all c spans.now) block.old block.new }
{
    for span in spans {
        paint(block, first, span);
    }
}

// Returns the spans that have a code point of the block that begins at `first`.
fn meeting<V>(spans: &[Span<V>], first: u32) -> &[Span<V>]
    requires rising { IsRising spans.now }
    requires first { first + 128 ≤ 0x110000 }
    ensures rising { IsRising result.now }
    ensures finds { (c : ℕ) → first ≤ c → c < first + 128 → find (holds c) result.now ≡ find (holds c) spans.now }
{
    beginning_by(ending_from(spans, first), first + 127)
}

// Fills in the values of the block that begins at `first`.
fn fill_block<V: Copy>(
    block: &mut [V],
    first: u32,
    spans: &[Span<V>],
    defaults: &[Span<V>],
    none: V,
)
    requires rising { IsRising spans.now }
    requires first { first + 128 ≤ 0x110000 }
    requires len { length block.old ≡ 128 }
    ensures len { length block.new ≡ 128 }
    ensures values { (k : ℕ) (d : V) → k < 128
        → slice_index_or block.new k d ≡ unwrap_or (value_in spans.now defaults.now (first + k)) none }
{
    let everything = Span {
        first: 0,
        last: 0x10FFFF,
        value: none,
    };
    paint(block, first, &everything);
    paint_all(block, first, defaults);
    paint_all(block, first, meeting(spans, first));
}

// Returns the number of a block: that of the last, if it has the same values, else one more.
fn number_of<V: Copy + PartialEq>(values: &mut Vec<V>, block: &[V]) -> Result<u16, AllocError>
    requires exact { (x y : V) → V.eq x y ≡ true → x ≡ y }
    requires block { length block.now ≡ 128 }
    requires whole { length values.old.items % 128 ≡ 0 }
    requires room { length values.old.items < 128 * most_blocks }
    ensures whole { OnOk result (length values.new.items % 128 ≡ 0) }
    ensures most { OnOk result (length values.new.items ≤ length values.old.items + 128) }
    ensures unchanged { OnOk result ((more : List V) × (values.new.items ≡ values.old.items ++ more)) }
    ensures within { IfOk result (λ number. number * 128 + 128 ≤ length values.new.items) }
    ensures block { IfOk result (λ number. HasBlock values.new.items number block.now) }
{
    let len = values.len();
    if len >= BLOCK && &values[len - BLOCK..] == block {
        return Ok((len / BLOCK - 1) as u16);
    }
    values.extend_from_slice(block)?;
    Ok((len / BLOCK) as u16)
}

impl<V: Copy + PartialEq> TwoStage<V> {
    ghost use Rattle.ucdfiles.specs.Stages.{Stages};

    /// Makes two stages with the values of the spans, else of the last default that contains a code point, else `none`.
    pub fn new(
        alloc: Global,
        spans: &[Span<V>],
        defaults: &[Span<V>],
        none: V,
    ) -> Result<TwoStage<V>, AllocError>
        requires rising { IsRising spans.now }
        requires exact { (x y : V) → V.eq x y ≡ true → x ≡ y }
        ensures { IfOk result (λ stages. (c : ℕ) (d : V) → c ≤ 0x10FFFF
            → stage_at stages c d ≡ unwrap_or (value_in spans.now defaults.now c) none) }
    {
        let mut numbers = Vec::with_capacity(alloc, BLOCKS as usize)?;
        let mut values = Vec::new(alloc);
        let mut room = Vec::from_elem(alloc, none, BLOCK)?;
        let block = room.as_mut_slice();
        for n in 0..BLOCKS {
            fill_block(block, n * BLOCK as u32, spans, defaults, none);
            let number = number_of(&mut values, block)?;
            numbers.push(number)?;
        }
        Ok(TwoStage { numbers, values })
    }
}

/// The two stages, borrowed: a caller that looks up many code points reads their addresses only once.
#[derive(Drop)]
pub struct BorrowedStages<'a, V> {
    numbers: &'a [u16],
    values: &'a [V],
}

impl<'a, V> Model for BorrowedStages<'a, V> {
    ghost use Rattle.ucdfiles.specs.Stages.{Stages, AreStages};

    ghost Value = { Stages V };

    ghost view = { λ t. record { numbers = t.numbers.now; values = t.values.now } };

    ghost invariant = { λ t. AreStages (record { numbers = t.numbers.now; values = t.values.now }) };
}

impl<'a, V> BorrowedStages<'a, V> {
    ghost use Rattle.ucdfiles.specs.Stages.{AreStages};

    /// Makes two stages from constants.
    pub fn new(numbers: &'a [u16], values: &'a [V]) -> BorrowedStages<'a, V>
        requires { AreStages (record { numbers = numbers.now; values = values.now }) }
        ensures { result ≡ record { numbers = numbers.now; values = values.now } }
    {
        BorrowedStages { numbers, values }
    }

    /// Borrows the same stages.
    pub fn borrowed(&self) -> BorrowedStages<'_, V>
        ensures { result ≡ self.now }
    {
        BorrowedStages {
            numbers: self.numbers,
            values: self.values,
        }
    }
}

impl<'a, V: Copy> BorrowedStages<'a, V> {
    ghost use Rattle.ucdfiles.specs.Stages.{Stages};

    /// Returns the value of a character.
    pub fn value(&self, c: char) -> V
        ensures { (d : V) → result ≡ stage_at self.now c d }
    {
        let code = u32::from(c) as usize;
        let number = self.numbers[code / BLOCK] as usize;
        self.values[number * BLOCK + code % BLOCK]
    }

    /// Returns the values of a block of code points: the first block has those from 0 on.
    pub fn block(&self, block: usize) -> &[V]
        requires { block < 8704 }
        ensures len { length result.now ≡ 128 }
        ensures values { (k : ℕ) (d : V) → k < 128
            → slice_index_or result.now k d ≡ stage_at self.now (block * 128 + k) d }
    {
        let from = self.numbers[block] as usize * BLOCK;
        &self.values[from..from + BLOCK]
    }
}

impl<V: Copy> TwoStage<V> {
    ghost use Rattle.ucdfiles.specs.Stages.{Stages};

    /// Borrows both stages.
    pub fn borrowed(&self) -> BorrowedStages<'_, V>
        ensures { result ≡ self.now }
    {
        BorrowedStages {
            numbers: self.numbers.as_slice(),
            values: self.values.as_slice(),
        }
    }
}

/// Two stages, made from lines or constant.
#[derive(Drop)]
pub enum TableStages<'a, V> {
    /// Stages that own their values.
    Made(TwoStage<V>),
    /// Stages that are constants of the program.
    Constant(BorrowedStages<'a, V>),
}

impl<'a, V: Copy> TableStages<'a, V> {
    ghost use Rattle.ucdfiles.specs.TableStages.{stages_of};

    /// Borrows both stages.
    pub fn borrowed(&self) -> BorrowedStages<'_, V>
        ensures { result ≡ stages_of self.now }
    {
        match self {
            TableStages::Made(stages) => stages.borrowed(),
            TableStages::Constant(stages) => stages.borrowed(),
        }
    }

    /// Returns the value of a character.
    pub fn value(&self, c: char) -> V
        ensures { (d : V) → result ≡ stage_at (stages_of self.now) c d }
    {
        self.borrowed().value(c)
    }
}
