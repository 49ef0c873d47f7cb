//! A paragraph in which nothing begins an embedding or an isolate: all positions that remain are one sequence.
ghost use Rattle.std.specs.Prelude.{◌≡◌, ◌+◌, ◌<◌, ◌≤◌, length, slice_get, take, true};
ghost use Rattle.units.specs.Classes.{classes_of, is_removed};
ghost use Rattle.units.specs.Isolates.{level_of_para};
ghost use Rattle.units.specs.Positions.{positions_from};
ghost use Rattle.explicit.specs.Flat.{IsFlat, remaining_of};
ghost use Rattle.explicit.specs.IdleRules.{HasNone};
ghost use Rattle.sequences.specs.Links.{ArePositions, IsChain};
ghost use Rattle.sequences.specs.Heads.{only_head};
ghost use Rattle.sequences.specs.OneSequence.{HoldSequencesOf};

use crate::heads::Head;
use std::sync::ledger::Ledger;
use units::bracket::Unit;
use units::level::{Level, ParaLevel};
use units::optional_position::OptionalPosition;
use units::steps::Steps;

/// Writes all positions below `end` into the column, from the front on.
fn write_all<L: Ledger>(end: usize, column: &mut [u32], steps: &mut Steps<L>)
    requires small { end < u32.MAX }
    requires room { end ≤ length column.old }
    ensures placed { take end column.new ≡ positions_from 0 end }
    ensures steps { steps.new ≡ steps.old + end }
{
    for p in 0..end {
        steps.tick();
        column[p] = p as u32;
    }
}

/// Writes the positions that remain (X9) into the column, from the front on. Returns their number.
fn write_remaining<L: Ledger>(para: &[Unit], column: &mut [u32], steps: &mut Steps<L>) -> usize
    requires small { length para.now < u32.MAX }
    requires room { length para.now ≤ length column.old }
    ensures count { result ≡ length (remaining_of (classes_of para.now)) }
    ensures placed { take result column.new ≡ remaining_of (classes_of para.now) }
    ensures within { result ≤ length para.now }
    ensures steps { steps.new ≡ steps.old + length para.now }
{
    let mut count = 0;
    for p in 0..para.len() {
        steps.tick();
        if !para[p].class.is_removed() {
            column[count] = p as u32;
            count += 1;
        }
    }
    count
}

/// Returns the position at the index `k + 1`, or none if `k` is the last index.
fn position_after(positions: &[u32], k: usize) -> OptionalPosition
    requires here { k < length positions.now }
    requires rise { ArePositions positions.now u32.MAX }
    ensures { result ≡ slice_get positions.now (k + 1) }
{
    match positions.get(k + 1) {
        Some(next) => OptionalPosition::some(*next as usize),
        None => OptionalPosition::none(),
    }
}

/// Links each of these positions to the next one.
fn link_all<L: Ledger>(positions: &[u32], links: &mut [OptionalPosition], steps: &mut Steps<L>)
    requires small { length links.old < u32.MAX }
    requires rise { ArePositions positions.now (length links.old) }
    ensures chain { IsChain positions.now links.new }
    ensures steps { steps.new ≡ steps.old + length positions.now }
{
    for k in 0..positions.len() {
        steps.tick();
        links[positions[k] as usize] = position_after(positions, k);
    }
}

/// Returns the head of a sequence of `count` positions at the front of the column, in a paragraph of this level.
fn only_head(level: Level, count: usize) -> Head
    requires { count < u32.MAX }
    ensures { result ≡ only_head level count }
{
    Head {
        start: 0,
        end: count as u32,
        level,
        sos: level.direction(),
        eos: level.direction(),
    }
}

/// Writes the positions that remain (X9) into the column, from the front on, and returns their number. If `all_remain`,
/// writes all positions without reading a class.
fn write_positions<L: Ledger>(
    para: &[Unit],
    all_remain: bool,
    column: &mut [u32],
    steps: &mut Steps<L>,
) -> usize
    requires all_remain { all_remain ≡ true → HasNone is_removed (classes_of para.now) }
    requires small { length para.now < u32.MAX }
    requires room { length para.now ≤ length column.old }
    ensures count { result ≡ length (remaining_of (classes_of para.now)) }
    ensures placed { take result column.new ≡ remaining_of (classes_of para.now) }
    ensures within { result ≤ length para.now }
    ensures steps { steps.new ≡ steps.old + length para.now }
{
    if all_remain {
        write_all(para.len(), column, steps);
        return para.len();
    }
    write_remaining(para, column, steps)
}

/// Links each position of a paragraph to the next one.
fn link_successive<L: Ledger>(links: &mut [OptionalPosition], steps: &mut Steps<L>)
    requires some { 0 < length links.old }
    requires small { length links.old < u32.MAX }
    ensures chain { IsChain (positions_from 0 (length links.old)) links.new }
    ensures steps { steps.new ≡ steps.old + length links.old }
{
    let end = links.len();
    for p in 0..end {
        steps.tick();
        links[p] = OptionalPosition::some(p + 1);
    }
    links[end - 1] = OptionalPosition::none();
}

/// Links each written position to the next one. If `all_remain`, these are all positions of the paragraph.
fn link_written<L: Ledger>(
    positions: &[u32],
    all_remain: bool,
    links: &mut [OptionalPosition],
    steps: &mut Steps<L>,
)
    requires some { 0 < length links.old }
    requires small { length links.old < u32.MAX }
    requires rise { ArePositions positions.now (length links.old) }
    requires all_remain { all_remain ≡ true → positions.now ≡ positions_from 0 (length links.old) }
    ensures chain { IsChain positions.now links.new }
    ensures steps { steps.new ≡ steps.old + length positions.now }
{
    if all_remain {
        link_successive(links, steps);
        return;
    }
    link_all(positions, links, steps);
}

/// A paragraph of this level in which nothing begins an embedding or an isolate. All its positions remain (X9) if
/// `all_remain`.
#[derive(Clone, Copy)]
pub struct FlatParagraph<'a> {
    pub units: &'a [Unit],
    pub all_remain: bool,
    pub level: ParaLevel,
}

/// Fills the columns from the front on, and returns the number of sequences: 1, or 0 if no position remains.
pub fn fill_one_sequence<L: Ledger>(
    para: &FlatParagraph,
    links: &mut [OptionalPosition],
    heads: &mut [Head],
    column: &mut [u32],
    steps: &mut Steps<L>,
) -> usize
    requires flat { IsFlat (classes_of para.now.units.now) }
    requires all_remain { para.now.all_remain ≡ true → HasNone is_removed (classes_of para.now.units.now) }
    requires small { length para.now.units.now < u32.MAX }
    requires links { length para.now.units.now ≤ length links.old }
    requires heads { length para.now.units.now ≤ length heads.old }
    requires column { length para.now.units.now ≤ length column.old }
    ensures filled { HoldSequencesOf
        para.now.units.now (level_of_para para.now.level) result links.new heads.new column.new }
    ensures steps { steps.new
        ≡ steps.old + length para.now.units.now + length (remaining_of (classes_of para.now.units.now)) }
{
    let count = write_positions(para.units, para.all_remain, column, steps);
    if count == 0 {
        return 0;
    }
    link_written(
        &column[..count],
        para.all_remain,
        &mut links[..para.units.len()],
        steps,
    );
    heads[0] = only_head(para.level.level(), count);
    1
}
