//! The heads of the sequences: where each one begins, its level, and its sos and eos (BD13, X10).
ghost use Rattle.std.specs.Prelude.{◌≡◌, ◌≤◌, ◌+◌, ◌-◌, ◌++◌, ◌<◌, ◌↔◌, IfSome, IsTrue, Some, true, not, length, take};
ghost use Rattle.units.specs.Positions.{positions_from};
ghost use Rattle.units.specs.Runs.{size_of, last_remaining, begins_sequence, sequence_from};
ghost use Rattle.sequences.specs.Blocks.{AreJoined, LeadOn};
ghost use Rattle.sequences.specs.Links.{IsLinkedStretch, is_joined, link_at, linked, LinksForward};
ghost use Rattle.sequences.specs.Heads.{IsMarked, HasEnds, AreSuccessors, head_at, heads_of, column_of};

use crate::leveled::Leveled;
use crate::linking::level_or_base;
use std::sync::ledger::Ledger;
use units::class::Class;
use units::level::Level;
use units::optional_position::OptionalPosition;
use units::steps::Steps;

/// A sequence without its positions, which are in the column from `start` up to `end`.
#[derive(Clone, Copy)]
pub struct Head {
    pub start: u32,
    pub end: u32,
    pub level: Level,
    pub sos: Class,
    pub eos: Class,
}

/// Returns whether a sequence begins at `p` (BD13).
fn begins(t: &Leveled, joined: &[bool], p: usize) -> bool
    requires here { p < size_of t.now }
    requires fits { size_of t.now ≤ length joined.now }
    requires joined { IsMarked t.now joined.now }
    ensures { result ≡ begins_sequence t.now p }
{
    t.level(p).is_some() && !joined[p]
}

/// A sequence that was written to the column: the end of its positions there, and the last one of those that follow its
/// first position without a gap.
#[derive(Clone, Copy)]
struct Written {
    end: usize,
    last: usize,
}

/// Returns whether a position is linked to the one right after it.
fn leads_on(links: &[OptionalPosition], p: usize) -> bool
    requires small { length links.now < u32.MAX }
    requires here { p < length links.now }
    ensures { IsTrue result ↔ (link_at links.now p ≡ Some (p + 1)) }
{
    links[p] == OptionalPosition::some(p + 1)
}

/// Returns whether each of the four positions from `first` on is linked to the one right after it.
fn lead_on_four(links: &[OptionalPosition], first: usize) -> bool
    requires small { length links.now < u32.MAX }
    requires here { first + 4 ≤ length links.now }
    ensures { result ≡ true → LeadOn links.now first (first + 4) }
{
    leads_on(links, first)
        & leads_on(links, first + 1)
        & leads_on(links, first + 2)
        & leads_on(links, first + 3)
}

/// Returns whether there are eight positions from `first` on and each of them is linked to the one right after it.
fn lead_on_eight(links: &[OptionalPosition], first: usize) -> bool
    requires small { length links.now < u32.MAX }
    requires here { first < length links.now }
    ensures within { result ≡ true → first + 8 ≤ length links.now }
    ensures linked { result ≡ true → LeadOn links.now first (first + 8) }
{
    links.len() - first >= 8 && lead_on_four(links, first) & lead_on_four(links, first + 4)
}

/// Writes eight successive positions, the first of which is given, into the column, from `at` on. Each written position
/// is a step. Written one by one without a loop, the eight take few instructions.
fn write_eight<L: Ledger>(first: usize, column: &mut [u32], at: usize, steps: &mut Steps<L>)
    requires small { first + 8 < u32.MAX }
    requires room { at + 8 ≤ length column.old }
    ensures column { take (at + 8) column.new ≡ take at column.old ++ positions_from first 8 }
    ensures steps { steps.new ≡ steps.old + 8 }
{
    let next = first as u32;
    steps.add(8);
    column[at] = next;
    column[at + 1] = next + 1;
    column[at + 2] = next + 2;
    column[at + 3] = next + 3;
    column[at + 4] = next + 4;
    column[at + 5] = next + 5;
    column[at + 6] = next + 6;
    column[at + 7] = next + 7;
}

/// Writes the positions after `first` into the column, from `at` on, eight at a time, as long as each position before
/// them is linked to the one right after it. Returns the last of these positions, or `first` if there is none. Each
/// written position is a step.
fn write_eights<L: Ledger>(
    links: &[OptionalPosition],
    first: usize,
    column: &mut [u32],
    at: usize,
    steps: &mut Steps<L>,
) -> usize
    requires small { length links.now < u32.MAX }
    requires linked { LinksForward links.now }
    requires first { first < length links.now }
    requires room { at + length (linked links.now (link_at links.now first)) ≤ length column.old }
    ensures stretch { IsLinkedStretch links.now first result }
    ensures column { take (at + (result - first)) column.new ++ linked links.now (link_at links.now result)
        ≡ take at column.old ++ linked links.now (link_at links.now first) }
    ensures rest { at + (result - first) + length (linked links.now (link_at links.now result))
        ≡ at + length (linked links.now (link_at links.now first)) }
    ensures steps { steps.new + first ≡ steps.old + result }
{
    let mut p = first;
    // Each turn looks at the links of the next one, so that the compiler writes and compares several items at once.
    let mut lead_on = lead_on_eight(links, p);
    while lead_on {
        write_eight(p + 1, column, at + (p - first), steps);
        p += 8;
        lead_on = lead_on_eight(links, p);
    }
    p
}

/// Does the same as `write_stretch`, but writes at most eight positions.
fn write_few<L: Ledger>(
    links: &[OptionalPosition],
    first: usize,
    column: &mut [u32],
    start: usize,
    steps: &mut Steps<L>,
) -> usize
    requires small { length links.now < u32.MAX }
    requires linked { LinksForward links.now }
    requires first { first < length links.now }
    requires room { start + length (linked links.now (Some first)) ≤ length column.old }
    ensures stretch { IsLinkedStretch links.now first result }
    ensures column { take (start + (result - first) + 1) column.new ++ linked links.now (link_at links.now result)
        ≡ take start column.old ++ linked links.now (Some first) }
    ensures rest { start + (result - first) + 1 + length (linked links.now (link_at links.now result))
        ≡ start + length (linked links.now (Some first)) }
    ensures steps { steps.new + first ≡ steps.old + result + 1 }
{
    let mut last = first;
    steps.tick();
    column[start] = first as u32;
    while last - first < 7 && leads_on(links, last) {
        last += 1;
        steps.tick();
        column[start + (last - first)] = last as u32;
    }
    last
}

/// Does the same as `write_stretch`, in a way that is quick if many positions follow.
// Inlined, it makes short stretches slower.
#[inline(never)]
fn write_long_stretch<L: Ledger>(
    links: &[OptionalPosition],
    first: usize,
    column: &mut [u32],
    start: usize,
    steps: &mut Steps<L>,
) -> usize
    requires small { length links.now < u32.MAX }
    requires linked { LinksForward links.now }
    requires first { first < length links.now }
    requires room { start + length (linked links.now (Some first)) ≤ length column.old }
    ensures stretch { IsLinkedStretch links.now first result }
    ensures column { take (start + (result - first) + 1) column.new ++ linked links.now (link_at links.now result)
        ≡ take start column.old ++ linked links.now (Some first) }
    ensures rest { start + (result - first) + 1 + length (linked links.now (link_at links.now result))
        ≡ start + length (linked links.now (Some first)) }
    ensures steps { steps.new + first ≡ steps.old + result + 1 }
{
    steps.tick();
    column[start] = first as u32;
    let mut p = write_eights(links, first, column, start + 1, steps);
    while leads_on(links, p) {
        p += 1;
        steps.tick();
        column[start + (p - first)] = p as u32;
    }
    p
}

/// Writes `first` into the column at `start`, followed by the positions after it, as long as each one is linked to the
/// one right after it. Returns the last of these positions. Each written position is a step.
fn write_stretch<L: Ledger>(
    links: &[OptionalPosition],
    first: usize,
    column: &mut [u32],
    start: usize,
    steps: &mut Steps<L>,
) -> usize
    requires small { length links.now < u32.MAX }
    requires linked { LinksForward links.now }
    requires first { first < length links.now }
    requires room { start + length (linked links.now (Some first)) ≤ length column.old }
    ensures stretch { IsLinkedStretch links.now first result }
    ensures column { take (start + (result - first) + 1) column.new ++ linked links.now (link_at links.now result)
        ≡ take start column.old ++ linked links.now (Some first) }
    ensures rest { start + (result - first) + 1 + length (linked links.now (link_at links.now result))
        ≡ start + length (linked links.now (Some first)) }
    ensures steps { steps.new + first ≡ steps.old + result + 1 }
{
    let p = write_few(links, first, column, start, steps);
    if !leads_on(links, p) {
        return p;
    }
    let next = start + (p - first) + 1;
    write_long_stretch(links, p + 1, column, next, steps)
}

/// Writes `first` and the positions that its links lead to into the column, from `start` on.
fn write_linked<L: Ledger>(
    links: &[OptionalPosition],
    first: usize,
    column: &mut [u32],
    start: usize,
    steps: &mut Steps<L>,
) -> Written
    requires small { length links.now < u32.MAX }
    requires linked { LinksForward links.now }
    requires first { first < length links.now }
    requires room { start + length (linked links.now (Some first)) ≤ length column.old }
    ensures stretch { IsLinkedStretch links.now first result.last }
    ensures column { take result.end column.new ≡ take start column.old ++ linked links.now (Some first) }
    ensures end { result.end ≡ start + length (linked links.now (Some first)) }
    ensures steps { steps.new ≡ steps.old + length (linked links.now (Some first)) }
{
    let last = write_stretch(links, first, column, start, steps);
    let mut end = start + (last - first) + 1;
    let mut at = links[last].get();
    while let Some(p) = at {
        let q = write_stretch(links, p, column, end, steps);
        end = end + (q - p) + 1;
        at = links[q].get();
    }
    Written { end, last }
}

/// Returns the head of the sequence that begins at `p`, whose positions are in the column from `start` up to `end`.
fn make_head(
    t: &Leveled,
    ends: &[Class],
    last: Option<usize>,
    p: usize,
    start: usize,
    end: usize,
) -> Head
    requires here { p < size_of t.now }
    requires fits { size_of t.now ≤ length ends.now }
    requires ends { HasEnds t.now ends.now }
    requires within { IfSome last (λ q. q < size_of t.now) }
    requires last { last ≡ last_remaining t.now p }
    requires small { end < u32.MAX }
    requires rises { start ≤ end }
    requires positions { end ≡ start + length (sequence_from t.now p) }
    ensures { result ≡ head_at t.now p start }
{
    let level = level_or_base(t, Some(p));
    Head {
        start: start as u32,
        end: end as u32,
        level,
        sos: level.direction_with(level_or_base(t, last)),
        eos: ends[p],
    }
}

/// The positions of a paragraph after linking: the link from each one to the next one of its sequence, the eos of its
/// sequence, and whether another one is linked to it.
#[derive(Clone, Copy)]
pub struct LinkedPositions<'a> {
    pub links: &'a [OptionalPosition],
    pub ends: &'a [Class],
    pub joined: &'a [bool],
}

/// Returns whether no other position is linked to this one.
fn is_free(joined: &[bool], p: usize) -> bool
    requires { p < length joined.now }
    ensures { result ≡ not (is_joined joined.now p) }
{
    !joined[p]
}

/// Returns whether another position is linked to each of the eight positions from `first` on.
fn are_eight_joined(joined: &[bool], first: usize) -> bool
    requires { first + 8 ≤ length joined.now }
    ensures { result ≡ true → AreJoined joined.now first (first + 8) }
{
    !(is_free(joined, first)
        | is_free(joined, first + 1)
        | is_free(joined, first + 2)
        | is_free(joined, first + 3)
        | is_free(joined, first + 4)
        | is_free(joined, first + 5)
        | is_free(joined, first + 6)
        | is_free(joined, first + 7))
}

/// Skips positions from `from` on, eight at a time, as long as another position is linked to each of them. Returns the
/// position after them. Each skipped position is a step.
fn pass_eights<L: Ledger>(joined: &[bool], from: usize, end: usize, steps: &mut Steps<L>) -> usize
    requires from { from ≤ end }
    requires room { end ≤ length joined.now }
    ensures later { from ≤ result }
    ensures within { result ≤ end }
    ensures passed { AreJoined joined.now from result }
    ensures steps { steps.new + from ≡ steps.old + result }
{
    let mut p = from;
    while end - p >= 8 && are_eight_joined(joined, p) {
        steps.add(8);
        p += 8;
    }
    p
}

/// Skips positions from `from` on, before `end`, as long as another position is linked to each of them. Returns the
/// position after them. Each skipped position is a step.
fn pass_joined<L: Ledger>(joined: &[bool], from: usize, end: usize, steps: &mut Steps<L>) -> usize
    requires from { from ≤ end }
    requires room { end ≤ length joined.now }
    ensures later { from ≤ result }
    ensures within { result ≤ end }
    ensures passed { AreJoined joined.now from result }
    ensures steps { steps.new + from ≡ steps.old + result }
{
    if from == end || is_free(joined, from) {
        return from;
    }
    steps.tick();
    let mut p = pass_eights(joined, from + 1, end, steps);
    while p < end && !is_free(joined, p) {
        steps.tick();
        p += 1;
    }
    p
}

/// Writes the heads of the sequences in the order of their first positions, and the positions of each sequence into one
/// column, both from the front on. Returns the number of sequences. A sequence never begins at a position that another
/// one is linked to, so the pass skips the positions that are written without a gap. Each position of the paragraph is
/// a step, and so is each written one.
pub fn fill_heads<L: Ledger>(
    t: &Leveled,
    positions: &LinkedPositions,
    heads: &mut [Head],
    column: &mut [u32],
    steps: &mut Steps<L>,
) -> usize
    requires small { size_of t.now < u32.MAX }
    requires links_fit { length positions.now.links.now ≡ size_of t.now }
    requires links { AreSuccessors t.now positions.now.links.now }
    requires ends_fit { size_of t.now ≤ length positions.now.ends.now }
    requires ends { HasEnds t.now positions.now.ends.now }
    requires joined_fit { size_of t.now ≤ length positions.now.joined.now }
    requires joined { IsMarked t.now positions.now.joined.now }
    requires heads_room { size_of t.now ≤ length heads.old }
    requires column_room { size_of t.now ≤ length column.old }
    ensures count { result ≡ length (heads_of t.now) }
    ensures heads { take result heads.new ≡ heads_of t.now }
    ensures column { take (length (column_of t.now)) column.new ≡ column_of t.now }
    ensures steps { steps.new ≡ steps.old + size_of t.now + length (column_of t.now) }
{
    let mut count = 0;
    let mut end = 0;
    let mut last = None;
    let mut p = 0;
    while p < t.len() {
        if begins(t, positions.joined, p) {
            let written = write_linked(positions.links, p, column, end, steps);
            heads[count] = make_head(t, positions.ends, last, p, end, written.end);
            count += 1;
            end = written.end;
            // The loop skips these positions, but each position of the paragraph counts as a step.
            steps.add(written.last - p + 1);
            last = Some(written.last);
            p = written.last + 1;
        } else if t.level(p).is_some() {
            // Another position is linked to this one.
            steps.tick();
            p = pass_joined(positions.joined, p + 1, t.len(), steps);
            last = Some(p - 1);
        } else {
            steps.tick();
            p += 1;
        }
    }
    count
}
