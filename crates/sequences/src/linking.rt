//! The links from each position to the next one of its sequence (BD13), and the eos of each sequence (X10).
ghost use Rattle.std.specs.Prelude.{◌≡◌, ◌+◌, ◌<◌, ◌≤◌, ◌&&◌, IfSome, Some, None, true, false, is_some, if◌then◌else◌, length, slice_set};
ghost use Rattle.units.specs.Runs.{size_of, level_of, at_one_level, level_or_base, remains, matched_pdi, successor, eos_at, eos_by, last_in, sequence_from};
ghost use Rattle.explicit.specs.Leveled.{IsLeveled};
ghost use Rattle.units.specs.declared.class.Class.TheVariants.{L};
ghost use Rattle.sequences.specs.Blocks.{AreAtLevel, IsWritten};
ghost use Rattle.sequences.specs.Links.{marked};
ghost use Rattle.sequences.specs.Heads.{AreSuccessors, HasEnds, IsMarked};
ghost use Rattle.sequences.specs.BackwardPasses.{BackwardPass};
ghost use Rattle.sequences.specs.Ends.{IsKnown, end_by};

use crate::leveled::Leveled;
use std::sync::ledger::Ledger;
use units::class::Class;
use units::level::Level;
use units::optional_position::OptionalPosition;
use units::steps::Steps;

/// What comes after a position: the next remaining position, its level, and the eos of its sequence. If none remains,
/// the level is the paragraph's.
#[derive(Clone, Copy)]
struct Following {
    next: Option<usize>,
    level: Level,
    end: Class,
}

/// A position that remains (X9), its level, and the eos of its sequence.
#[derive(Clone, Copy)]
struct Remaining {
    position: usize,
    level: Level,
    end: Class,
}

/// How the sequence of a position continues: the next position, if there is one, and the eos of the sequence.
#[derive(Clone, Copy)]
struct Continuation {
    link: Option<usize>,
    end: Class,
}

/// Returns the level of the position, or the paragraph's level if there is no position or it is removed.
pub fn level_or_base(t: &Leveled, at: Option<usize>) -> Level
    requires { IfSome at (λ p. p < size_of t.now) }
    ensures { result ≡ level_or_base t.now at }
{
    match at {
        Some(p) => match t.level(p) {
            Some(level) => level,
            None => t.base(),
        },
        None => t.base(),
    }
}

/// Returns whether the level run of `p` continues after it (BD7): the next remaining position is at the same level.
fn run_goes_on(t: &Leveled, p: usize, following: &Following) -> bool
    requires here { p < size_of t.now }
    ensures { result ≡ (is_some following.now.next && at_one_level (level_of t.now p) (Some following.now.level)) }
{
    match t.level(p) {
        Some(level) => following.next.is_some() && level.get() == following.level.get(),
        None => false,
    }
}

/// Returns the PDI with which the sequence of `p` continues (BD13), if the level run of `p` ends there.
fn pdi_after(t: &Leveled, p: usize, following: &Following) -> Option<usize>
    requires here { p < size_of t.now }
    ensures value { result ≡ (if remains t.now p && is_some following.now.next then matched_pdi t.now p else None) }
    ensures later { IfSome result (λ q. (p < q) × (q < size_of t.now)) }
{
    if t.level(p).is_some() && following.next.is_some() {
        t.matched_pdi(p)
    } else {
        None
    }
}

/// Returns the eos of a sequence that ends at `p` (X10).
fn eos(t: &Leveled, p: usize, following: &Following) -> Class
    requires here { p < size_of t.now }
    requires level { following.now.level ≡ level_or_base t.now following.now.next }
    ensures { result ≡ eos_by t.now p following.now.next }
{
    let is_unmatched = t.is_isolate_initiator(p) && t.matched_pdi(p).is_none();
    let after = if is_unmatched {
        t.base()
    } else {
        following.level
    };
    level_or_base(t, Some(p)).direction_with(after)
}

/// Returns how the sequence of `p` continues (BD13): within its level run, or at the PDI that matches `p`, or not at
/// all.
fn go_on(t: &Leveled, p: usize, following: &Following, ends: &[Class]) -> Continuation
    requires here { p < size_of t.now }
    requires fits { size_of t.now ≤ length ends.now }
    requires known { IsKnown t.now p following.now ends.now }
    ensures link { result.link ≡ successor t.now p }
    ensures later { IfSome result.link (λ q. (p < q) × (q < size_of t.now)) }
    ensures end { result.end ≡ end_by t.now p following.now.next result.link ends.now }
{
    if run_goes_on(t, p, following) {
        return Continuation {
            link: following.next,
            end: following.end,
        };
    }
    match pdi_after(t, p, following) {
        Some(q) => Continuation {
            link: Some(q),
            end: ends[q],
        },
        None => Continuation {
            link: None,
            end: eos(t, p, following),
        },
    }
}

fn link_to(at: Option<usize>) -> OptionalPosition
    requires { IfSome at (λ p. p < u32.MAX) }
    ensures { result ≡ at }
{
    match at {
        Some(p) => OptionalPosition::some(p),
        None => OptionalPosition::none(),
    }
}

fn mark(link: Option<usize>, joined: &mut [bool])
    requires { IfSome link (λ q. q < length joined.old) }
    ensures { joined.new ≡ marked joined.old link }
{
    if let Some(q) = link {
        joined[q] = true;
    }
}

/// Returns whether the eight positions from `first` on remain and are at this level.
fn are_eight_at(t: &Leveled, first: usize, level: Level) -> bool
    requires small { size_of t.now < u32.MAX }
    requires here { first + 8 ≤ size_of t.now }
    ensures { result ≡ true → AreAtLevel t.now level first (first + 8) }
{
    t.is_at(first, level)
        & t.is_at(first + 1, level)
        & t.is_at(first + 2, level)
        & t.is_at(first + 3, level)
        & t.is_at(first + 4, level)
        & t.is_at(first + 5, level)
        & t.is_at(first + 6, level)
        & t.is_at(first + 7, level)
}

/// Writes the links of eight successive positions, the first of which is given: each is linked to the one right after
/// it. Written one by one without a loop, the eight take few instructions.
fn write_links(first: usize, links: &mut [OptionalPosition])
    requires small { first + 8 < u32.MAX }
    requires eight { length links.old ≡ 8 }
    ensures { IsWritten None (λ k. Some (first + k + 1)) 0 8 links.old links.new }
{
    let next = (first + 1) as u32;
    links[0] = OptionalPosition::some(next as usize);
    links[1] = OptionalPosition::some((next + 1) as usize);
    links[2] = OptionalPosition::some((next + 2) as usize);
    links[3] = OptionalPosition::some((next + 3) as usize);
    links[4] = OptionalPosition::some((next + 4) as usize);
    links[5] = OptionalPosition::some((next + 5) as usize);
    links[6] = OptionalPosition::some((next + 6) as usize);
    links[7] = OptionalPosition::some((next + 7) as usize);
}

/// Writes the eos of the sequence of eight positions, at each of them.
fn write_ends(end: Class, ends: &mut [Class])
    requires { length ends.old ≡ 8 }
    ensures { IsWritten L (λ k. end) 0 8 ends.old ends.new }
{
    ends[0] = end;
    ends[1] = end;
    ends[2] = end;
    ends[3] = end;
    ends[4] = end;
    ends[5] = end;
    ends[6] = end;
    ends[7] = end;
}

/// Marks each of eight positions.
fn write_marks(joined: &mut [bool])
    requires { length joined.old ≡ 8 }
    ensures { IsWritten false (λ k. true) 0 8 joined.old joined.new }
{
    joined[0] = true;
    joined[1] = true;
    joined[2] = true;
    joined[3] = true;
    joined[4] = true;
    joined[5] = true;
    joined[6] = true;
    joined[7] = true;
}

/// Links the eight positions from `first` on, whose sequence has this eos, each to the one right after it. The mark of
/// `first` itself is not written. Each linked position is a step.
fn link_eight<L: Ledger>(
    first: usize,
    end: Class,
    links: &mut [OptionalPosition],
    ends: &mut [Class],
    joined: &mut [bool],
    steps: &mut Steps<L>,
)
    requires small { first + 8 < u32.MAX }
    requires links { first + 8 ≤ length links.old }
    requires ends { first + 8 ≤ length ends.old }
    requires joined { first + 8 < length joined.old }
    ensures links { IsWritten None (λ p. Some (p + 1)) first (first + 8) links.old links.new }
    ensures ends { IsWritten Class.L (λ p. end) first (first + 8) ends.old ends.new }
    ensures marks { IsWritten false (λ p. true) (first + 1) (first + 1 + 8) joined.old joined.new }
    ensures steps { steps.new ≡ steps.old + 8 }
{
    steps.add(8);
    write_links(first, &mut links[first..first + 8]);
    write_ends(end, &mut ends[first..first + 8]);
    write_marks(&mut joined[first + 1..first + 9]);
}

/// Links positions before `from` as `link_level` does, eight at a time. Returns the first of these positions, or `from`
/// if there is none. The mark of the returned position is not written.
fn link_eights<L: Ledger>(
    t: &Leveled,
    from: &Remaining,
    links: &mut [OptionalPosition],
    ends: &mut [Class],
    joined: &mut [bool],
    steps: &mut Steps<L>,
) -> usize
    requires small { size_of t.now < u32.MAX }
    requires leveled { IsLeveled t.now }
    requires here { from.now.position < size_of t.now }
    requires level { level_of t.now from.now.position ≡ Some from.now.level }
    requires end { from.now.end ≡ eos_at t.now (last_in (sequence_from t.now from.now.position) from.now.position) }
    requires follow { BackwardPass t.now from.now.position (Some from.now.position) links.old ends.old
        (slice_set joined.old from.now.position false) }
    ensures before { result ≤ from.now.position }
    ensures level { level_of t.now result ≡ Some from.now.level }
    ensures end { from.now.end ≡ eos_at t.now (last_in (sequence_from t.now result) result) }
    ensures follow { BackwardPass t.now result (Some result) links.new ends.new (slice_set joined.new result false) }
    ensures steps { steps.new + result ≡ steps.old + from.now.position }
{
    let mut p = from.position;
    // In a short run, one of these three positions is mostly at another level.
    if p < 8
        || !t.is_at(p - 1, from.level)
        || !t.is_at(p - 4, from.level)
        || !t.is_at(p - 8, from.level)
    {
        return p;
    }
    while p >= 8 && are_eight_at(t, p - 8, from.level) {
        p -= 8;
        link_eight(p, from.end, links, ends, joined, steps);
    }
    p
}

/// Links each position before `from` to the one right after it, from the last one back, as long as they are at its
/// level. Returns the first of these positions, or `from` if there is none, and removes its mark. Each linked position
/// is a step.
fn link_level<L: Ledger>(
    t: &Leveled,
    from: &Remaining,
    links: &mut [OptionalPosition],
    ends: &mut [Class],
    joined: &mut [bool],
    steps: &mut Steps<L>,
) -> usize
    requires small { size_of t.now < u32.MAX }
    requires leveled { IsLeveled t.now }
    requires here { from.now.position < size_of t.now }
    requires level { level_of t.now from.now.position ≡ Some from.now.level }
    requires end { from.now.end ≡ eos_at t.now (last_in (sequence_from t.now from.now.position) from.now.position) }
    requires follow { BackwardPass t.now from.now.position (Some from.now.position) links.old ends.old
        (slice_set joined.old from.now.position false) }
    ensures before { result ≤ from.now.position }
    ensures level { level_of t.now result ≡ Some from.now.level }
    ensures end { from.now.end ≡ eos_at t.now (last_in (sequence_from t.now result) result) }
    ensures follow { BackwardPass t.now result (Some result) links.new ends.new joined.new }
    ensures steps { steps.new + result ≡ steps.old + from.now.position }
{
    let mut p = link_eights(t, from, links, ends, joined, steps);
    while p > 0 && t.is_at(p - 1, from.level) {
        steps.tick();
        links[p - 1] = OptionalPosition::some(p);
        ends[p - 1] = from.end;
        joined[p] = true;
        p -= 1;
    }
    joined[p] = false;
    p
}

/// Links each position to the next one of its sequence, finds the eos of its sequence, and marks the positions that
/// another one is linked to. The pass goes from the last position back.
pub fn link<L: Ledger>(
    t: &Leveled,
    links: &mut [OptionalPosition],
    ends: &mut [Class],
    joined: &mut [bool],
    steps: &mut Steps<L>,
)
    requires small { size_of t.now < u32.MAX }
    requires links { size_of t.now ≤ length links.old }
    requires ends { size_of t.now ≤ length ends.old }
    requires joined { size_of t.now ≤ length joined.old }
    ensures linked { AreSuccessors t.now links.new }
    ensures ends { HasEnds t.now ends.new }
    ensures marked { IsMarked t.now joined.new }
    ensures steps { steps.new ≡ steps.old + size_of t.now }
{
    let mut following = Following {
        next: None,
        level: t.base(),
        end: t.base().direction(),
    };
    let mut p = t.len();
    while p > 0 {
        steps.tick();
        p -= 1;
        let level = t.level(p);
        let Continuation { link, end } = go_on(t, p, &following, ends);
        links[p] = link_to(link);
        ends[p] = end;
        mark(link, joined);
        if let Some(level) = level {
            let from = Remaining {
                position: p,
                level,
                end,
            };
            p = link_level(t, &from, links, ends, joined, steps);
            following = Following {
                next: Some(p),
                level,
                end,
            };
        } else {
            joined[p] = false;
        }
    }
}
