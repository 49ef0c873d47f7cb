//! The pairs of a sequence, one after another in the order of their openers.
ghost use Rattle.std.specs.Prelude.{◌≡◌, ℕ, false, ◌<◌, ◌≤◌, ◌+◌, length, is_some, slice_index, IfSome, IsNone};
ghost use Rattle.resolve.specs.NextPairs.{NoneBegins, IsNextPair};
ghost use Rattle.resolve.specs.Pairs.{closer_in};

use crate::pairs::Pairs;
use std::sync::ledger::Ledger;
use units::steps::Steps;

/// A bracket pair of a sequence.
#[derive(Clone, Copy)]
pub(crate) struct Pair {
    /// The index of the opening bracket in the sequence.
    pub(crate) index: usize,

    /// The position of the opening bracket.
    pub(crate) opener: usize,

    /// The position of the closing bracket.
    pub(crate) closer: usize,
}

/// Returns whether a pair begins at this index of a sequence, which has these positions.
fn begins_at(positions: &[u32], index: usize, pairs: &Pairs) -> bool
    requires within { (k : ℕ) → k < length positions.now → slice_index positions.now k < length pairs.now }
    requires index { index < length positions.now }
    ensures { result ≡ is_some (closer_in pairs.now (slice_index positions.now index)) }
{
    pairs.closer(positions[index] as usize).is_some()
}

/// Returns whether a pair begins at this index or at one of the three after it.
fn begins_in_four(positions: &[u32], index: usize, pairs: &Pairs) -> bool
    requires within { (k : ℕ) → k < length positions.now → slice_index positions.now k < length pairs.now }
    requires index { index + 4 ≤ length positions.now }
    ensures { result ≡ false → NoneBegins pairs.now positions.now index (index + 4) }
{
    begins_at(positions, index, pairs)
        | begins_at(positions, index + 1, pairs)
        | begins_at(positions, index + 2, pairs)
        | begins_at(positions, index + 3, pairs)
}

/// Skips indices from `from` on at which no pair begins, four at a time. Returns the index after them. Each index is a
/// step.
fn pass_fours<L: Ledger>(
    positions: &[u32],
    from: usize,
    pairs: &Pairs,
    steps: &mut Steps<L>,
) -> usize
    requires within { (k : ℕ) → k < length positions.now → slice_index positions.now k < length pairs.now }
    requires from { from ≤ length positions.now }
    ensures later { from ≤ result }
    ensures within { result ≤ length positions.now }
    ensures none { NoneBegins pairs.now positions.now from result }
    ensures steps { steps.new + from ≡ steps.old + result }
{
    let mut k = from;
    while positions.len() - k >= 4 && !begins_in_four(positions, k, pairs) {
        steps.add(4);
        k += 4;
    }
    k
}

/// Returns the first pair that begins at the index `from` or later in a sequence, which has these positions. Each index
/// that is looked at is a step.
pub(crate) fn next_pair<L: Ledger>(
    positions: &[u32],
    from: usize,
    pairs: &Pairs,
    steps: &mut Steps<L>,
) -> Option<Pair>
    requires within { (k : ℕ) → k < length positions.now → slice_index positions.now k < length pairs.now }
    requires from { from ≤ length positions.now }
    ensures found { IfSome result (λ pair. IsNextPair pairs.now positions.now from pair) }
    ensures none { IsNone result → NoneBegins pairs.now positions.now from (length positions.now) }
    ensures steps { IfSome result (λ pair. steps.new + from ≡ steps.old + (pair.index + 1)) }
    ensures all_steps { IsNone result → steps.new + from ≡ steps.old + length positions.now }
{
    let start = pass_fours(positions, from, pairs, steps);
    for k in start..positions.len() {
        steps.tick();
        let opener = positions[k] as usize;
        if let Some(closer) = pairs.closer(opener) {
            return Some(Pair {
                index: k,
                opener,
                closer,
            });
        }
    }
    None
}
