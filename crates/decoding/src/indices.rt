//! Offsets of code units, and the indices of the characters that they belong to.
ghost use Rattle.std.specs.Prelude.{◌≡◌, ◌<◌, ◌≤◌, ◌+◌, ◌-◌, ℕ, length, map, slice_index, take, MatchOption, OnOk, IfErr};
ghost use Rattle.std.specs.List.{All};
ghost use Rattle.decoding.specs.Starts.{AreOffsets, IsBetween, IsCountedBetween, IsFirstBetween, IsNarrowed, Rises};

/// Writes for each break, which is an offset of code units, the index of the character that begins there. `starts`
/// contains the offsets of all characters and of the text's end. If no character begins at a break, fails with the
/// index of the first such break in `breaks`.
pub fn write_indices(starts: &[u32], breaks: &[usize], indices: &mut [usize]) -> Result<(), usize>
    requires starts { Rises starts.now }
    requires breaks { (i : ℕ) → 0 < i → i < length breaks.now
        → slice_index breaks.now (i - 1) < slice_index breaks.now i }
    requires room { length breaks.now ≤ length indices.old }
    ensures len { length indices.new ≡ length indices.old }
    ensures found { OnOk result (map (slice_index starts.now) (take (length breaks.now) indices.new) ≡ breaks.now) }
    ensures inside { OnOk result (All (λ k. k < length starts.now) (take (length breaks.now) indices.new)) }
    ensures between { IfErr result (IsFirstBetween starts.now breaks.now) }
{
    let mut next = 0;
    for k in 0..starts.len() {
        if next == breaks.len() {
            return Ok(());
        }
        if starts[k] as usize == breaks[next] {
            indices[next] = k;
            next += 1;
        }
    }
    if next < breaks.len() {
        return Err(next);
    }
    Ok(())
}

/// The number of offsets at which a binary search ends. The remaining offsets are counted one by one: that loop has no
/// branch that depends on their values, and the branches of a search are hard to predict.
const FEW: usize = 64;

/// Returns the index after the last offset from `first` up to `end` that is at most `at`, or `first` if there is none.
#[inline(always)]
fn count_between(starts: &[u32], first: usize, end: usize, at: u32) -> usize
    requires rises { Rises starts.now }
    requires forward { first ≤ end }
    requires inside { end ≤ length starts.now }
    requires few { end ≤ first + 64 }
    ensures { IsCountedBetween starts.now at first end result }
{
    let mut few: u32 = 0;
    for k in first..end {
        if starts[k] <= at {
            few += 1;
        }
    }
    first + few as usize
}

/// Returns how many of the offsets are at most `at`, with a binary search. The offsets before `first` are at most `at`,
/// and those from `end` on are greater.
fn count_halving(starts: &[u32], first: usize, end: usize, at: u32) -> usize
    requires rises { Rises starts.now }
    requires forward { first ≤ end }
    requires known { IsNarrowed starts.now at first end }
    ensures { IsNarrowed starts.now at result result }
{
    let mut first = first;
    let mut size = end - first;
    while size > FEW {
        let half = size / 2;
        if starts[first + half] <= at {
            first += half;
        }
        size -= half;
    }
    count_between(starts, first, first + size, at)
}

/// How many offsets are looked at around a guess.
const WINDOW: usize = 32;

/// A search: the offsets before the index `first` are at most the given one, and those from `end` on are greater.
#[derive(Clone, Copy)]
struct Search {
    first: usize,
    end: usize,
    /// The index that is looked at next.
    guess: usize,
}

/// Returns the index that an offset has if all characters of the text have the same length.
#[inline(always)]
fn first_guess(starts: &[u32], at: u32) -> usize
    requires { 0 < length starts.now }
{
    let last = starts[starts.len() - 1] as usize;
    (at as usize).wrapping_mul(starts.len()) / (last + 1)
}

/// Looks at the offsets around the guess. If none or all of them are at most `at`, guesses again, as if all characters
/// had the average length of those around the guess.
#[inline(always)]
fn look_around(starts: &[u32], search: Search, at: u32) -> Search
    requires rises { Rises starts.now }
    requires some { 64 < length starts.now }
    requires forward { search.first ≤ search.end }
    requires known { IsNarrowed starts.now at search.first search.end }
    ensures forward { result.first ≤ result.end }
    ensures known { IsNarrowed starts.now at result.first result.end }
{
    let Search { first, end, guess } = search;
    let low = guess.saturating_sub(WINDOW / 2).min(starts.len() - WINDOW);
    let high = low + WINDOW;
    let count = count_between(starts, low, high, at);
    let lowest = starts[low];
    let highest = starts[high - 1];
    let length = (highest - lowest) as usize;
    if count == low {
        let before = (lowest - at) as usize * WINDOW / length;
        return Search {
            first,
            end: end.min(low),
            guess: low.saturating_sub(before),
        };
    }
    if count == high {
        let after = (at - highest) as usize * WINDOW / length;
        return Search {
            first: first.max(high),
            end,
            guess: high + after,
        };
    }
    Search {
        first: count,
        end: count,
        guess: count,
    }
}

/// How often an index is guessed. If no guess is near, a binary search follows.
const GUESSES: usize = 3;

/// Returns how many of the offsets are at most `at`.
#[inline(never)]
fn count_up_to(starts: &[u32], at: u32) -> usize
    requires { Rises starts.now }
    ensures { IsNarrowed starts.now at result result }
{
    if starts.len() <= FEW {
        return count_between(starts, 0, starts.len(), at);
    }
    let mut search = Search {
        first: 0,
        end: starts.len(),
        guess: first_guess(starts, at),
    };
    for _ in 0..GUESSES {
        search = look_around(starts, search, at);
        if search.first == search.end {
            return search.first;
        }
    }
    count_halving(starts, search.first, search.end, at)
}

/// Returns the index of the character that the code unit at an offset belongs to, or none from the text's end on.
pub fn index_of(starts: &[u32], at: usize) -> Option<usize>
    requires some { 0 < length starts.now }
    requires starts { AreOffsets (length starts.now - 1) starts.now }
    ensures { MatchOption result (slice_index starts.now (length starts.now - 1) ≤ at) (IsBetween starts.now at) }
{
    let Ok(at) = u32::try_from(at) else {
        return None;
    };
    let following = count_up_to(starts, at);
    if following == starts.len() {
        return None;
    }
    Some(following - 1)
}
