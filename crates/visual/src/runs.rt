//! The runs of a line in their order from left to right.
ghost use Rattle.std.specs.Prelude.{◌≡◌, ◌≢◌, ◌≤◌, ◌<◌, ◌+◌, ◌-◌, ◌⊎◌, ℕ, None, true, false, IfSome, IfNone, IsSome, IsNone, is_some, is_none, min, max, length, slice_index, slice_index_or, unwrap_or};
ghost use Rattle.units.specs.Isolates.{level_of_para};
ghost use Rattle.visual.specs.EffectiveLevelRanges.{next_remaining};
ghost use Rattle.visual.specs.LineRuns.{MayHaveRemovedRun};
ghost use Rattle.visual.specs.Spans.{AllRemoved, BeginsAt, IsAlone, level_at_place, level_or_para};
ghost use Rattle.visual.specs.VisualRuns.{IsInOrder, IsRunAt, end_place};

use crate::line::OrderedLine;
use units::level::{Level, ParaLevel};

/// A run of a line: positions of one level that are consecutive in the text and adjacent on the line.
#[derive(Clone, Copy, Debug, PartialEq, Eq)]
pub struct VisualRun {
    /// The position at which it begins.
    pub start: usize,
    /// The position after its last one.
    pub end: usize,
    /// Its level. If it is odd, the positions are shown in falling order.
    pub level: Level,
    /// The number of its remaining positions (X9), which is the number of places that it takes in the line's order.
    pub shown: usize,
}

/// X9: returns the first remaining position from this one on and before `end`, if there is one.
fn next_remaining(levels: &[Option<Level>], position: usize, end: usize) -> Option<usize>
    requires { end ≤ length levels.now }
    ensures { result ≡ next_remaining levels.now end position }
{
    for next in position..end {
        if levels[next].is_some() {
            return Some(next);
        }
    }
    None
}

/// X9: returns the first of the removed positions directly before this one, but none before `start`. Returns this
/// position if there are none.
fn first_removed(levels: &[Option<Level>], start: usize, position: usize) -> usize
    requires line { start ≤ position }
    requires text { position ≤ length levels.now }
    ensures inside { start ≤ result }
    ensures up_to { result ≤ position }
    ensures removed { AllRemoved levels.now result position }
    ensures stops { (result ≡ start)
        ⊎ ((start < result) × (is_some (slice_index_or levels.now (result - 1) None) ≡ true)) }
{
    for first in (start..position).rev() {
        if levels[first].is_some() {
            return first + 1;
        }
    }
    start
}

impl<'a> OrderedLine<'a> {
    /// Returns the level of a position, or that of the paragraph if X9 removed the position.
    fn level_or_para(&self, position: usize) -> Level
        requires { position < length self.now.levels.now }
        ensures { result ≡ level_or_para self.now position }
    {
        self.levels[position].unwrap_or(self.para_level.level())
    }

    /// Returns the first place after this one whose position has another level, or the length of the order.
    fn place_after(&self, from: usize) -> usize
        requires { from < length self.now.order.now }
        ensures following { from < result }
        ensures inside { result ≤ length self.now.order.now }
        ensures same { (i : ℕ) → from ≤ i → i < result → level_at_place self.now i ≡ level_at_place self.now from }
        ensures ends { result < length self.now.order.now →
            level_at_place self.now result ≢ level_at_place self.now from }
    {
        let level = self.level_or_para(self.order[from]);
        for place in from + 1..self.order.len() {
            if self.level_or_para(self.order[place]).get() != level.get() {
                return place;
            }
        }
        self.order.len()
    }

    /// Returns the position after a run, given its last remaining position and its level. Removed positions up to the
    /// end of the line belong to the run if it has the level of the paragraph.
    fn end_after(&self, last: usize, level: Level) -> usize
        requires { last < length self.now.levels.now }
        ensures joined { next_remaining self.now.levels.now self.now.end (last + 1) ≡ None
            → level ≡ level_of_para self.now.para_level → result ≡ self.now.end }
        ensures alone { (next_remaining self.now.levels.now self.now.end (last + 1) ≡ None
            → level ≢ level_of_para self.now.para_level) → result ≡ last + 1 }
    {
        let at_para_level = level.get() == self.para_level.level().get();
        if at_para_level && next_remaining(self.levels, last + 1, self.end).is_none() {
            self.end
        } else {
            last + 1
        }
    }

    /// Returns the run of the line that begins at a place of its order.
    pub(crate) fn run_from(&self, from: usize) -> VisualRun
        requires { from < length self.now.order.now }
        ensures run { IsInOrder self.now → BeginsAt self.now from → IsRunAt self.now from result }
        ensures some { 0 < result.shown }
        ensures inside { from + result.shown ≤ length self.now.order.now }
        ensures ends { from + result.shown < length self.now.order.now → BeginsAt self.now (from + result.shown) }
    {
        let to = self.place_after(from);
        let first = self.order[from];
        let last = self.order[to - 1];
        let level = self.level_or_para(first);
        let least = first.min(last);
        VisualRun {
            start: first_removed(self.levels, self.start.min(least), least),
            end: self.end_after(first.max(last), level),
            level,
            shown: to - from,
        }
    }

    /// Returns whether a run of the paragraph's level that begins at `start` has no position of that level directly
    /// before it.
    fn is_alone(&self, start: usize) -> bool
        requires { start ≤ length self.now.levels.now }
        ensures alone { result ≡ true → IsAlone self.now start }
        ensures joined { result ≡ false → (self.now.start < start) × (level_or_para self.now (start - 1)
            ≡ level_of_para self.now.para_level) }
    {
        start <= self.start || self.level_or_para(start - 1).get() != self.para_level.level().get()
    }

    /// Returns the place of the line's end in the direction of its paragraph: the leftmost place at level 1, and else
    /// the one after the rightmost.
    pub(crate) fn end_place(&self) -> usize
        ensures { result ≡ end_place self.now }
    {
        match self.para_level {
            ParaLevel::Zero => self.order.len(),
            ParaLevel::One => 0,
        }
    }

    /// Returns the run of the removed positions at the end of the line. Returns `None` if there are none, or if they
    /// belong to the run before them. The run shows nothing, and is at the end of the line in the direction of its
    /// paragraph.
    pub(crate) fn removed_run(&self) -> Option<VisualRun>
        ensures { MayHaveRemovedRun self.now result }
    {
        let start = first_removed(self.levels, self.start, self.end);
        if start == self.end || !self.is_alone(start) {
            return None;
        }
        Some(VisualRun {
            start,
            end: self.end,
            level: self.para_level.level(),
            shown: 0,
        })
    }
}
