//! All runs of a line, one after another.
ghost use Rattle.std.specs.Prelude.{◌≡◌, ◌≤◌, ◌<◌, true, length, slice_set, MatchOption};
ghost use Rattle.visual.specs.LineRuns.{HasAtMost, HasRuns};
ghost use Rattle.visual.specs.Spans.{BeginsAt};
ghost use Rattle.visual.specs.VisualRuns.{IsInOrder, end_place};

use crate::line::OrderedLine;
use crate::runs::VisualRun;

/// The runs of a line from left to right. Each position of the line is in exactly one of them.
///
/// Removed positions at the end of the line can be a run of their own, which shows nothing. It is the leftmost run if
/// the paragraph's level is 1, and else the rightmost.
#[derive(Clone, Copy, Drop)]
pub struct Runs<'a> {
    line: OrderedLine<'a>,
    /// The place at which the next run begins.
    place: usize,
    /// Whether the run of removed positions at the end of the line, if there is one, has not been returned yet.
    end_pending: bool,
    ghost inside: { place ≤ length line.order.now },
    ghost begins: { place < length line.order.now → BeginsAt line place },
    ghost ahead: { end_pending ≡ true → place ≤ end_place line },
}

impl<'a> Runs<'a> {
    ghost use Rattle.std.specs.Prelude.{◌≡◌, ◌<◌, ◌⊎◌, true, false, IfSome, IsNone};
    ghost use Rattle.visual.specs.LineRuns.{IsRemovedRun, JoinTheLast};
    ghost use Rattle.visual.specs.VisualRuns.{end_place};

    /// Returns an iterator over all runs of a line.
    pub fn of(line: OrderedLine<'a>) -> Runs<'a>
        ensures line { result.line ≡ line.entry }
        ensures place { result.place ≡ 0 }
        ensures end { result.end_pending ≡ true }
    {
        Runs {
            line,
            place: 0,
            end_pending: true,
        }
    }

    /// Returns the run of removed positions if there is one and it comes next: the next place is the end of the line.
    fn next_removed(&mut self) -> Option<VisualRun>
        ensures line { self.new.line ≡ self.old.line }
        ensures place { self.new.place ≡ self.old.place }
        ensures closed { self.old.end_pending ≡ false → self.new.end_pending ≡ false }
        ensures given { IfSome result (λ run. IsRemovedRun self.old.line run
            × (self.old.end_pending ≡ true) × (self.new.end_pending ≡ false)
            × (self.old.place ≡ end_place self.old.line)) }
        ensures pending { IsNone result → (self.new.end_pending ≡ self.old.end_pending) ⊎ JoinTheLast self.old.line }
        ensures ahead { self.new.end_pending ≡ true → self.new.place < end_place self.new.line }
    {
        if !self.end_pending || self.place != self.line.end_place() {
            return None;
        }
        self.end_pending = false;
        self.line.removed_run()
    }
}

impl<'a> Iterator for Runs<'a> {
    ghost use Rattle.std.specs.Iterator.{at_most};
    ghost use Rattle.visual.specs.NextRuns.{GivesRun, most_remaining};

    type Item = VisualRun;

    ghost next_gives = { GivesRun };

    ghost remaining = { λ runs. at_most (most_remaining runs) };

    fn next(&mut self) -> Option<VisualRun> {
        if let Some(run) = self.next_removed() {
            return Some(run);
        }
        if self.place == self.line.order.len() {
            return None;
        }
        let run = self.line.run_from(self.place);
        self.place += run.shown;
        Some(run)
    }
}

/// Writes the item of a run after the first `count` items, if there is a place for it.
pub fn put<T: Copy>(out: &mut [T], count: usize, item: T)
    ensures { out.new ≡ slice_set out.old count item }
{
    if count < out.len() {
        out[count] = item;
    }
}

/// Returns the number of runs of a line. Takes time proportional to the length of the line.
pub fn run_count(line: &OrderedLine<'_>) -> usize
    requires { IsInOrder line.now }
    ensures { HasRuns line.now result }
{
    let mut count = 0;
    for _run in Runs::of(*line) {
        count += 1;
    }
    count
}

/// Returns the number of runs of a line if it is greater than `items`. It does not count the runs if the line has at
/// most `items` positions, because a line has no more runs than positions.
pub fn runs_above(line: &OrderedLine<'_>, items: usize) -> Option<usize>
    requires { IsInOrder line.now }
    ensures { MatchOption result (HasAtMost line.now items) (λ count. (items < count) × HasRuns line.now count) }
{
    if line.end - line.start <= items {
        return None;
    }
    let count = run_count(line);
    if items < count { Some(count) } else { None }
}
