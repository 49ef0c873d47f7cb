//! One line of a text alone, at the cost of that line.
ghost use Rattle.std.specs.Prelude.{◌≡◌, ◌<◌, ◌≤◌, ◌+◌, ◌-◌, ◌*◌, ◌^◌, ◌⊎◌, Err, IfSome, IsTrue, MatchResult, OnOk, false, length, map, slice_range, take, List, Option, ℕ};
ghost use Rattle.std.specs.List.{All, AllWithin};
ghost use Rattle.units.specs.Isolates.{level_of_para};
ghost use Rattle.units.specs.declared.level.ParaLevel.{ParaLevel as Para};
ghost use Rattle.units.specs.Reordering.{line_order};
ghost use Rattle.lines.specs.LineEnds.{AreAllParagraphEnds, Rises};
ghost use Rattle.lines.specs.LinesAlone.{HasParaLevel, IsLineIn, IsLineOfParagraph, IsWithinParagraph, RejectsSpan};
ghost use Rattle.lines.specs.LinePositions.{IsAtOneLevel};
ghost use Rattle.lines.specs.StepBounds.{uniform_order_steps, order_steps};
ghost use Rattle.lines.specs.Spaces.{HasNoSegments, levels_reset};

use crate::breaks::Breaks;
use crate::order::write_order;
use crate::resets::{reset_text, reset_unsegmented};
use crate::runs::Run;
use crate::spans::LineSpan;
use std::ops::Range;
use std::sync::ledger::Ledger;
use units::bracket::Unit;
use units::level::{Level, ParaLevel};
use units::steps::Steps;

/// Why a range of positions is not a line of the text. If there are several reasons, the first of these is reported.
#[derive(Clone, Copy, Debug, PartialEq, Eq)]
pub enum SpanFault {
    /// It does not start below its end.
    NotForward,
    /// It ends after the end of the text.
    BeyondText,
    /// A paragraph ends within it, before its last position.
    CrossesParagraph,
}

/// The cost in steps of one search through the paragraphs of a text. A text has at most 2^24 paragraphs: the search
/// halves them 24 times, and looks at one.
pub const SEARCH_STEPS: usize = 24 + 1;

/// Returns how many paragraphs end at or before the position.
pub(crate) fn count_up_to(ends: &[u32], position: usize) -> usize
    requires { Rises ends.now }
    ensures bound { result ≤ length ends.now }
    ensures below { AllWithin (λ end. end ≤ position) ends.now 0 result }
    ensures above { AllWithin (λ end. position < end) ends.now result (length ends.now) }
{
    ends.partition_point(|end| *end as usize <= position)
}

/// Returns the number of the paragraph (P1) that contains the line from `start` up to `end`. `ends` has the end of each
/// paragraph of the text. Takes the steps of one search if the line is a range of the text, and else none.
pub(crate) fn paragraph_of_line<L: Ledger>(
    text: &[Unit],
    ends: &[u32],
    start: usize,
    end: usize,
    steps: &mut Steps<L>,
) -> Result<usize, SpanFault>
    requires { AreAllParagraphEnds text.now ends.now }
    ensures line { MatchResult result (IsLineOfParagraph text.now ends.now start end) (RejectsSpan text.now start end) }
    ensures search { OnOk result (steps.new ≡ steps.old + SEARCH_STEPS) }
    ensures crossing { result ≡ Err SpanFault.CrossesParagraph → steps.new ≡ steps.old + SEARCH_STEPS }
    ensures no_search { (end ≤ start) ⊎ (length text.now < end) → steps.new ≡ steps.old }
    ensures at_most { steps.new ≤ steps.old + SEARCH_STEPS }
{
    if start >= end {
        return Err(SpanFault::NotForward);
    }
    if text.len() < end {
        return Err(SpanFault::BeyondText);
    }
    steps.add(SEARCH_STEPS);
    let paragraph = count_up_to(ends, start);
    if (ends[paragraph] as usize) < end {
        return Err(SpanFault::CrossesParagraph);
    }
    Ok(paragraph)
}

/// Resets levels of one line of a text alone to the level of its paragraph (L1): those of separators, and of the white
/// space and isolate formatting characters before a separator or at the line's end.
///
/// `text` has the units of the whole text with their own classes. `start` and `end` are positions of the text, and no
/// paragraph ends between them (P1). `level` is the level of their paragraph. `levels` has the resolved levels of the
/// positions from `start` up to `end`, and gets the levels that L1 gives them in the text, wherever other lines end.
/// Takes one step for each position of the line.
pub fn reset_line<L: Ledger>(
    text: &[Unit],
    start: usize,
    end: usize,
    level: ParaLevel,
    levels: &mut [Option<Level>],
    steps: &mut Steps<L>,
)
    requires forward { start < end }
    requires within { end ≤ length text.now }
    requires paragraph { IsWithinParagraph text.now start end }
    requires levels { length levels.old ≡ end - start }
    ensures levels { (breaks : List ℕ) (paras : List Para) (all : List (Option ℕ))
        → IsLineIn text.now breaks start end → HasParaLevel text.now paras start (level_of_para level)
        → length all ≡ length text.now → slice_range all start end ≡ levels.old
        → levels.new ≡ slice_range (levels_reset text.now breaks paras all) start end }
    ensures steps { steps.new ≡ steps.old + (end - start) }
{
    let line = &text[start..end];
    let breaks = Breaks::new(&[], line.len()).unwrap();
    reset_text(line, &breaks, &[level], levels, steps);
}

/// Does what `reset_line` does, for a text without segment separators. It looks only at the spaces at the end of the
/// line and at the position before them. Takes at most one step for each position.
fn reset_line_end<L: Ledger>(
    text: &[Unit],
    line: Range<usize>,
    level: ParaLevel,
    levels: &mut [Option<Level>],
    steps: &mut Steps<L>,
)
    requires none { HasNoSegments text.now }
    requires forward { line.start < line.end }
    requires within { line.end ≤ length text.now }
    requires small { line.end < 2 ^ 32 }
    requires paragraph { IsWithinParagraph text.now line.start line.end }
    requires levels { length levels.old ≡ line.end - line.start }
    ensures levels { (breaks : List ℕ) (paras : List Para) (all : List (Option ℕ))
        → IsLineIn text.now breaks line.start line.end
        → HasParaLevel text.now paras line.start (level_of_para level)
        → length all ≡ length text.now → slice_range all line.start line.end ≡ levels.old
        → levels.new ≡ slice_range (levels_reset text.now breaks paras all) line.start line.end }
    ensures at_least { steps.old ≤ steps.new }
    ensures at_most { steps.new ≤ steps.old + (line.end - line.start) }
{
    let units = &text[line.start..line.end];
    let breaks = Breaks::new(&[], units.len()).unwrap();
    let ends = [units.len() as u32];
    reset_unsegmented(units, &breaks, &ends, &[level], levels, steps);
}

/// What is known about the text of a line.
#[derive(Clone, Copy)]
pub(crate) struct KnownOfText {
    /// True only if each remaining position has the level of its paragraph.
    pub(crate) uniform: bool,
    /// False only if the text has no segment separator (L1).
    pub(crate) segmented: bool,
}

/// Does what `reset_line` does, unless each remaining position is known to have the level of its paragraph. L1 then
/// changes no level.
pub(crate) fn reset_line_unless_uniform<L: Ledger>(
    text: &[Unit],
    line: Range<usize>,
    level: ParaLevel,
    known: KnownOfText,
    levels: &mut [Option<Level>],
    steps: &mut Steps<L>,
)
    requires none { known.segmented ≡ false → HasNoSegments text.now }
    requires forward { line.start < line.end }
    requires within { line.end ≤ length text.now }
    requires small { line.end < 2 ^ 32 }
    requires paragraph { IsWithinParagraph text.now line.start line.end }
    requires levels { length levels.old ≡ line.end - line.start }
    ensures levels { known.uniform ≡ false → (breaks : List ℕ) (paras : List Para) (all : List (Option ℕ))
        → IsLineIn text.now breaks line.start line.end
        → HasParaLevel text.now paras line.start (level_of_para level)
        → length all ≡ length text.now → slice_range all line.start line.end ≡ levels.old
        → levels.new ≡ slice_range (levels_reset text.now breaks paras all) line.start line.end }
    ensures same { IsTrue known.uniform → levels.new ≡ levels.old }
    ensures at_least { steps.old ≤ steps.new }
    ensures at_most { steps.new ≤ steps.old + (line.end - line.start) }
    ensures if_uniform { IsTrue known.uniform → steps.new ≡ steps.old }
{
    if known.uniform {
        return;
    }
    if known.segmented {
        reset_line(text, line.start, line.end, level, levels, steps);
    } else {
        reset_line_end(text, line, level, levels, steps);
    }
}

/// Adds `start`, the position at which a line begins in its text, to each position of the line. Takes one step for
/// each.
fn move_to<L: Ledger>(start: usize, places: &mut [usize], steps: &mut Steps<L>)
    requires { All (λ p. start + p < 2 ^ 64) places.old }
    ensures moved { places.new ≡ map (λ p. start + p) places.old }
    ensures steps { steps.new ≡ steps.old + length places.old }
{
    steps.add(places.len());
    for place in places.iter_mut() {
        *place += start;
    }
}

/// Writes the order (L2) of a line that begins at `start` to the front of `order`, and returns its length. It reads
/// only the levels of the line. `uniform` is the level of all its positions, if that is known.
pub(crate) fn write_order_alone<L: Ledger>(
    start: usize,
    levels: &[Option<Level>],
    uniform: Option<ParaLevel>,
    runs: &mut [Run],
    order: &mut [usize],
    steps: &mut Steps<L>,
) -> usize
    requires uniform { IfSome uniform (λ level. IsAtOneLevel levels.now 0 (length levels.now) (level_of_para level)) }
    requires small { start + length levels.now < 2 ^ 32 }
    requires runs { length levels.now ≤ length runs.old }
    requires room { length levels.now ≤ length order.old }
    ensures order { take result order.new ≡ map (λ p. start + p) (line_order levels.now 0 (length levels.now)) }
    ensures count { result ≤ length levels.now }
    ensures at_least { steps.old + length levels.now ≤ steps.new }
    ensures at_most { steps.new ≤ steps.old + (order_steps + 1) * length levels.now }
    ensures if_uniform { IfSome uniform (λ _. steps.new ≤ steps.old + (uniform_order_steps + 1) * length levels.now) }
{
    let line = LineSpan {
        levels,
        start: 0,
        end: levels.len(),
    };
    let count = write_order(line, uniform, runs, order, steps);
    move_to(start, &mut order[..count], steps);
    count
}
