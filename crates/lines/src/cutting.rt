//! The ends of the lines of a text: its breaks, and the ends of its paragraphs. A paragraph ends after its separator
//! (P1).
ghost use Rattle.std.specs.Prelude.{◌≡◌, ◌<◌, ◌≤◌, ◌+◌, ◌-◌, ◌^◌, List, length, slice_index};
ghost use Rattle.units.specs.declared.class.Class.{Class as BidiClass};
ghost use Rattle.lines.specs.Bounds.{bound_at, first_bound};
ghost use Rattle.lines.specs.LineBreaks.{AreBreaks};
ghost use Rattle.lines.specs.LineEnds.{AreLineEnds, BreaksArePassed, IsParagraphAt};

use crate::bounds::Bound;
use std::ops::Range;
use std::sync::ledger::Ledger;
use units::steps::Steps;

/// How far a text has been divided into lines.
#[derive(Clone, Copy)]
pub struct Cut {
    /// How many breaks have been passed. At the end of the text it is one more, for that end.
    pub passed: usize,
    /// How many lines have their bounds.
    pub lines: usize,
}

/// Returns the first break that has not been passed, or the end of the text if there is none.
fn next_break(at: &[usize], passed: usize, len: usize) -> usize
    ensures coming { passed < length at.now → result ≡ slice_index at.now passed }
    ensures last { length at.now ≤ passed → result ≡ len }
{
    if passed < at.len() { at[passed] } else { len }
}

/// Starts to divide a text into lines: writes the bound before its first line.
pub(crate) fn start_cut(bounds: &mut [Bound]) -> Cut
    requires { 0 < length bounds.old }
    ensures first { bound_at bounds.new 0 ≡ first_bound }
    ensures passed { result.passed ≡ 0 }
    ensures lines { result.lines ≡ 0 }
{
    bounds[0] = Bound {
        position: 0,
        order: 0,
    };
    Cut {
        passed: 0,
        lines: 0,
    }
}

/// Divides one more paragraph into lines, and writes their ends after the bounds of the lines before them. A break at
/// the end of the paragraph is passed with it, and makes no empty line. `at` has the breaks of the text, and `len` is
/// the length of the text.
pub(crate) fn cut_paragraph<L: Ledger>(
    at: &[usize],
    len: usize,
    paragraph: Range<usize>,
    cut: Cut,
    bounds: &mut [Bound],
    steps: &mut Steps<L>,
) -> Cut
    requires breaks { AreBreaks at.now len }
    requires some { paragraph.start < paragraph.end }
    requires within { paragraph.end ≤ len }
    requires small { paragraph.end < 2 ^ 32 }
    requires bounds { paragraph.end < length bounds.old }
    requires passed { BreaksArePassed at.now cut.passed paragraph.start }
    requires few_passed { cut.passed ≤ paragraph.start }
    requires few_lines { cut.lines ≤ paragraph.start }
    ensures ends { (own : List BidiClass) → length own ≡ len → IsParagraphAt own paragraph.start paragraph.end
        → AreLineEnds own at.now cut.lines paragraph.start bounds.old
        → AreLineEnds own at.now result.lines paragraph.end bounds.new }
    ensures passed { BreaksArePassed at.now result.passed paragraph.end }
    ensures few_passed { result.passed ≤ paragraph.end }
    ensures more_lines { cut.lines < result.lines }
    ensures few_lines { result.lines ≤ cut.lines + (paragraph.end - paragraph.start) }
    ensures steps { steps.new ≡ steps.old + (result.lines - cut.lines) }
{
    let start = paragraph.start;
    let end = paragraph.end;
    let mut passed = cut.passed;
    let mut lines = cut.lines;
    let mut position = start;
    while position < end {
        steps.tick();
        let limit = next_break(at, passed, len);
        position = limit.min(end);
        passed += usize::from(position == limit);
        lines += 1;
        bounds[lines] = Bound {
            position: position as u32,
            order: 0,
        };
    }
    Cut { passed, lines }
}
