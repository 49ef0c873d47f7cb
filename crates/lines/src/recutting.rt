//! The ends of the lines of a text that is rebroken.
ghost use Rattle.std.specs.Prelude.{◌≡◌, ◌<◌, ◌≤◌, ◌+◌, ◌*◌, ◌^◌, length};
ghost use Rattle.lines.specs.LineEnds.{AreAllLineEnds, AreAllParagraphEnds};
ghost use Rattle.lines.specs.StepBounds.{cutting_steps};

use crate::bounds::Bound;
use crate::breaks::Breaks;
use crate::cutting::{cut_paragraph, start_cut};
use std::sync::ledger::Ledger;
use units::bracket::Unit;
use units::steps::Steps;

/// Divides a text into lines, writes their ends to the front of `bounds`, and returns the number of lines. `para_ends`
/// has the ends of the paragraphs. Takes one step for each line and one for each paragraph.
pub(crate) fn cut_text<L: Ledger>(
    text: &[Unit],
    breaks: &Breaks,
    para_ends: &[u32],
    bounds: &mut [Bound],
    steps: &mut Steps<L>,
) -> usize
    requires len { breaks.now.len ≡ length text.now }
    requires small { length text.now < 2 ^ 32 }
    requires para_ends { AreAllParagraphEnds text.now para_ends.now }
    requires bounds { length text.now < length bounds.old }
    ensures ends { AreAllLineEnds text.now breaks.now.positions result bounds.new }
    ensures few_lines { result ≤ length text.now }
    ensures steps { steps.new ≡ steps.old + length para_ends.now + result }
    ensures at_most { steps.new ≤ steps.old + cutting_steps * length text.now }
{
    let at = breaks.positions();
    let mut cut = start_cut(bounds);
    let mut start = 0;
    for paragraph in 0..para_ends.len() {
        steps.tick();
        let end = para_ends[paragraph] as usize;
        cut = cut_paragraph(at, text.len(), start..end, cut, bounds, steps);
        start = end;
    }
    cut.lines
}
