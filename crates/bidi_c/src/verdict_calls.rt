//! The lines that state verdicts.
ghost use Rattle.for_c.specs.Statuses.{ReturnsStatus};
ghost use Rattle.for_c.specs.VerdictLines.{WritesVerdictLine};

use for_c::call_error::status;
use for_c::verdict::BidiVerdict;
use for_c::verdict_text::write_verdict_line;
use std::alloc::Global;

/// Writes the line that states a verdict, with its LF, to the front of `text`, if it fits there, and the number of its
/// bytes to `line_length`. Fails with `NoVerdict` exactly if the numbers encode no verdict, and else with `Memory` if
/// memory runs out; then both are unchanged. Else fails with `TooSmall` if it does not fit; then `text` is unchanged.
#[unsafe(no_mangle)]
pub extern "C" fn bidi_verdict_text(
    alloc: Global,
    verdict: &BidiVerdict,
    text: &mut [u8],
    line_length: &mut usize,
) -> u32
    ensures { ReturnsStatus (WritesVerdictLine verdict.now text.old text.new line_length.old line_length.new)
        result }
{
    status(write_verdict_line(alloc, verdict, text, line_length))
}
