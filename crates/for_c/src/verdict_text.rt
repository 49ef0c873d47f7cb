//! The line that states a verdict.
ghost use Rattle.std.specs.Prelude.{◌≤◌, length, IfOk, IfErr};
ghost use Rattle.for_c.specs.VerdictLines.{IsVerdictLine, RejectsVerdictNumbers, WritesVerdictLine};

use crate::call_error::CallError;
use crate::verdict::BidiVerdict;
use bidtests::verdict_line::print_verdict;
use std::alloc::Global;

/// Returns the line that states the verdict of these numbers. Fails with `NoVerdict` exactly if they encode none, and
/// else with `Memory` if memory runs out.
fn verdict_line(alloc: Global, numbers: &BidiVerdict) -> Result<Vec<u8>, CallError>
    ensures line { IfOk result (λ line. IsVerdictLine numbers.now line.items) }
    ensures short { IfOk result (λ line. length line.items ≤ 72) }
    ensures reason { IfErr result (RejectsVerdictNumbers numbers.now) }
{
    let Some(verdict) = numbers.verdict() else {
        return Err(CallError::NoVerdict);
    };
    let mut line = Vec::new(alloc);
    match print_verdict(&mut line, &verdict) {
        Ok(()) => Ok(line),
        Err(_) => Err(CallError::Memory),
    }
}

/// Writes the line that states the verdict of these numbers, with its LF, to the front of `out`, and its number of
/// bytes to `line_length`.
///
/// Fails with `NoVerdict` exactly if the numbers encode no verdict, and else with `Memory` if memory runs out; then
/// both are unchanged. Else fails with `TooSmall` if `out` has fewer bytes; then only `line_length` is written.
pub fn write_verdict_line(
    alloc: Global,
    numbers: &BidiVerdict,
    out: &mut [u8],
    line_length: &mut usize,
) -> Result<(), CallError>
    ensures { WritesVerdictLine numbers.now out.old out.new line_length.old line_length.new result }
{
    let line = verdict_line(alloc, numbers)?;
    *line_length = line.len();
    if out.len() < line.len() {
        return Err(CallError::TooSmall);
    }
    out[..line.len()].copy_from_slice(&line);
    Ok(())
}
