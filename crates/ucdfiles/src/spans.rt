// Spans in order.
ghost use Rattle.std.specs.Prelude.{◌≡◌, ◌<◌, ◌≤◌, ◌≢◌, ℕ, length, None, IfErr, OnOk};
ghost use Rattle.std.specs.List.{find, AllWithin};
ghost use Rattle.ucdfiles.specs.Spans.{holds, IsRising, Adds, data_fault};
ghost use Rattle.ucdfiles.specs.Faults.{FailsAt};

use crate::fault::{Fault, TableFault, at};
use crate::span::Span;

/// The greatest number of data lines of a file.
const MOST_DATA: usize = 65_536;

/// The greatest number of default lines of a file.
pub const MOST_DEFAULTS: usize = 1_024;

// Returns how many of the spans, in order, end before the code point.
fn ended_before<V>(spans: &[Span<V>], code: u32) -> usize
    requires { IsRising spans.now }
    ensures bound { result ≤ length spans.now }
    ensures below { AllWithin (λ s. s.last < code) spans.now 0 result }
    ensures above { AllWithin (λ s. code ≤ s.last) spans.now result (length spans.now) }
{
    spans.partition_point(|span| span.last < code)
}

/// Adds one more span, in order. `taken` is the fault if an earlier span has one of its code points.
pub fn add_span<V: Copy>(
    spans: &mut Vec<Span<V>>,
    span: Span<V>,
    taken: Fault,
    line: u64,
) -> Result<(), TableFault>
    requires rising { IsRising spans.old.items }
    requires span { span.first ≤ span.last }
    ensures rising { IsRising spans.new.items }
    ensures ok { OnOk result (Adds spans.old.items span spans.new.items
        × (data_fault taken spans.old.items span ≡ None)) }
    ensures err { IfErr result (FailsAt line (data_fault taken spans.old.items span)) }
    ensures not_read { IfErr result (λ e. e ≢ TableFault.Read) }
{
    if spans.len() >= MOST_DATA {
        return Err(TableFault::TooMany(line));
    }
    let ended = ended_before(spans, span.first);
    if ended < spans.len() && spans[ended].first <= span.last {
        return Err(at(taken, line));
    }
    match spans.insert(ended, span) {
        Ok(()) => Ok(()),
        Err(_) => Err(TableFault::Memory),
    }
}

// Returns how many of the spans, in order, begin at or before the code point.
fn begun_by<V>(spans: &[Span<V>], code: u32) -> usize
    requires { IsRising spans.now }
    ensures bound { result ≤ length spans.now }
    ensures above { AllWithin (λ s. code < s.first) spans.now result (length spans.now) }
{
    spans.partition_point(|span| span.first <= code)
}

/// Returns the spans that do not end before the code point.
pub fn ending_from<V>(spans: &[Span<V>], code: u32) -> &[Span<V>]
    requires { IsRising spans.now }
    ensures rising { IsRising result.now }
    ensures finds { (c : ℕ) → code ≤ c → find (holds c) result.now ≡ find (holds c) spans.now }
{
    let ended = ended_before(spans, code);
    &spans[ended..]
}

/// Returns the spans that do not begin after the code point.
pub fn beginning_by<V>(spans: &[Span<V>], code: u32) -> &[Span<V>]
    requires { IsRising spans.now }
    ensures rising { IsRising result.now }
    ensures finds { (c : ℕ) → c ≤ code → find (holds c) result.now ≡ find (holds c) spans.now }
{
    let begun = begun_by(spans, code);
    &spans[..begun]
}
