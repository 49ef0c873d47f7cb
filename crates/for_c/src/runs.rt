//! Visual runs, as C gets them.
ghost use Rattle.std.specs.Prelude.{◌≡◌, ◌≢◌, ◌≤◌, ◌<◌, ◌+◌, ℕ, IfOk, IfErr, length};
ghost use Rattle.std.specs.List.{All};
ghost use Rattle.lines.specs.Layouts.{line_at, view_of};
ghost use Rattle.for_c.specs.Runs.{IsVisualRun, RejectsRun, byte_at, run_for_c};

use crate::call_error::CallError;
use crate::columns::byte_of;
use lines::layout::Layout;
use units::level::Level;
use visual::runs::VisualRun;

/// A run of a line: positions of one level that are side by side.
#[repr(C)]
#[derive(Clone, Copy)]
pub struct BidiRun {
    /// Its least position.
    pub start: usize,
    /// The number of positions of the text that it spans, including removed ones between its own.
    pub length: usize,
    /// The number of places of the line that it takes.
    pub shown: usize,
    /// Its level; if it is odd, its positions are in falling order.
    pub level: u8,
}

/// Returns a run as C gets it.
pub fn run_for_c(run: VisualRun) -> BidiRun
    requires { run.start ≤ run.end }
    ensures { result ≡ run_for_c run }
{
    BidiRun {
        start: run.start,
        length: run.end - run.start,
        shown: run.shown,
        level: run.level.get(),
    }
}

/// Returns the first place after `from` whose position has another level, or the length of the order.
fn run_end(levels: &[Option<Level>], order: &[usize], from: usize) -> usize
    requires inside { All (λ p. p < length levels.now) order.now }
    requires some { from < length order.now }
    ensures after { from < result }
    ensures inside { result ≤ length order.now }
    ensures same { (i : ℕ) → from ≤ i → i < result
        → byte_at levels.now order.now i ≡ byte_at levels.now order.now from }
    ensures ends { result < length order.now → byte_at levels.now order.now result ≢ byte_at levels.now order.now from }
{
    let level = byte_of(levels[order[from]]);
    for end in from + 1..order.len() {
        if byte_of(levels[order[end]]) != level {
            return end;
        }
    }
    order.len()
}

/// Returns the run of the order that begins at a place.
fn run_from(levels: &[Option<Level>], order: &[usize], from: usize) -> BidiRun
    requires inside { All (λ p. p < length levels.now) order.now }
    requires some { from < length order.now }
    ensures run { IsVisualRun levels.now order.now from result }
    ensures inside { result.start + result.length ≤ length levels.now }
{
    let end = run_end(levels, order, from);
    let first = order[from];
    let last = order[end - 1];
    let start = first.min(last);
    BidiRun {
        start,
        length: first.max(last) - start + 1,
        shown: end - from,
        level: byte_of(levels[first]),
    }
}

/// Returns the run of the line with the number `k` that begins at a place. Fails with `NoLine` if there is no such
/// line, else with `NoPlace` if there is no such place.
pub fn run_of(layout: &Layout<'_>, k: usize, from: usize) -> Result<BidiRun, CallError>
    ensures run { IfOk result (IsVisualRun (view_of layout.now).levels (line_at (view_of layout.now) k).order from) }
    ensures inside { IfOk result (λ run. run.start + run.length ≤ length (view_of layout.now).levels) }
    ensures reason { IfErr result (RejectsRun (view_of layout.now) k from) }
{
    if layout.line_count() <= k {
        return Err(CallError::NoLine);
    }
    let order = layout.line(k).order;
    if order.len() <= from {
        return Err(CallError::NoPlace);
    }
    Ok(run_from(layout.levels(), order, from))
}
