// The breaks of lines with a fixed number of positions.
ghost use Rattle.std.specs.Prelude.{◌≡◌, ◌<◌, ◌-◌, ◌%◌, ◌==◌, ◌&&◌, not, nat_lt, length, [], ◌∷◌, ◌++◌, IfOk, OnOk};
ghost use Rattle.units.specs.Classes.{is_separator};
ghost use Rattle.lines.specs.LineBreaks.{AreBreaks};
ghost use Rattle.printing.specs.Columns.{column_breaks_of};
ghost use Rattle.printing.specs.PrintedTexts.{breaks_of};

use std::alloc::Global;
use std::num::NonZeroU16;
use units::bracket::Unit;
use units::class::Class;
use units::memory::Memory;

/// Returns whether a line breaks at the position `p`, with this class, of the paragraph that begins at `start`.
fn breaks_at(class: Class, start: usize, p: usize, columns: usize) -> bool
    requires { 0 < columns }
    ensures { result ≡ (not (is_separator class) && (nat_lt start p && ((p - start) % columns == 0))) }
{
    !class.is_separator() && start < p && (p - start) % columns == 0
}

/// Adds a break after the others. Fails if memory runs out.
fn add(breaks: &mut Vec<usize>, p: usize) -> Result<(), Memory>
    ensures { OnOk result (breaks.new.items ≡ breaks.old.items ++ p ∷ []) }
{
    match breaks.push(p) {
        Ok(()) => Ok(()),
        Err(_) => Err(Memory),
    }
}

/// Returns the breaks at every `columns` positions of each paragraph, counted from its start, but none before a
/// paragraph separator. They are rising positions of the text, as `Breaks::new` takes them. Fails if memory runs out.
fn column_breaks(alloc: Global, text: &[Unit], columns: NonZeroU16) -> Result<Vec<usize>, Memory>
    ensures breaks { IfOk result (λ breaks. breaks.items ≡ column_breaks_of text.now columns.value) }
    ensures are { IfOk result (λ breaks. AreBreaks breaks.items (length text.now)) }
{
    let columns = usize::from(columns.get());
    let mut breaks = Vec::new(alloc);
    let mut start = 0;
    for (p, unit) in text.iter().enumerate() {
        if breaks_at(unit.class, start, p, columns) {
            add(&mut breaks, p)?;
        }
        if unit.class.is_separator() {
            start = p + 1;
        }
    }
    Ok(breaks)
}

/// Returns the breaks at columns if `columns` is some, or else no breaks. Fails if memory runs out.
pub fn breaks_of(
    alloc: Global,
    text: &[Unit],
    columns: Option<NonZeroU16>,
) -> Result<Vec<usize>, Memory>
    ensures breaks { IfOk result (λ breaks. breaks.items ≡ breaks_of text.now columns) }
    ensures are { IfOk result (λ breaks. AreBreaks breaks.items (length text.now)) }
{
    match columns {
        Some(columns) => column_breaks(alloc, text, columns),
        None => Ok(Vec::new(alloc)),
    }
}
