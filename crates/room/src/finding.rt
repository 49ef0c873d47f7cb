//! Turns breaks at offsets into breaks at characters.
ghost use Rattle.std.specs.Prelude.{◌≡◌, ◌<◌, ◌≤◌, ◌-◌, length, slice_index, take, IfErr, OnOk};
ghost use Rattle.lines.specs.LineBreaks.{AreBreaks};
ghost use Rattle.decoding.specs.Starts.{AreIndicesOf, AreOffsets};
ghost use Rattle.room.specs.Boundaries.{RejectsBreaks};

use crate::fault::LayoutFault;
use decoding::indices::write_indices;
use lines::breaks::Breaks;

/// Writes the index of the character that begins at each break to the front of the column. `starts` has the offsets of
/// all characters, and of the text's end.
pub(crate) fn find_indices(
    starts: &[u32],
    breaks: &[usize],
    indices: &mut [usize],
) -> Result<(), LayoutFault>
    requires some { 0 < length starts.now }
    requires starts { AreOffsets (length starts.now - 1) starts.now }
    requires fits { slice_index starts.now (length starts.now - 1) ≤ length indices.old }
    ensures len { length indices.new ≡ length indices.old }
    ensures rejected { let count = length starts.now - 1 in
        IfErr result (RejectsBreaks (slice_index starts.now) count (slice_index starts.now count) breaks.now) }
    ensures rising { OnOk result (AreBreaks breaks.now (slice_index starts.now (length starts.now - 1))) }
    ensures few { OnOk result (length breaks.now ≤ length indices.old) }
    ensures found { OnOk result (AreIndicesOf starts.now breaks.now (take (length breaks.now) indices.new)) }
    ensures characters { OnOk result (AreBreaks (take (length breaks.now) indices.new) (length starts.now - 1)) }
{
    let len = starts[starts.len() - 1] as usize;
    if let Err(fault) = Breaks::new(breaks, len) {
        return Err(LayoutFault::Break(fault));
    }
    match write_indices(starts, breaks, indices) {
        Ok(()) => Ok(()),
        Err(index) => Err(LayoutFault::BreakInside(index)),
    }
}
