//! The characters of a text in UTF-8 that may be ill-formed, with U+FFFD for each ill-formed part.
ghost use Rattle.std.specs.Prelude.{◌≡◌, ◌<◌, ◌≤◌, ◌+◌, ◌^◌, ◌++◌, List, drop, length};
ghost use Rattle.decoding.specs.Decoded.{AreDecoded, IsReadTo, IsWritten};
ghost use Rattle.decoding.specs.LossyTexts.{first_chunk, replaced, utf8_lossy_text};
ghost use Rattle.decoding.specs.Offsets.{Spelled, code_units};

use crate::reached::Reached;
use crate::utf8::fill_str;
use ucdfiles::tables::Tables;
use units::bracket::Unit;

/// Appends the unit and the offset of U+FFFD, which replaces `width` ill-formed bytes, to the columns. Writes nothing
/// if `width` is 0.
fn fill_replaced(
    width: usize,
    tables: &Tables,
    before: Reached,
    units: &mut [Unit],
    starts: &mut [u32],
) -> Reached
    requires units { before.characters + width ≤ length units.old }
    requires starts { before.characters + width ≤ length starts.old }
    requires small { before.code_units + width < 2 ^ 32 }
    ensures units_len { length units.new ≡ length units.old }
    ensures starts_len { length starts.new ≡ length starts.old }
    ensures characters { result.characters ≤ before.characters + width }
    ensures code_units { result.code_units ≡ before.code_units + width }
    ensures written { (front : List Spelled) → IsWritten tables.now front before units.old starts.old
        → IsWritten tables.now (front ++ replaced width) result units.new starts.new }
{
    if width == 0 {
        return before;
    }
    units[before.characters] = tables.units().unit(char::REPLACEMENT_CHARACTER);
    starts[before.characters] = before.code_units as u32;
    Reached {
        characters: before.characters + 1,
        code_units: before.code_units + width,
    }
}

/// Continues reading at `before`: writes the characters up to the next ill-formed bytes, and U+FFFD for these bytes.
fn fill_chunk(
    bytes: &[u8],
    tables: &Tables,
    before: Reached,
    units: &mut [Unit],
    starts: &mut [u32],
) -> Reached
    requires remaining { before.code_units < length bytes.now }
    requires few { before.characters ≤ before.code_units }
    requires units { length bytes.now ≤ length units.old }
    requires starts { length bytes.now < length starts.old }
    requires small { length bytes.now < 2 ^ 32 }
    ensures units_len { length units.new ≡ length units.old }
    ensures starts_len { length starts.new ≡ length starts.old }
    ensures more { before.code_units < result.code_units }
    ensures inside { result.code_units ≤ length bytes.now }
    ensures few { result.characters ≤ result.code_units }
    ensures read { (front : List Spelled) → IsReadTo tables.now bytes.now front before units.old starts.old
        → IsReadTo tables.now bytes.now (front ++ first_chunk (drop before.code_units bytes.now)) result units.new
        starts.new }
{
    let Some(chunk) = bytes[before.code_units..].utf8_chunks().next() else {
        return before;
    };
    let reached = fill_str(chunk.valid(), tables, before, units, starts);
    fill_replaced(chunk.invalid().len(), tables, reached, units, starts)
}

/// Writes the units and the offsets of a text, with U+FFFD for each maximal subpart that is ill-formed. After the
/// offsets, writes the offset of the text's end. Returns how many characters there are.
pub fn decode_utf8_lossy(
    bytes: &[u8],
    tables: &Tables,
    units: &mut [Unit],
    starts: &mut [u32],
) -> usize
    requires units { length bytes.now ≤ length units.old }
    requires starts { length bytes.now < length starts.old }
    requires small { length bytes.now < 2 ^ 32 }
    ensures units_len { length units.new ≡ length units.old }
    ensures starts_len { length starts.new ≡ length starts.old }
    ensures decoded { AreDecoded tables.now (utf8_lossy_text bytes.now) result units.new starts.new }
    ensures whole { code_units (utf8_lossy_text bytes.now) ≡ length bytes.now }
{
    let mut reached = Reached {
        characters: 0,
        code_units: 0,
    };
    while reached.code_units < bytes.len() {
        reached = fill_chunk(bytes, tables, reached, units, starts);
    }
    starts[reached.characters] = reached.code_units as u32;
    reached.characters
}
