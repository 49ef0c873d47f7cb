//! The units of a text in code units, and the offsets of its characters.
ghost use Rattle.std.specs.Prelude.{◌≡◌, ◌<◌, ◌≤◌, ◌^◌, length, take, IfErr, IfOk, IfSome, OnOk};
ghost use Rattle.units.specs.Classes.{classes_of};
ghost use Rattle.paragraph.specs.ClassSets.{IsSetOf};
ghost use Rattle.decoding.specs.Decoded.{AreDecoded};
ghost use Rattle.decoding.specs.Offsets.{code_units};
ghost use Rattle.sources.specs.Seen.{source_seen};
ghost use Rattle.sources.specs.Sources.{IsEncoded, IsFirstFault, IsWellFormed, size_of, text_in};

use decoding::decoded::Decoded;
use decoding::fault::Faults;
use decoding::lossy::decode_utf8_lossy;
use decoding::utf8::look_up_utf8;
use decoding::utf16::look_up_utf16;
use sources::source::Source;
use ucdfiles::tables::Tables;
use units::bracket::Unit;

/// Writes the units and the offsets of a text in code units, and after the offsets that of the text's end. Returns how
/// many characters there are, and the set of their classes if it is known. Fails with the offset of the first fault.
pub(crate) fn decode(
    source: Source<'_>,
    tables: &Tables,
    units: &mut [Unit],
    starts: &mut [u32],
) -> Result<Decoded, usize>
    requires encoded { IsEncoded (source_seen source) }
    requires units { size_of (source_seen source) ≤ length units.old }
    requires starts { size_of (source_seen source) < length starts.old }
    requires small { size_of (source_seen source) < 2 ^ 32 }
    ensures units_len { length units.new ≡ length units.old }
    ensures starts_len { length starts.new ≡ length starts.old }
    ensures fault { IfErr result (IsFirstFault (source_seen source.entry)) }
    ensures well_formed { OnOk result (IsWellFormed (source_seen source.entry)) }
    ensures decoded { IfOk result (λ decoded.
        AreDecoded tables.now (text_in (source_seen source.entry)) decoded.characters units.new starts.new) }
    ensures classes { IfOk result (λ decoded. IfSome decoded.classes
        (λ set. IsSetOf set (classes_of (take decoded.characters units.new)))) }
    ensures whole { OnOk result (code_units (text_in (source_seen source.entry)) ≡ size_of (source_seen source.entry)) }
{
    match source {
        Source::Utf8(bytes, faults) => match faults {
            Faults::Rejected => look_up_utf8(bytes, tables, units, starts),
            Faults::Replaced => Ok(Decoded {
                characters: decode_utf8_lossy(bytes, tables, units, starts),
                classes: None,
            }),
        },
        Source::Utf16(text, faults) => look_up_utf16(text, faults, tables, units, starts),
        Source::Codes(_) | Source::Classes(_) | Source::Units(_) => unreachable!(),
    }
}
