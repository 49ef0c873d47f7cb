//! Texts in code units laid out, and broken into lines again.
ghost use Rattle.std.specs.Prelude.{◌≡◌, true};
ghost use Rattle.units.specs.Limits.{standard};
ghost use Rattle.decoding.specs.declared.fault.Faults.TheVariants.{Rejected, Replaced};
ghost use Rattle.sources.specs.Seen.{source_seen};
ghost use Rattle.sources.specs.Sources.{Utf16, Utf8};
ghost use Rattle.for_c.specs.LimitsGiven.{ByLimits};
ghost use Rattle.for_c.specs.RoomCalls.{SetsLines};
ghost use Rattle.for_c.specs.Statuses.{ReturnsStatus, ReturnsStatusNaming, place_named};
ghost use Rattle.bidi_c.specs.AtHandles.{AtRoom};
ghost use Rattle.bidi_c.specs.ContentsAt.{encoded_at, contents_at};
ghost use Rattle.bidi_c.specs.LayingOut.{AtLineOf, LaysOutText};

use crate::bidi_handle::BidiHandle;
use crate::laying_out::{lay_out, line_of, set_lines};
use decoding::fault::Faults;
use for_c::call_error::{CallError, status, status_and_place};
use for_c::limits::BidiLimits;
use sources::source::Source;
use units::limits::Limits;

// The calls below share this one instance of `lay_out`.
#[inline(never)]
fn lay_out_text(
    room: &mut BidiHandle,
    tables: &mut BidiHandle,
    source: Source<'_>,
    direction: u32,
    breaks: &[usize],
    limits: Limits,
) -> Result<(), CallError>
    ensures tables { contents_at tables.new ≡ contents_at tables.old }
    ensures room { LaysOutText (source_seen source.entry) limits direction breaks.now (contents_at tables.old)
        (contents_at room.old) (contents_at room.new) result }
{
    lay_out(room, tables, source, direction, breaks, limits)
}

fn lay_out_text_with(
    room: &mut BidiHandle,
    tables: &mut BidiHandle,
    source: Source<'_>,
    direction: u32,
    breaks: &[usize],
    limits: BidiLimits,
) -> Result<(), CallError>
    ensures tables { contents_at tables.new ≡ contents_at tables.old }
    ensures room { ByLimits limits (λ limits. LaysOutText (source_seen source.entry) limits direction breaks.now
        (contents_at tables.old)) (contents_at room.old) (contents_at room.new) result }
{
    let allowed = limits.allowed()?;
    lay_out_text(room, tables, source, direction, breaks, allowed)
}

/// Lays out a text in UTF-8 in the room, with the tables and the standard limits, under the direction with this number,
/// broken into lines at offsets of its bytes (P1 to L2). It takes no memory. If it fails, the room is unchanged, and
/// `place` names the place: the offset of the first byte that isn't part of a character, or the index of a break.
#[unsafe(no_mangle)]
pub extern "C" fn bidi_lay_out_utf8(
    room: &mut BidiHandle,
    tables: &mut BidiHandle,
    text: &[u8],
    direction: u32,
    breaks: &[usize],
    place: &mut u64,
) -> u32
    ensures tables { contents_at tables.new ≡ contents_at tables.old }
    ensures room { ReturnsStatusNaming place_named (LaysOutText (Utf8 text.now Rejected) standard direction breaks.now
        (contents_at tables.old) (contents_at room.old) (contents_at room.new)) result place.old place.new }
{
    let source = Source::Utf8(text, Faults::Rejected);
    let done = lay_out_text(room, tables, source, direction, breaks, Limits::standard());
    status_and_place(done, place)
}

/// Lays out a text as `bidi_lay_out_utf8` does, with these limits in place of the standard ones.
#[unsafe(no_mangle)]
pub extern "C" fn bidi_lay_out_utf8_with(
    room: &mut BidiHandle,
    tables: &mut BidiHandle,
    text: &[u8],
    direction: u32,
    breaks: &[usize],
    limits: BidiLimits,
    place: &mut u64,
) -> u32
    ensures tables { contents_at tables.new ≡ contents_at tables.old }
    ensures room { ReturnsStatusNaming place_named (ByLimits limits (λ limits. LaysOutText (Utf8 text.now Rejected)
        limits direction breaks.now (contents_at tables.old)) (contents_at room.old) (contents_at room.new))
        result place.old place.new }
{
    let source = Source::Utf8(text, Faults::Rejected);
    let done = lay_out_text_with(room, tables, source, direction, breaks, limits);
    status_and_place(done, place)
}

/// Lays out a text in UTF-8 as `bidi_lay_out_utf8` does, but reads each maximal subpart of ill-formed UTF-8 as U+FFFD:
/// all bytes there that could begin a character, or else one byte. A break must not be inside such a part.
#[unsafe(no_mangle)]
pub extern "C" fn bidi_lay_out_utf8_lossy(
    room: &mut BidiHandle,
    tables: &mut BidiHandle,
    text: &[u8],
    direction: u32,
    breaks: &[usize],
    place: &mut u64,
) -> u32
    ensures tables { contents_at tables.new ≡ contents_at tables.old }
    ensures room { ReturnsStatusNaming place_named (LaysOutText (Utf8 text.now Replaced) standard direction breaks.now
        (contents_at tables.old) (contents_at room.old) (contents_at room.new)) result place.old place.new }
{
    let source = Source::Utf8(text, Faults::Replaced);
    let done = lay_out_text(room, tables, source, direction, breaks, Limits::standard());
    status_and_place(done, place)
}

/// Lays out a text as `bidi_lay_out_utf8_lossy` does, with these limits in place of the standard ones.
#[unsafe(no_mangle)]
pub extern "C" fn bidi_lay_out_utf8_lossy_with(
    room: &mut BidiHandle,
    tables: &mut BidiHandle,
    text: &[u8],
    direction: u32,
    breaks: &[usize],
    limits: BidiLimits,
    place: &mut u64,
) -> u32
    ensures tables { contents_at tables.new ≡ contents_at tables.old }
    ensures room { ReturnsStatusNaming place_named (ByLimits limits (λ limits. LaysOutText (Utf8 text.now Replaced)
        limits direction breaks.now (contents_at tables.old)) (contents_at room.old) (contents_at room.new))
        result place.old place.new }
{
    let source = Source::Utf8(text, Faults::Replaced);
    let done = lay_out_text_with(room, tables, source, direction, breaks, limits);
    status_and_place(done, place)
}

/// Lays out a text in UTF-16 as `bidi_lay_out_utf8` does one in UTF-8. Offsets count its code units of 16 bits. Its
/// first fault is the first lone surrogate.
#[unsafe(no_mangle)]
pub extern "C" fn bidi_lay_out_utf16(
    room: &mut BidiHandle,
    tables: &mut BidiHandle,
    text: &[u16],
    direction: u32,
    breaks: &[usize],
    place: &mut u64,
) -> u32
    ensures tables { contents_at tables.new ≡ contents_at tables.old }
    ensures room { ReturnsStatusNaming place_named (LaysOutText (Utf16 text.now Rejected) standard direction breaks.now
        (contents_at tables.old) (contents_at room.old) (contents_at room.new)) result place.old place.new }
{
    let source = Source::Utf16(text, Faults::Rejected);
    let done = lay_out_text(room, tables, source, direction, breaks, Limits::standard());
    status_and_place(done, place)
}

/// Lays out a text as `bidi_lay_out_utf16` does, with these limits in place of the standard ones.
#[unsafe(no_mangle)]
pub extern "C" fn bidi_lay_out_utf16_with(
    room: &mut BidiHandle,
    tables: &mut BidiHandle,
    text: &[u16],
    direction: u32,
    breaks: &[usize],
    limits: BidiLimits,
    place: &mut u64,
) -> u32
    ensures tables { contents_at tables.new ≡ contents_at tables.old }
    ensures room { ReturnsStatusNaming place_named (ByLimits limits (λ limits. LaysOutText (Utf16 text.now Rejected)
        limits direction breaks.now (contents_at tables.old)) (contents_at room.old) (contents_at room.new))
        result place.old place.new }
{
    let source = Source::Utf16(text, Faults::Rejected);
    let done = lay_out_text_with(room, tables, source, direction, breaks, limits);
    status_and_place(done, place)
}

/// Lays out a text in UTF-16 as `bidi_lay_out_utf16` does, but reads each lone surrogate as U+FFFD.
#[unsafe(no_mangle)]
pub extern "C" fn bidi_lay_out_utf16_lossy(
    room: &mut BidiHandle,
    tables: &mut BidiHandle,
    text: &[u16],
    direction: u32,
    breaks: &[usize],
    place: &mut u64,
) -> u32
    ensures tables { contents_at tables.new ≡ contents_at tables.old }
    ensures room { ReturnsStatusNaming place_named (LaysOutText (Utf16 text.now Replaced) standard direction breaks.now
        (contents_at tables.old) (contents_at room.old) (contents_at room.new)) result place.old place.new }
{
    let source = Source::Utf16(text, Faults::Replaced);
    let done = lay_out_text(room, tables, source, direction, breaks, Limits::standard());
    status_and_place(done, place)
}

/// Lays out a text as `bidi_lay_out_utf16_lossy` does, with these limits in place of the standard ones.
#[unsafe(no_mangle)]
pub extern "C" fn bidi_lay_out_utf16_lossy_with(
    room: &mut BidiHandle,
    tables: &mut BidiHandle,
    text: &[u16],
    direction: u32,
    breaks: &[usize],
    limits: BidiLimits,
    place: &mut u64,
) -> u32
    ensures tables { contents_at tables.new ≡ contents_at tables.old }
    ensures room { ReturnsStatusNaming place_named (ByLimits limits (λ limits. LaysOutText (Utf16 text.now Replaced)
        limits direction breaks.now (contents_at tables.old)) (contents_at room.old) (contents_at room.new))
        result place.old place.new }
{
    let source = Source::Utf16(text, Faults::Replaced);
    let done = lay_out_text_with(room, tables, source, direction, breaks, limits);
    status_and_place(done, place)
}

/// Breaks the text in code units of the room into lines again (L1, L2), at offsets. Its levels before L1, its direction
/// and its limits are unchanged. If it fails, the room is unchanged, and `place` names the break.
#[unsafe(no_mangle)]
pub extern "C" fn bidi_encoded_set_lines(
    room: &mut BidiHandle,
    breaks: &[usize],
    place: &mut u64,
) -> u32
    ensures { ReturnsStatusNaming place_named (AtRoom true (SetsLines breaks.now) (contents_at room.old)
        (contents_at room.new))
        result place.old place.new }
{
    status_and_place(set_lines(room, true, breaks), place)
}

/// Lays out one line alone of the text in code units of the room, as `bidi_line_of` does, from the offset `start` up to
/// `end`. Writes the level of each code unit and the offsets of the shown characters, from left to right, and to
/// `shown` the number of these offsets. Fails with `BIDI_BREAK_INSIDE` if an end of the line is inside a character. If
/// it fails, nothing is written.
#[unsafe(no_mangle)]
pub extern "C" fn bidi_encoded_line_of(
    room: &mut BidiHandle,
    start: usize,
    end: usize,
    levels: &mut [u8],
    order: &mut [usize],
    shown: &mut usize,
) -> u32
    ensures room { contents_at room.new ≡ contents_at room.old }
    ensures line { ReturnsStatus (AtLineOf (encoded_at room.old) start end levels.old levels.new order.old order.new
        shown.old shown.new) result }
{
    status(line_of(room, true, start..end, levels, order, shown))
}
