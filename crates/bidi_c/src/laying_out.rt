//! Texts of code points and classes laid out, and broken into lines again.
ghost use Rattle.std.specs.Prelude.{◌≡◌, false};
ghost use Rattle.units.specs.Limits.{standard};
ghost use Rattle.sources.specs.Seen.{source_seen};
ghost use Rattle.sources.specs.Sources.{Classes, Codes};
ghost use Rattle.for_c.specs.LimitsGiven.{ByLimits};
ghost use Rattle.for_c.specs.RoomCalls.{SetsLines};
ghost use Rattle.for_c.specs.Statuses.{ReturnsStatus, ReturnsStatusNaming, place_named};
ghost use Rattle.bidi_c.specs.AtHandles.{AtRoom};
ghost use Rattle.bidi_c.specs.ContentsAt.{contents_at};
ghost use Rattle.bidi_c.specs.ContentsIn.{room_for};
ghost use Rattle.bidi_c.specs.LayingOut.{AtLineOf, LaysOutText, LaysOutWithoutTables, NeedsNoTables};

use crate::bidi_handle::BidiHandle;
use for_c::call_error::{CallError, status, status_and_place};
use for_c::limits::BidiLimits;
use sources::source::Source;
use std::ops::Range;
use units::limits::Limits;

// Inlined, a call on a short text takes fewer instructions.
#[inline(always)]
pub(crate) fn lay_out(
    room: &mut BidiHandle,
    tables: &mut BidiHandle,
    source: Source<'_>,
    direction: u32,
    breaks: &[usize],
    limits: Limits,
) -> Result<(), CallError>
    ensures tables { contents_at tables.new ≡ contents_at tables.old }
    ensures room { LaysOutText (source_seen source.entry) limits direction breaks.now (contents_at tables.old)
        (contents_at room.old) (contents_at room.new) result }
{
    let Some(contents) = room.contents() else {
        return Err(CallError::NoRoom);
    };
    let Some(by) = tables.contents() else {
        return Err(CallError::NoTables);
    };
    contents.lay_out(by, source, direction, breaks, limits)
}

/// Lays out a text of code points in the room, with the tables and the standard limits, under the direction with this
/// number, broken into lines (P1 to L2). It takes no memory. If it fails, the room is unchanged, and `place` names the
/// place.
#[unsafe(no_mangle)]
pub extern "C" fn bidi_lay_out(
    room: &mut BidiHandle,
    tables: &mut BidiHandle,
    codes: &[u32],
    direction: u32,
    breaks: &[usize],
    place: &mut u64,
) -> u32
    ensures tables { contents_at tables.new ≡ contents_at tables.old }
    ensures room { ReturnsStatusNaming place_named (LaysOutText (Codes codes.now) standard direction breaks.now
        (contents_at tables.old) (contents_at room.old) (contents_at room.new)) result place.old place.new }
{
    let source = Source::Codes(codes);
    let done = lay_out(room, tables, source, direction, breaks, Limits::standard());
    status_and_place(done, place)
}

/// Lays out a text of code points as `bidi_lay_out` does, with these limits in place of the standard ones: how deep
/// explicit levels go (BD2), and how many brackets can be open at once (BD16).
#[unsafe(no_mangle)]
#[tactic(auto, using(crate::proofs::LimitsRejected::limits_rejected_named))]
pub extern "C" fn bidi_lay_out_with(
    room: &mut BidiHandle,
    tables: &mut BidiHandle,
    codes: &[u32],
    direction: u32,
    breaks: &[usize],
    limits: BidiLimits,
    place: &mut u64,
) -> u32
    ensures tables { contents_at tables.new ≡ contents_at tables.old }
    ensures room { ReturnsStatusNaming place_named (ByLimits limits (λ limits. LaysOutText (Codes codes.now)
        limits direction breaks.now (contents_at tables.old)) (contents_at room.old) (contents_at room.new))
        result place.old place.new }
{
    let source = Source::Codes(codes);
    match limits.allowed() {
        Ok(limits) => {
            let done = lay_out(room, tables, source, direction, breaks, limits);
            status_and_place(done, place)
        }
        Err(error) => status_and_place(Err(error), place),
    }
}

#[tactic(auto, using(crate::proofs::Needed::no_room_of_kind))]
pub(crate) fn lay_out_without_tables(
    room: &mut BidiHandle,
    source: Source<'_>,
    direction: u32,
    breaks: &[usize],
    limits: Limits,
) -> Result<(), CallError>
    requires { NeedsNoTables (source_seen source) }
    ensures { LaysOutWithoutTables (source_seen source.entry) limits direction breaks.now (contents_at room.old)
        (contents_at room.new) result }
{
    match room.contents() {
        Some(contents) => contents.lay_out_without_tables(source, direction, breaks, limits),
        None => Err(CallError::NoRoom),
    }
}

/// Lays out a text of classes, given as numbers, in the room, as `bidi_lay_out` does one of code points. It has no
/// brackets.
#[unsafe(no_mangle)]
pub extern "C" fn bidi_lay_out_classes(
    room: &mut BidiHandle,
    numbers: &[u8],
    direction: u32,
    breaks: &[usize],
    place: &mut u64,
) -> u32
    ensures { ReturnsStatusNaming place_named (LaysOutWithoutTables (Classes numbers.now) standard direction breaks.now
        (contents_at room.old) (contents_at room.new)) result place.old place.new }
{
    let source = Source::Classes(numbers);
    let done = lay_out_without_tables(room, source, direction, breaks, Limits::standard());
    status_and_place(done, place)
}

/// Lays out a text of classes as `bidi_lay_out_classes` does, with these limits in place of the standard ones.
#[unsafe(no_mangle)]
#[tactic(auto, using(crate::proofs::LimitsRejected::limits_rejected_named))]
pub extern "C" fn bidi_lay_out_classes_with(
    room: &mut BidiHandle,
    numbers: &[u8],
    direction: u32,
    breaks: &[usize],
    limits: BidiLimits,
    place: &mut u64,
) -> u32
    ensures { ReturnsStatusNaming place_named (ByLimits limits (λ limits. LaysOutWithoutTables (Classes numbers.now)
        limits direction breaks.now) (contents_at room.old) (contents_at room.new)) result place.old place.new }
{
    let source = Source::Classes(numbers);
    match limits.allowed() {
        Ok(limits) => {
            let done = lay_out_without_tables(room, source, direction, breaks, limits);
            status_and_place(done, place)
        }
        Err(error) => status_and_place(Err(error), place),
    }
}

#[tactic(auto, using(crate::proofs::Needed::no_room_of_kind))]
pub(crate) fn set_lines(
    room: &mut BidiHandle,
    encodes: bool,
    breaks: &[usize],
) -> Result<(), CallError>
    ensures { AtRoom encodes (SetsLines breaks.now) (contents_at room.old) (contents_at room.new) result }
{
    match room.contents() {
        Some(contents) => contents.set_lines(encodes, breaks),
        None => Err(CallError::NoRoom),
    }
}

/// Breaks the text of the room into lines again (L1, L2). Its levels before L1, its direction and its limits are
/// unchanged. If it fails, the room is unchanged, and `place` names the break.
#[unsafe(no_mangle)]
pub extern "C" fn bidi_set_lines(room: &mut BidiHandle, breaks: &[usize], place: &mut u64) -> u32
    ensures { ReturnsStatusNaming place_named (AtRoom false (SetsLines breaks.now) (contents_at room.old)
        (contents_at room.new))
        result place.old place.new }
{
    status_and_place(set_lines(room, false, breaks), place)
}

#[tactic(auto, using(crate::proofs::Needed::no_room_for_line))]
pub(crate) fn line_of(
    room: &mut BidiHandle,
    encodes: bool,
    span: Range<usize>,
    levels: &mut [u8],
    order: &mut [usize],
    shown: &mut usize,
) -> Result<(), CallError>
    ensures room { contents_at room.new ≡ contents_at room.old }
    ensures line { AtLineOf (room_for encodes (contents_at room.old)) span.start span.end levels.old levels.new
        order.old order.new shown.old shown.new result }
{
    match room.contents() {
        Some(contents) => contents.line_of(encodes, span, levels, order, shown),
        None => Err(CallError::NoRoom),
    }
}

/// Lays out one line alone of the text of the room, from `start` up to `end` (L1, L2), at the cost of that line. Writes
/// its levels and its order to the fronts of the arrays, and to `shown` how many positions the order has. The room is
/// unchanged. If it fails, nothing is written.
#[unsafe(no_mangle)]
pub extern "C" fn bidi_line_of(
    room: &mut BidiHandle,
    start: usize,
    end: usize,
    levels: &mut [u8],
    order: &mut [usize],
    shown: &mut usize,
) -> u32
    ensures room { contents_at room.new ≡ contents_at room.old }
    ensures line { ReturnsStatus
        (AtLineOf (room_for false (contents_at room.old)) start end levels.old levels.new order.old
        order.new shown.old shown.new) result }
{
    status(line_of(room, false, start..end, levels, order, shown))
}
