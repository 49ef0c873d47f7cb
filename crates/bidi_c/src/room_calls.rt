//! Rooms made and freed.
ghost use Rattle.std.specs.Prelude.{◌≡◌, false, true, None, Some};
ghost use Rattle.room.specs.NewRooms.{new_room};
ghost use Rattle.for_c.specs.RoomCalls.{RejectsCapacity};
ghost use Rattle.for_c.specs.Statuses.{ReturnsStatus, Puts};
ghost use Rattle.bidi_c.specs.ContentsAt.{capacity_if, contents_at, room_at};
ghost use Rattle.bidi_c.specs.ContentsIn.{room_in};

use crate::bidi_handle::BidiHandle;
use crate::contents::Contents;
use for_c::call_error::{CallError, status};
use for_c::room_for_c::RoomForC;
use std::alloc::Global;

fn make_room(alloc: Global, n: usize, encodes: bool, room: &mut BidiHandle) -> Result<(), CallError>
    ensures { Puts (λ contents. room_in contents ≡ Some (new_room n encodes)) (RejectsCapacity n)
        (contents_at room.old) (contents_at room.new) result }
{
    let made = RoomForC::with_room(alloc, n, encodes)?;
    room.hold(alloc, Contents::Room(made))
}

/// Makes a room for texts of up to `n` code points or classes, at most 16,777,216, with the layout of an empty text.
/// What the handle contained before is freed after that. If it fails, the handle is unchanged.
#[unsafe(no_mangle)]
pub extern "C" fn bidi_room_new(alloc: Global, n: usize, room: &mut BidiHandle) -> u32
    ensures { ReturnsStatus (Puts (λ contents. room_in contents ≡ Some (new_room n false)) (RejectsCapacity n)
        (contents_at room.old) (contents_at room.new)) result }
{
    status(make_room(alloc, n, false, room))
}

/// Makes a room for texts of up to `n` code units of UTF-8 or UTF-16, at most 16,777,216, with the layout of an empty
/// text. What the handle contained before is freed after that. If it fails, the handle is unchanged.
#[unsafe(no_mangle)]
pub extern "C" fn bidi_room_new_encoded(alloc: Global, n: usize, room: &mut BidiHandle) -> u32
    ensures { ReturnsStatus (Puts (λ contents. room_in contents ≡ Some (new_room n true)) (RejectsCapacity n)
        (contents_at room.old) (contents_at room.new)) result }
{
    status(make_room(alloc, n, true, room))
}

/// Frees a room. The handle is all zero after that, as it may be before.
#[unsafe(no_mangle)]
pub extern "C" fn bidi_room_free(alloc: Global, room: &mut BidiHandle)
    ensures { contents_at room.new ≡ None }
{
    room.empty(alloc);
}

/// Returns the length of the longest text that fits into the room, 0 without a room.
#[unsafe(no_mangle)]
pub extern "C" fn bidi_room_size(room: &mut BidiHandle) -> usize
    ensures room { contents_at room.new ≡ contents_at room.old }
    ensures size { result ≡ capacity_if (room_at room.old) }
{
    let Some(contents) = room.contents() else {
        return 0;
    };
    match contents.room() {
        Some(room) => room.capacity(),
        None => 0,
    }
}
