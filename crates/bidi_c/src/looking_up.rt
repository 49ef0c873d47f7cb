//! What a room contains, copied out in positions of characters.
ghost use Rattle.std.specs.Prelude.{◌≡◌, length, map};
ghost use Rattle.room.specs.Written.{WritesWhole};
ghost use Rattle.for_c.specs.LevelBytes.{level_byte};
ghost use Rattle.for_c.specs.Positions.{IsLineAt, RejectsLine};
ghost use Rattle.for_c.specs.Statuses.{ReturnsStatus, Puts};
ghost use Rattle.bidi_c.specs.AtHandles.{AtARoom};
ghost use Rattle.bidi_c.specs.ContentsAt.{contents_at, layout_at, line_of_room, room_at};

use crate::bidi_handle::BidiHandle;
use crate::putting::put;
use for_c::call_error::{CallError, status};
use for_c::columns::{write_levels_of, write_para_levels};
use for_c::line::BidiLine;
use for_c::positions::{line_at, write_order};

/// Writes the levels after L1 of the text's characters to `levels`, if all fit there: 255 for a character that was
/// removed (X9). Returns how many there are, 0 without a room.
#[unsafe(no_mangle)]
pub extern "C" fn bidi_levels(room: &mut BidiHandle, levels: &mut [u8]) -> usize
    ensures room { contents_at room.new ≡ contents_at room.old }
    ensures levels { WritesWhole (map level_byte (layout_at room.old).levels) result levels.old
        levels.new }
{
    let Some(contents) = room.contents() else {
        return 0;
    };
    match contents.room() {
        Some(room) => write_levels_of(room, levels),
        None => 0,
    }
}

/// Writes the levels of the text's paragraphs (P2, P3) to `levels`, if all fit there. Returns how many there are.
#[unsafe(no_mangle)]
pub extern "C" fn bidi_para_levels(room: &mut BidiHandle, levels: &mut [u8]) -> usize
    ensures room { contents_at room.new ≡ contents_at room.old }
    ensures levels { WritesWhole (layout_at room.old).paras result levels.old levels.new }
{
    let Some(contents) = room.contents() else {
        return 0;
    };
    match contents.room() {
        Some(room) => write_para_levels(room.layout().para_levels(), levels),
        None => 0,
    }
}

/// Returns how many lines the text has; an empty one has none.
#[unsafe(no_mangle)]
pub extern "C" fn bidi_line_count(room: &mut BidiHandle) -> usize
    ensures room { contents_at room.new ≡ contents_at room.old }
    ensures count { result ≡ length (layout_at room.old).lines }
{
    let Some(contents) = room.contents() else {
        return 0;
    };
    match contents.room() {
        Some(room) => room.line_count(),
        None => 0,
    }
}

/// Writes the line with the number `k`, counted from 0, to `line`. If there is none, `line` is unchanged.
#[unsafe(no_mangle)]
#[tactic(auto, using(crate::proofs::Needed::no_room, crate::proofs::Needed::not_contained))]
pub extern "C" fn bidi_line(room: &mut BidiHandle, k: usize, line: &mut BidiLine) -> u32
    ensures room { contents_at room.new ≡ contents_at room.old }
    ensures line { ReturnsStatus (AtARoom (room_at room.old)
        (λ room. Puts (IsLineAt room.layout k) (RejectsLine room.layout k)) line.old line.new) result }
{
    let Some(contents) = room.contents() else {
        return status(Err(CallError::NoRoom));
    };
    match contents.room() {
        Some(room) => status(put(line_at(&room.layout(), k), line)),
        None => status(Err(CallError::NoRoom)),
    }
}

/// Writes the order of the line with the number `k` to `order`, if all fit there: positions of characters, from left to
/// right (L2). Returns how many there are, 0 if there is no such line.
#[unsafe(no_mangle)]
pub extern "C" fn bidi_order(room: &mut BidiHandle, k: usize, order: &mut [usize]) -> usize
    ensures room { contents_at room.new ≡ contents_at room.old }
    ensures order { WritesWhole (line_of_room room.old k).order result order.old order.new }
{
    let Some(contents) = room.contents() else {
        return 0;
    };
    match contents.room() {
        Some(room) => write_order(&room.layout(), k, order),
        None => 0,
    }
}
