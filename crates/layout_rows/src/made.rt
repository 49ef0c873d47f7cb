//! Rooms and scratches that are made.

use anyhow::{Result, bail};
use lines::scratch::{MOST, Scratch};
use room::room::Room;
use row_files::words::{number_of, push_word};
use std::alloc::Global;

/// Appends how many units a scratch is for, or why it is not made.
fn push_scratch(alloc: Global, n: usize, out: &mut String) -> Result<()> {
    match Scratch::with_room(alloc, n) {
        Ok(scratch) => push_word(out, scratch.room())?,
        Err(fault) => push_word(out, format_args!("{fault:?}"))?,
    }
    Ok(())
}

/// Appends for how many units a room is, how many characters it contains, and whether it has offsets.
fn push_room(out: &mut String, room: &Room) -> Result<()> {
    let (capacity, characters) = (room.capacity(), room.characters());
    push_word(out, format_args!("{capacity} with {characters}"))?;
    if room.encodes() {
        push_word(out, "offsets")?;
    }
    Ok(())
}

/// Makes a room, and appends what it is or why it is not made.
fn push_made(alloc: Global, n: usize, offsets: bool, out: &mut String) -> Result<()> {
    match Room::with_room(alloc, n, offsets) {
        Ok(room) => push_room(out, &room),
        Err(fault) => Ok(push_word(out, format_args!("{fault:?}"))?),
    }
}

/// Does the same by the call that must not be asked for too much.
fn push_reserved(alloc: Global, n: usize, offsets: bool, out: &mut String) -> Result<()> {
    if n > MOST {
        bail!("so much must not be reserved");
    }
    push_room(out, &Room::reserve(alloc, n, offsets)?)
}

/// Appends what is made for so many units: a scratch, or a room, with offsets or without.
pub fn push_what(alloc: Global, what: &str, n: &str, out: &mut String) -> Result<()> {
    let n = number_of(n)?;
    match what {
        "scratch" => push_scratch(alloc, n, out),
        "room" => push_made(alloc, n, false, out),
        "room, offsets" => push_made(alloc, n, true, out),
        "reserved room" => push_reserved(alloc, n, false, out),
        "reserved room, offsets" => push_reserved(alloc, n, true, out),
        _ => bail!("nothing is named {what}"),
    }
}
