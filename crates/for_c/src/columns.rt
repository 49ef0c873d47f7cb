//! Columns of a layout, written out for C.
ghost use Rattle.std.specs.Prelude.{◌≡◌, ◌≤◌, ◌+◌, drop, length, map, replicate, take};
ghost use Rattle.units.specs.Isolates.{level_of_para};
ghost use Rattle.room.specs.Written.{WritesWhole};
ghost use Rattle.for_c.specs.LevelBytes.{level_byte};

use room::room::Room;
use units::level::{Level, ParaLevel};

/// Returns a level as a byte, 255 if there is none.
pub fn byte_of(level: Option<Level>) -> u8
    ensures { result ≡ level_byte level }
{
    match level {
        Some(level) => level.get(),
        None => 255,
    }
}

/// Copies items to the front of `out`, which has as many or more. One alone, as in a text of one letter, takes no call
/// that copies memory.
#[inline(always)]
fn copy_items<T: Copy>(items: &[T], out: &mut [T])
    requires { length items.now ≤ length out.old }
    ensures len { length out.new ≡ length out.old }
    ensures copied { take (length items.now) out.new ≡ items.now }
    ensures following { drop (length items.now) out.new ≡ drop (length items.now) out.old }
{
    if items.len() == 1 {
        out[0] = items[0];
    } else {
        out[..items.len()].copy_from_slice(items);
    }
}

/// Writes items to the front of `out`, if all fit there. Returns how many there are.
pub fn write_items<T: Copy>(items: &[T], out: &mut [T]) -> usize
    ensures { WritesWhole items.now result out.old out.new }
{
    if items.len() <= out.len() {
        copy_items(items, out);
    }
    items.len()
}

/// How many levels are written at once.
const BLOCK: usize = 16;

/// Writes a block of levels as bytes, from the position `k` on, after those of the positions before it. All are read
/// before one is written, so that the processor can do several at once.
#[inline(always)]
fn write_block(levels: &[Option<Level>], k: usize, out: &mut [u8])
    requires inside { k + BLOCK ≤ length levels.now }
    requires fits { length levels.now ≤ length out.old }
    requires before { take k out.old ≡ map level_byte (take k levels.now) }
    ensures len { length out.new ≡ length out.old }
    ensures written { take (k + BLOCK) out.new ≡ map level_byte (take (k + BLOCK) levels.now) }
    ensures following { drop (k + BLOCK) out.new ≡ drop (k + BLOCK) out.old }
{
    let mut bytes = [0; BLOCK];
    for j in 0..BLOCK {
        bytes[j] = byte_of(levels[k + j]);
    }
    out[k..k + BLOCK].copy_from_slice(&bytes);
}

/// Writes levels as bytes, up to fewer than a block at the end. Returns how many it has written.
#[inline(always)]
fn write_blocks(levels: &[Option<Level>], out: &mut [u8]) -> usize
    requires { length levels.now ≤ length out.old }
    ensures len { length out.new ≡ length out.old }
    ensures within { result ≤ length levels.now }
    ensures written { take result out.new ≡ map level_byte (take result levels.now) }
    ensures following { drop result out.new ≡ drop result out.old }
{
    let blocks = levels.len() / BLOCK;
    for block in 0..blocks {
        write_block(levels, block * BLOCK, out);
    }
    blocks * BLOCK
}

/// Does what `copy_levels` does, for any number of levels.
#[inline(never)]
fn copy_several(levels: &[Option<Level>], out: &mut [u8])
    requires { length levels.now ≤ length out.old }
    ensures len { length out.new ≡ length out.old }
    ensures copied { take (length levels.now) out.new ≡ map level_byte levels.now }
    ensures following { drop (length levels.now) out.new ≡ drop (length levels.now) out.old }
{
    let written = write_blocks(levels, out);
    for i in written..levels.len() {
        out[i] = byte_of(levels[i]);
    }
}

/// Writes levels as bytes to the front of `out`, which has as many items or more. One alone takes no loop.
#[inline(always)]
fn copy_levels(levels: &[Option<Level>], out: &mut [u8])
    requires { length levels.now ≤ length out.old }
    ensures len { length out.new ≡ length out.old }
    ensures copied { take (length levels.now) out.new ≡ map level_byte levels.now }
    ensures following { drop (length levels.now) out.new ≡ drop (length levels.now) out.old }
{
    if levels.len() == 1 {
        out[0] = byte_of(levels[0]);
    } else {
        copy_several(levels, out);
    }
}

/// Writes levels as bytes to the front of `out`, if all fit there. Returns how many there are.
pub fn write_levels(levels: &[Option<Level>], out: &mut [u8]) -> usize
    ensures { WritesWhole (map level_byte levels.now) result out.old out.new }
{
    if levels.len() <= out.len() {
        copy_levels(levels, out);
    }
    levels.len()
}

/// Writes a byte to the first `count` items of `out`. One alone, as in a text of one letter, takes no call that fills
/// memory.
#[inline(always)]
fn fill_front(byte: u8, count: usize, out: &mut [u8])
    requires { count ≤ length out.old }
    ensures len { length out.new ≡ length out.old }
    ensures filled { take count out.new ≡ replicate count byte }
    ensures following { drop count out.new ≡ drop count out.old }
{
    if count == 1 {
        out[0] = byte;
    } else {
        out[..count].fill(byte);
    }
}

/// Writes the level of as many positions as a byte each to the front of `out`, if all fit there. Returns how many there
/// are.
#[inline(always)]
fn write_one_level(level: Level, count: usize, out: &mut [u8]) -> usize
    ensures { WritesWhole (replicate count level) result out.old out.new }
{
    if count <= out.len() {
        fill_front(level.get(), count, out);
    }
    count
}

/// Writes the levels after L1 of a room's characters as bytes to the front of `out`, if all fit there. Returns how many
/// there are.
pub fn write_levels_of(room: &Room, out: &mut [u8]) -> usize
    ensures { WritesWhole (map level_byte room.now.layout.levels) result out.old out.new }
{
    match room.one_level() {
        Some(level) => write_one_level(level, room.characters(), out),
        None => write_levels(room.layout().levels(), out),
    }
}

/// Writes the levels of paragraphs as bytes to the front of `out`, if all fit there. Returns how many there are.
pub fn write_para_levels(levels: &[ParaLevel], out: &mut [u8]) -> usize
    ensures { WritesWhole (map level_of_para levels.now) result out.old out.new }
{
    if levels.len() <= out.len() {
        for i in 0..levels.len() {
            out[i] = levels[i].level().get();
        }
    }
    levels.len()
}
