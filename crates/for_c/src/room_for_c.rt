//! A room whose calls fail with the errors that C gets.
ghost use Rattle.std.specs.Prelude.{◌≡◌};

use crate::call_error::CallError;
use crate::columns::write_levels;
use crate::reasons::{error_of_layout, error_of_line, error_of_room, error_of_text};
use room::line_of::LineFault;
use room::room::Room;
use sources::source::Ask;
use std::alloc::Global;
use std::boxed::BoxedSlice;
use std::marker::Model;
use ucdfiles::tables::Tables;
use units::level::Level;

/// A room for texts, and a column for the levels of one line alone.
#[derive(Drop)]
pub struct RoomForC {
    room: Room,
    line: BoxedSlice<Option<Level>>,
}

impl Model for RoomForC {
    ghost use Rattle.std.specs.Prelude.{◌≡◌, length};
    ghost use Rattle.std.specs.Box.{boxed_slice_items};
    ghost use Rattle.room.specs.Rooms.{RoomOf};

    ghost Value = { RoomOf };

    ghost view = { λ a. a.room };

    ghost invariant = { λ a. length (boxed_slice_items a.line) ≡ a.room.capacity };
}

impl RoomForC {
    ghost use Rattle.std.specs.Prelude.{◌≡◌, IfErr, IfOk};
    ghost use Rattle.room.specs.NewRooms.{new_room};
    ghost use Rattle.for_c.specs.RoomCalls.{LaysOut, PutsLineOf, RejectsCapacity, SetsLines};

    /// Makes a room for texts of up to `n` units, at most 16,777,216, with the layout of an empty text. If `encodes`,
    /// it has offsets, and texts may be in code units. It takes 100 bytes for each unit, and 128 with offsets.
    pub fn with_room(alloc: Global, n: usize, encodes: bool) -> Result<RoomForC, CallError>
        ensures made { IfOk result (λ room. room ≡ new_room n encodes) }
        ensures reason { IfErr result (RejectsCapacity n) }
    {
        let room = match Room::with_room(alloc, n, encodes) {
            Ok(room) => room,
            Err(fault) => return Err(error_of_room(fault)),
        };
        match Vec::from_elem(alloc, None, n) {
            Ok(line) => Ok(RoomForC {
                room,
                line: line.into_boxed_slice(),
            }),
            Err(_) => Err(CallError::Memory),
        }
    }

    /// Borrows the room.
    pub fn room(&self) -> &Room
        ensures { result.now ≡ self.now }
    {
        &self.room
    }

    /// Lays out a text with the tables, as `Room::lay_out` does.
    // Inlined, a call on a short text takes fewer instructions.
    #[inline(always)]
    pub fn lay_out(&mut self, tables: &Tables, ask: &Ask<'_>) -> Result<(), CallError>
        ensures { LaysOut ask.now tables.now self.old self.new result }
    {
        match self.room.lay_out(tables, ask) {
            Ok(()) => Ok(()),
            Err(fault) => Err(error_of_text(ask.source, fault)),
        }
    }

    /// Breaks the text into lines again, as `Room::set_lines` does.
    pub fn set_lines(&mut self, breaks: &[usize]) -> Result<(), CallError>
        ensures { SetsLines breaks.now self.old self.new result }
    {
        match self.room.set_lines(breaks) {
            Ok(()) => Ok(()),
            Err(fault) => Err(error_of_layout(fault)),
        }
    }

    /// Lays out one line alone of the text, as `Room::line_of` does. Writes the levels as bytes, and to `shown` how
    /// many characters the order has. If it fails, nothing is written.
    pub fn line_of(
        &mut self,
        start: usize,
        end: usize,
        levels: &mut [u8],
        order: &mut [usize],
        shown: &mut usize,
    ) -> Result<(), CallError>
        ensures same { self.new ≡ self.old }
        ensures line { PutsLineOf self.old start end levels.old levels.new order.old order.new shown.old shown.new
            result }
    {
        let count = end.saturating_sub(start);
        if levels.len().min(order.len()) < count {
            return Err(CallError::TooSmall);
        }
        self.room.text_fits();
        self.room.offsets_rise();
        let found = match self.room.line_of(start, end, &mut self.line, order) {
            Ok(found) => found,
            // The column has an item for each unit of the text, so a longer line ends after it.
            Err(LineFault::TooSmall) => return Err(CallError::LineBeyondText),
            Err(fault) => return Err(error_of_line(fault)),
        };
        write_levels(&self.line[..count], levels);
        *shown = found;
        Ok(())
    }
}
