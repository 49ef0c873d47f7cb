//! What a handle contains.
ghost use Rattle.std.specs.Prelude.{◌≡◌};
ghost use Rattle.sources.specs.Seen.{source_seen};

use bidtests::judge::Judge;
use for_c::call_error::CallError;
use for_c::directions::direction_numbered;
use for_c::read_tables::share_tables;
use for_c::report_for_c::ReportForC;
use for_c::room_for_c::RoomForC;
use room::room::Room;
use sources::source::{Ask, Source};
use std::alloc::Global;
use std::ops::Range;
use std::sync::Arc;
use ucdfiles::tables::Tables;
use units::limits::Limits;

/// What a handle contains, unless it is empty.
#[derive(Drop)]
pub enum Contents {
    /// Tables. Other handles, judges and reports may share them.
    Tables(Arc<Tables, Global>),
    /// A room for texts, with the layout of the last one.
    Room(RoomForC),
    /// A judge of a test file, with its tables. It is boxed because it contains a line.
    Judge(Box<Judge<'static>>),
    /// A report on a test file, with its tables, boxed for the same reason.
    Report(Box<ReportForC>),
}

impl Contents {
    ghost use Rattle.std.specs.Prelude.{◌≡◌, false, Some, None, MatchOption, IfErr, IfOk};
    ghost use Rattle.std.specs.Arc.{arc_value};
    ghost use Rattle.for_c.specs.RoomCalls.{SetsLines};
    ghost use Rattle.bidi_c.specs.AtHandles.{AtRoom};
    ghost use Rattle.bidi_c.specs.ContentsIn.{room_for, room_in, tables_in};
    ghost use Rattle.bidi_c.specs.LayingOut.{AtLineOf, LaysOutText, LaysOutWithoutTables, NeedsNoTables};
    ghost use Rattle.bidi_c.specs.Sharing.{RejectsSharing};

    /// Borrows the room, if it contains one.
    pub(crate) fn room(&self) -> Option<&Room>
        ensures { MatchOption result (room_in (Some self.now) ≡ None)
            (λ room. room_in (Some self.now) ≡ Some room.now) }
    {
        match self {
            Contents::Room(room) => Some(room.room()),
            _ => None,
        }
    }

    /// Borrows the room, if it contains one that has offsets or has none, as asked for.
    pub(crate) fn room_for(&self, encodes: bool) -> Option<&Room>
        ensures { MatchOption result (room_for encodes (Some self.now) ≡ None)
            (λ room. room_for encodes (Some self.now) ≡ Some room.now) }
    {
        match self {
            Contents::Room(room) if room.room().encodes() == encodes => Some(room.room()),
            _ => None,
        }
    }

    /// Borrows the tables, if it contains tables.
    pub(crate) fn tables(&self) -> Option<&Tables>
        ensures { MatchOption result (tables_in (Some self.now) ≡ None)
            (λ tables. tables_in (Some self.now) ≡ Some tables.now) }
    {
        match self {
            Contents::Tables(tables) => Some(&**tables),
            _ => None,
        }
    }

    /// Returns another owner of the same tables. They are freed with the last of their owners. Fails with `NoTables` if
    /// it contains something else, and with `Memory`.
    pub(crate) fn share_tables(&self) -> Result<Arc<Tables, Global>, CallError>
        ensures shared { IfOk result (λ shared. tables_in (Some self.now) ≡ Some (arc_value shared)) }
        ensures reason { IfErr result (RejectsSharing (Some self.now)) }
    {
        match self {
            Contents::Tables(tables) => share_tables(tables),
            _ => Err(CallError::NoTables),
        }
    }

    /// Lays out a text by the tables, under the direction with this number. Fails with `NoRoom` if it is no room of the
    /// kind that the text needs, else with `NoTables`, else with `NoDirection`, else as `RoomForC::lay_out` does.
    // Inlined, a call on a short text takes fewer instructions.
    #[inline(always)]
    pub(crate) fn lay_out(
        &mut self,
        tables: &Contents,
        source: Source<'_>,
        direction: u32,
        breaks: &[usize],
        limits: Limits,
    ) -> Result<(), CallError>
        ensures { LaysOutText (source_seen source.entry) limits direction breaks.now (Some tables.now)
            (Some self.old) (Some self.new) result }
    {
        match self {
            Contents::Room(room) if room.room().encodes() == source.is_encoded() => {
                let Some(tables) = tables.tables() else {
                    return Err(CallError::NoTables);
                };
                let Some(direction) = direction_numbered(direction) else {
                    return Err(CallError::NoDirection);
                };
                let ask = Ask {
                    source,
                    direction,
                    breaks,
                    limits,
                };
                room.lay_out(tables, &ask)
            }
            _ => Err(CallError::NoRoom),
        }
    }

    /// Lays out a text that needs no tables, under the direction with this number. Fails with `NoRoom` if it is no room
    /// without offsets, else with `NoDirection`, else as `RoomForC::lay_out` does.
    pub(crate) fn lay_out_without_tables(
        &mut self,
        source: Source<'_>,
        direction: u32,
        breaks: &[usize],
        limits: Limits,
    ) -> Result<(), CallError>
        requires { NeedsNoTables (source_seen source) }
        ensures { LaysOutWithoutTables (source_seen source.entry) limits direction breaks.now (Some self.old)
            (Some self.new) result }
    {
        match self {
            Contents::Room(room) if !room.room().encodes() => {
                let Some(direction) = direction_numbered(direction) else {
                    return Err(CallError::NoDirection);
                };
                let ask = Ask {
                    source,
                    direction,
                    breaks,
                    limits,
                };
                let unused = standard::tables();
                room.lay_out(&unused, &ask)
            }
            _ => Err(CallError::NoRoom),
        }
    }

    /// Breaks the text of the room into lines again. Fails with `NoRoom` if it is no room of the kind that is asked
    /// for, else as `RoomForC::set_lines` does.
    pub(crate) fn set_lines(&mut self, encodes: bool, breaks: &[usize]) -> Result<(), CallError>
        ensures { AtRoom encodes (SetsLines breaks.now) (Some self.old) (Some self.new) result }
    {
        match self {
            Contents::Room(room) if room.room().encodes() == encodes => room.set_lines(breaks),
            _ => Err(CallError::NoRoom),
        }
    }

    /// Lays out one line alone of the text of the room, from the start of the span up to its end. Fails with `NoRoom`
    /// if it is no room of the kind that is asked for, else as `RoomForC::line_of` does.
    pub(crate) fn line_of(
        &mut self,
        encodes: bool,
        span: Range<usize>,
        levels: &mut [u8],
        order: &mut [usize],
        shown: &mut usize,
    ) -> Result<(), CallError>
        ensures same { self.new ≡ self.old }
        ensures line { AtLineOf (room_for encodes (Some self.old)) span.start span.end levels.old levels.new
            order.old order.new shown.old shown.new result }
    {
        match self {
            Contents::Room(room) if room.room().encodes() == encodes => {
                room.line_of(span.start, span.end, levels, order, shown)
            }
            _ => Err(CallError::NoRoom),
        }
    }
}
