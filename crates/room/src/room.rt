//! Rooms for texts and their layouts.
ghost use Rattle.std.specs.Prelude.{◌≡◌, if◌then◌else◌, length, IfOk};
ghost use Rattle.std.specs.Box.{boxed_slice_items};

use crate::decoded::decode;
use crate::fault::LayoutFault;
use crate::finding::find_indices;
use crate::laying_out::{lay_out_empty, lay_out_units, set_lines_of_units};
use decoding::breaking::breaks_at;
use decoding::indices::index_of;
use lines::alone::SpanFault;
use lines::breaks::Breaks;
use lines::lay_out::line_of_into;
use lines::layout::Layout;
use lines::scratch::{MOST, RoomFault, Scratch};
use sources::source::{Ask, Source};
use std::alloc::{AllocError, Global};
use std::boxed::BoxedSlice;
use std::marker::{Brand, Model};
use std::mem::swap;
use std::sync::ledger::Blank;
use ucdfiles::tables::Tables;
use units::bracket::{Bracket, Unit};
use units::class::Class;
use units::level::{Direction, Level, ParaLevel};
use units::limits::Limits;

/// A room for texts and their layouts, to be used again and again. It contains a text and its layout at all times, at
/// first those of an empty text. Its columns don't grow.
///
/// A room without offsets is for texts of code points, classes and units. Its columns for offsets have no items. A room
/// with offsets is for all texts.
/// Offsets, breaks and lengths count the units of the text's source: code points, classes, bytes of UTF-8 or code units
/// of UTF-16.
#[derive(Drop)]
pub struct Room {
    pub(crate) scratch: Scratch,
    pub(crate) units: BoxedSlice<Unit>,
    spare_units: BoxedSlice<Unit>,
    starts: BoxedSlice<u32>,
    spare: BoxedSlice<u32>,
    indices: BoxedSlice<usize>,
    encodes: bool,
    spelled: bool,
    direction: Direction,
    limits: Limits,
}

impl Model for Room {
    ghost use Rattle.room.specs.Rooms.{RoomOf};

    ghost Value = { RoomOf };

    ghost use Rattle.room.specs.Insides.{seen, IsRoom};

    ghost view = { seen };

    ghost invariant = { IsRoom };
}

/// Returns a column of units.
fn unit_column(alloc: Global, n: usize) -> Result<BoxedSlice<Unit>, AllocError>
    ensures { IfOk result (λ units. length (boxed_slice_items units) ≡ n) }
{
    let none = Unit {
        class: Class::L,
        bracket: Bracket::No,
    };
    Ok(Vec::from_elem(alloc, none, n)?.into_boxed_slice())
}

/// Returns a column of offsets.
fn offset_column(alloc: Global, n: usize) -> Result<BoxedSlice<u32>, AllocError>
    ensures { IfOk result (λ starts. length (boxed_slice_items starts) ≡ n) }
{
    Ok(Vec::from_elem(alloc, 0, n)?.into_boxed_slice())
}

/// Returns the number of items of a column that only a room with offsets needs.
fn items_if(encodes: bool, n: usize) -> usize
    ensures { result ≡ (if encodes then n else 0) }
{
    if encodes { n } else { 0 }
}

impl Room {
    ghost use Rattle.std.specs.Prelude.{ℕ, true, ◌≡◌, ◌<◌, ◌≤◌, ◌↔◌, ◌-◌, Err, None, length, take};
    ghost use Rattle.std.specs.Prelude.{IfOk, IfSome, MatchOption, MatchResult, OnErr};
    ghost use Rattle.std.specs.List.{All};
    ghost use Rattle.units.specs.Layout.{longest_text, text_levels};
    ghost use Rattle.lines.specs.Layouts.{view_of};
    ghost use Rattle.lines.specs.LinesAlone.{RejectsSpan};
    ghost use Rattle.lines.specs.OneLevel.{AllHaveLevel};
    ghost use Rattle.room.specs.OrderedLines.{LinesHaveOrder};
    ghost use Rattle.room.specs.Leaving.{Leaves, SetsLines};
    ghost use Rattle.room.specs.LineOf.{WritesCharacters};
    ghost use Rattle.room.specs.Looking.{HasParaLevelOf, IsAt, size_in};
    ghost use Rattle.room.specs.NewRooms.{new_room};
    ghost use Rattle.room.specs.Rooms.{characters_in, offset_in};
    ghost use Rattle.sources.specs.Seen.{source_seen};
    ghost use Rattle.sources.specs.Sources.{IsEncoded};

    /// Makes a room for texts of up to `n` units, at most 16,777,216, with the layout of an empty text. If `encodes`,
    /// it has offsets, and texts may be in code units.
    ///
    /// It takes 98 bytes for each unit, and 126 with offsets. Fails with `TooBig` if and only if `n` is greater than
    /// 16,777,216, else with `Memory` if there is not enough.
    pub fn with_room(alloc: Global, n: usize, encodes: bool) -> Result<Room, RoomFault>
        ensures made { IfOk result (λ room. room ≡ new_room n encodes) }
        ensures too_big { (result ≡ Err RoomFault.TooBig) ↔ (longest_text < n) }
    {
        if n > MOST {
            return Err(RoomFault::TooBig);
        }
        Room::reserve(alloc, n, encodes).map_err(|_| RoomFault::Memory)
    }

    /// Makes a room as `with_room` does. `n` must not be too great.
    pub fn reserve(alloc: Global, n: usize, encodes: bool) -> Result<Room, AllocError>
        requires { n ≤ longest_text }
        ensures { IfOk result (λ room. room ≡ new_room n encodes) }
    {
        let encoded = items_if(encodes, n);
        let offsets = items_if(encodes, n + 1);
        let units = unit_column(alloc, n)?;
        let spare_units = unit_column(alloc, encoded)?;
        let starts = offset_column(alloc, offsets)?;
        let spare = offset_column(alloc, offsets)?;
        let indices = Vec::from_elem(alloc, 0, encoded)?.into_boxed_slice();
        let mut scratch = Scratch::reserve(alloc, n).map_err(|_| AllocError)?;
        lay_out_empty(&mut scratch);
        Ok(Room {
            scratch,
            units,
            spare_units,
            starts,
            spare,
            indices,
            encodes,
            spelled: false,
            direction: Direction::Auto,
            limits: Limits::standard(),
        })
    }

    /// Returns the number of units of the longest text that fits into the room.
    pub fn capacity(&self) -> usize
        ensures { result ≡ self.now.capacity }
    {
        self.scratch.room()
    }

    /// Returns whether it has offsets, so that its texts can be in code units.
    pub fn encodes(&self) -> bool
        ensures { result ≡ self.now.encodes }
    {
        self.encodes
    }

    /// Lays out a text in code units.
    fn lay_out_encoded(
        &mut self,
        tables: &Tables,
        source: Source<'_>,
        direction: Direction,
        breaks: &[usize],
        limits: Limits,
    ) -> Result<(), LayoutFault>
        requires { IsEncoded (source_seen source) }
        ensures { Leaves
            (record { source = source_seen source.entry; direction = direction; breaks = breaks.now; limits = limits })
            tables.now self.old self.new result }
    {
        if !self.encodes {
            return Err(LayoutFault::NoOffsets);
        }
        if self.scratch.room() < source.size() {
            return Err(LayoutFault::TooLong);
        }
        let decoded = match decode(source, tables, &mut self.spare_units, &mut self.spare) {
            Ok(decoded) => decoded,
            Err(at) => return Err(LayoutFault::IllFormed(at)),
        };
        let count = decoded.characters;
        if let Err(fault) = find_indices(&self.spare[..count + 1], breaks, &mut self.indices) {
            return Err(fault);
        }
        let found = breaks_at(&self.indices[..breaks.len()], count);
        let text = &self.spare_units[..count];
        let blank = Blank::new(1);
        lay_out_units::<Brand>(
            &mut self.scratch,
            text,
            decoded.classes,
            direction,
            &found,
            limits,
            blank,
        );
        swap(&mut self.starts, &mut self.spare);
        swap(&mut self.units, &mut self.spare_units);
        self.spelled = true;
        self.direction = direction;
        self.limits = limits;
        Ok(())
    }

    /// Lays out a text with the tables (P1 to L2). It takes no memory.
    ///
    /// Fails with `NoOffsets` if the text is in code units and the room has no offsets; else with `TooLong` if the text
    /// has more units than the room has capacity for. A text in code units then fails with `IllFormed`, else with
    /// `Break`, else with `BreakInside`. Another text fails with `Break`, else with `IllFormed`. If it fails, the room
    /// is unchanged.
    // Inlined, a call on a short text takes fewer instructions.
    #[inline(always)]
    pub fn lay_out(&mut self, tables: &Tables, ask: &Ask<'_>) -> Result<(), LayoutFault>
        ensures { Leaves ask.now tables.now self.old self.new result }
    {
        let source = ask.source;
        if source.is_encoded() {
            return self.lay_out_encoded(tables, source, ask.direction, ask.breaks, ask.limits);
        }
        let len = source.size();
        if self.scratch.room() < len {
            return Err(LayoutFault::TooLong);
        }
        let breaks = match Breaks::new(ask.breaks, len) {
            Ok(breaks) => breaks,
            Err(fault) => return Err(LayoutFault::Break(fault)),
        };
        if let Err(at) = source.check() {
            return Err(LayoutFault::IllFormed(at));
        }
        let classes = source.look_up(&mut self.units, tables);
        let text = &self.units[..len];
        let blank = Blank::new(1);
        lay_out_units::<Brand>(
            &mut self.scratch,
            text,
            classes,
            ask.direction,
            &breaks,
            ask.limits,
            blank,
        );
        self.spelled = false;
        self.direction = ask.direction;
        self.limits = ask.limits;
        Ok(())
    }

    /// Breaks the text of the room into lines again (L1, L2). Some callers lay out a text, shape its runs, and know
    /// only then where its lines end. The breaks must be rising offsets in the units of the text's source. A character
    /// must begin at each of them, and none may be 0. The text's direction and limits don't change. It takes no memory.
    ///
    /// Fails with `Break`, else with `BreakInside`, for the first such break; then the room is unchanged.
    pub fn set_lines(&mut self, breaks: &[usize]) -> Result<(), LayoutFault>
        ensures { SetsLines breaks.now self.old self.new result }
    {
        let count = self.characters();
        if self.spelled {
            if let Err(fault) = find_indices(&self.starts[..count + 1], breaks, &mut self.indices) {
                return Err(fault);
            }
            let found = breaks_at(&self.indices[..breaks.len()], count);
            set_lines_of_units(&mut self.scratch, &self.units[..count], &found);
            return Ok(());
        }
        let found = match Breaks::new(breaks, count) {
            Ok(found) => found,
            Err(fault) => return Err(LayoutFault::Break(fault)),
        };
        set_lines_of_units(&mut self.scratch, &self.units[..count], &found);
        Ok(())
    }

    /// Lays out one line alone of the text of the room, from the character `first` up to `last`, as
    /// `Scratch::line_of` does, in positions of characters. The room is unchanged.
    pub(crate) fn line_of_characters(
        &mut self,
        first: usize,
        last: usize,
        levels: &mut [Option<Level>],
        order: &mut [usize],
    ) -> Result<usize, SpanFault>
        requires levels { last - first ≤ length levels.old }
        requires order { last - first ≤ length order.old }
        ensures same { self.new ≡ self.old }
        ensures line { MatchResult result
            (WritesCharacters self.old first last levels.old levels.new order.old order.new)
            (RejectsSpan self.old.text.units first last) }
        ensures inside { IfOk result (λ shown. All (λ k. k < characters_in self.old) (take shown order.new)) }
        ensures levels_stay { OnErr result (levels.new ≡ levels.old) }
        ensures order_stays { OnErr result (order.new ≡ order.old) }
    {
        let count = self.characters();
        let text = &self.units[..count];
        line_of_into(&mut self.scratch, text, first, last, levels, order)
    }

    /// Returns the layout, in positions of characters: the levels of its paragraphs and positions, and its lines.
    pub fn layout(&self) -> Layout<'_>
        ensures layout { view_of result ≡ self.now.layout }
        ensures in_order { LinesHaveOrder (view_of result) }
    {
        self.scratch.layout()
    }

    /// Returns the level that all characters have after L1, if `Scratch::one_level` knows that they have one. Else
    /// returns `None`.
    pub fn one_level(&self) -> Option<Level>
        ensures { IfSome result (λ level. AllHaveLevel level self.now.layout.levels) }
    {
        self.scratch.one_level()
    }

    /// Returns the level of each character before L1 (P1 to I2); a character that X9 removes has none.
    pub fn resolved_levels(&self) -> &[Option<Level>]
        ensures { result.now ≡ text_levels self.now.text.limits self.now.text.units self.now.text.direction }
    {
        self.scratch.resolved_levels()
    }

    /// Returns the class and the bracket of each character.
    pub(crate) fn text_units(&self) -> &[Unit]
        ensures units { result.now ≡ self.now.text.units }
        ensures len { length result.now ≡ characters_in self.now }
    {
        self.units_are_characters();
        &self.units[..self.characters()]
    }

    /// Returns the level of the paragraph (P2, P3) of the character with the index `k`. Searches the ends of the
    /// paragraphs for it.
    pub fn para_level_of(&self, k: usize) -> ParaLevel
        requires { k < characters_in self.now }
        ensures { HasParaLevelOf self.now k result }
    {
        self.scratch.para_level_at(k)
    }

    /// Returns how many lines the text has; an empty text has none.
    pub fn line_count(&self) -> usize
        ensures { result ≡ length self.now.layout.lines }
    {
        self.scratch.layout().line_count()
    }

    /// Returns how many characters the text has.
    pub fn characters(&self) -> usize
        ensures { result ≡ characters_in self.now }
    {
        self.scratch.layout().levels().len()
    }

    /// Returns whether each character is one unit of the source, so that offsets are positions.
    pub(crate) fn is_plain(&self) -> bool
        ensures { result ≡ true → self.now.text.offsets ≡ None }
    {
        !self.spelled
    }

    /// States for callers that the offsets of a room's characters rise, from 0 on.
    pub fn offsets_rise(&self)
        ensures first { offset_in self.now 0 ≡ 0 }
        ensures rising { (j k : ℕ) → j < k → k ≤ characters_in self.now → offset_in self.now j < offset_in self.now k }
    {
        let _ = &self.scratch;
    }

    /// States for callers that a room has capacity for its text.
    pub fn text_fits(&self)
        ensures { size_in self.now ≤ self.now.capacity }
    {
        let _ = &self.scratch;
    }

    /// States for callers that the text of a room has a unit for each character.
    pub fn units_are_characters(&self)
        ensures { length self.now.text.units ≡ characters_in self.now }
    {
        let _ = &self.scratch;
    }

    /// Returns the offset at which the character with the index `k` begins, in the units of the source. Returns the
    /// text's end if `k` is the number of characters.
    pub fn offset_of(&self, k: usize) -> usize
        requires { k ≤ characters_in self.now }
        ensures { result ≡ offset_in self.now k }
    {
        if self.spelled {
            self.starts[k] as usize
        } else {
            k
        }
    }

    /// Returns the index of the character of the unit at an offset of the source. Returns `None` from the text's end
    /// on.
    pub fn index_of(&self, at: usize) -> Option<usize>
        ensures { MatchOption result (offset_in self.now (characters_in self.now) ≤ at) (IsAt self.now at) }
    {
        let count = self.characters();
        if self.spelled {
            index_of(&self.starts[..count + 1], at)
        } else if at < count {
            Some(at)
        } else {
            None
        }
    }
}
