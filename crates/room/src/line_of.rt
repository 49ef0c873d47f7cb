//! One line alone of the text of a room, in the units of its source.
ghost use Rattle.std.specs.Prelude.{◌≡◌};
ghost use Rattle.room.specs.LineOf.{fault_of_span};

use crate::places::put;
use crate::room::Room;
use lines::alone::SpanFault;
use thiserror::Error;
use units::level::Level;

/// Why there is no line from one offset of a text up to another; if there are several reasons, the first one.
#[derive(Clone, Copy, Debug, PartialEq, Eq, Error)]
pub enum LineFault {
    /// The lists have fewer items than the line has units.
    #[error("a list has fewer items than the line has units")]
    TooSmall,
    /// The line does not start below its end.
    #[error("the line does not start below its end")]
    NotForward,
    /// The line ends after the text.
    #[error("the line ends after the text")]
    BeyondText,
    /// The line starts inside a character.
    #[error("the line starts inside a character")]
    StartsInside,
    /// The line ends inside a character.
    #[error("the line ends inside a character")]
    EndsInside,
    /// A paragraph ends within the line, before its last character.
    #[error("a paragraph ends within the line, before its last character")]
    CrossesParagraph,
}

/// Returns the fault of a line whose characters have this fault.
fn fault_of_span(fault: SpanFault) -> LineFault
    ensures { result ≡ fault_of_span fault }
{
    match fault {
        SpanFault::NotForward => LineFault::NotForward,
        SpanFault::BeyondText => LineFault::BeyondText,
        SpanFault::CrossesParagraph => LineFault::CrossesParagraph,
    }
}

impl Room {
    ghost use Rattle.std.specs.Prelude.{ℕ, ◌≡◌, ◌<◌, ◌≤◌, ◌+◌, ◌-◌, None, length, map, min, slice_index_or};
    ghost use Rattle.std.specs.Prelude.{MatchOption, MatchResult, OnErr};
    ghost use Rattle.std.specs.List.{All};
    ghost use Rattle.room.specs.Boundaries.{IsBoundary};
    ghost use Rattle.room.specs.LineOf.{IsSpan, RejectsLineIn, RejectsSpan, WritesLineOf};
    ghost use Rattle.room.specs.Looking.{IsAt};
    ghost use Rattle.room.specs.Rooms.{characters_in, offset_in};

    /// Returns the index of the character that begins at an offset, or the number of characters if the text ends there.
    fn boundary_at(&self, at: usize) -> Option<usize>
        ensures { MatchOption result (IsBoundary (offset_in self.now) (characters_in self.now) at → ⊥)
            (λ index. (index ≤ characters_in self.now) × (offset_in self.now index ≡ at)) }
    {
        self.offsets_rise();
        let end = self.characters();
        let index = self.index_of(at).unwrap_or(end);
        if self.offset_of(index) == at {
            Some(index)
        } else {
            None
        }
    }

    /// Returns the characters of a line from one offset up to another: the index of the first, and the one after the
    /// last.
    fn span_of(&self, start: usize, end: usize) -> Result<(usize, usize), LineFault>
        ensures { MatchResult result (λ span. IsSpan self.now start end span.0 span.1)
            (RejectsSpan self.now start end) }
    {
        self.offsets_rise();
        if end <= start {
            return Err(LineFault::NotForward);
        }
        if self.text_len() < end {
            return Err(LineFault::BeyondText);
        }
        let Some(first) = self.boundary_at(start) else {
            return Err(LineFault::StartsInside);
        };
        let Some(last) = self.boundary_at(end) else {
            return Err(LineFault::EndsInside);
        };
        Ok((first, last))
    }

    /// Replaces characters by the offsets at which they begin.
    fn turn_to_offsets(&self, order: &mut [usize])
        requires { All (λ k. k < characters_in self.now) order.old }
        ensures { order.new ≡ map (offset_in self.now) order.old }
    {
        if self.is_plain() {
            return;
        }
        for i in 0..order.len() {
            order[i] = self.offset_of(order[i]);
        }
    }

    /// Gives each unit the level of its character, from the last unit to the first. The levels of the characters from
    /// `first` up to `last` must be at the front.
    fn spread_levels(&self, first: usize, last: usize, levels: &mut [Option<Level>])
        requires forward { first ≤ last }
        requires inside { last ≤ characters_in self.now }
        requires room { offset_in self.now first + length levels.old ≡ offset_in self.now last }
        ensures len { length levels.new ≡ length levels.old }
        ensures spread { (i k : ℕ) → i < length levels.old → IsAt self.now (offset_in self.now first + i) k
            → slice_index_or levels.new i None ≡ slice_index_or levels.old (k - first) None }
    {
        if self.is_plain() {
            return;
        }
        self.offsets_rise();
        let start = self.offset_of(first);
        for k in (first..last).rev() {
            let level = levels[k - first];
            let from = self.offset_of(k) - start;
            let to = self.offset_of(k + 1) - start;
            put(level, from, to, levels);
        }
    }

    /// Lays out one line alone of the text of the room, from the offset `start` up to `end` (L1, L2). Its cost is that
    /// of this line, wherever other lines of the text end. The room is unchanged.
    ///
    /// Writes the level of each unit of the line to the front of `levels`, and the offsets of its shown characters,
    /// from left to right, to the front of `order`. Returns how many offsets there are. Both lists need an item for
    /// each unit of the line. Fails with `TooSmall` if one has fewer, and else with the first reason why there is no
    /// such line. If it fails, the lists are unchanged.
    pub fn line_of(
        &mut self,
        start: usize,
        end: usize,
        levels: &mut [Option<Level>],
        order: &mut [usize],
    ) -> Result<usize, LineFault>
        ensures same { self.new ≡ self.old }
        ensures line { MatchResult result
            (WritesLineOf self.old start end levels.old levels.new order.old order.new)
            (RejectsLineIn self.old start end (min (length levels.old) (length order.old))) }
        ensures levels_stay { OnErr result (levels.new ≡ levels.old) }
        ensures order_stays { OnErr result (order.new ≡ order.old) }
    {
        self.offsets_rise();
        self.units_are_characters();
        let count = end.saturating_sub(start);
        if levels.len().min(order.len()) < count {
            return Err(LineFault::TooSmall);
        }
        let (first, last) = self.span_of(start, end)?;
        match self.line_of_characters(first, last, levels, order) {
            Ok(shown) => {
                self.turn_to_offsets(&mut order[..shown]);
                self.spread_levels(first, last, &mut levels[..count]);
                Ok(shown)
            }
            Err(fault) => Err(fault_of_span(fault)),
        }
    }
}
