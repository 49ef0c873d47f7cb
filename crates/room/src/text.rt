//! A text and its layout in one value, for callers that lay out one text at a time. To lay out many texts, use one
//! `crate::room::Room` for all of them.
ghost use Rattle.std.specs.Prelude.{◌≡◌, ◌≤◌, length, IfOk};
ghost use Rattle.std.specs.Char.{IsScalar};
ghost use Rattle.std.specs.Str.{chars};
ghost use Rattle.units.specs.Layout.{layout_of, longest_text};
ghost use Rattle.units.specs.Limits.{standard};
ghost use Rattle.lines.specs.LineBreaks.{AreBreaks};
ghost use Rattle.ucdfiles.specs.Tables.{units_by};
ghost use Rattle.sources.specs.Kinds.{AllAre};

use crate::room::Room;
use lines::breaks::{BreakFault, Breaks};
use lines::layout::Layout;
use lines::scratch::MOST;
use sources::source::{Ask, Source};
use std::alloc::{AllocError, Global};
use thiserror::Error;
use ucdfiles::tables::Tables;
pub use units::level::Direction;
use units::limits::Limits;

/// Why a text is not laid out.
#[derive(Clone, Copy, Debug, PartialEq, Eq, Error)]
pub enum TextFault {
    /// It has more than 16,777,216 characters.
    #[error("the text is too long")]
    TooLong,
    /// A break is out of range, or not above the one before.
    #[error("a break is out of range, or not above the one before")]
    Break(BreakFault),
    /// Memory ran out.
    #[error("out of memory")]
    Memory,
}

impl From<AllocError> for TextFault {
    ghost use Rattle.std.specs.Prelude.{◌≡◌};
    ghost use Rattle.room.specs.declared.text.TextFault.TheVariants.{Memory};

    ghost from_gives = { λ _ fault. fault ≡ Memory };

    fn from(_error: AllocError) -> Self {
        TextFault::Memory
    }
}

/// A text and its layout. Positions in it count its characters.
#[derive(Drop)]
pub struct Text<'t> {
    tables: &'t Tables,
    chars: Vec<char>,
    room: Room,
    ghost whole: { length room.layout.levels ≡ length chars.items },
}

/// Returns the number of characters of a text.
fn length_of(text: &str) -> usize
    ensures { result ≡ length (chars text.now) }
{
    text.chars().count()
}

/// Returns the characters of a text.
fn chars_of(alloc: Global, text: &str) -> Result<Vec<char>, AllocError>
    ensures { IfOk result (λ characters. characters.items ≡ chars text.now) }
{
    text.chars().collect(alloc)
}

/// Returns the code points of characters.
fn codes_of(alloc: Global, chars: &[char]) -> Result<Vec<u32>, AllocError>
    ensures codes { IfOk result (λ codes. codes.items ≡ chars.now) }
    ensures scalars { IfOk result (λ codes. AllAre IsScalar codes.items) }
{
    let mut codes = Vec::with_capacity(alloc, chars.len())?;
    for c in chars {
        codes.push(u32::from(*c))?;
    }
    Ok(codes)
}

/// Makes a room with the layout of code points, broken at these positions.
fn room_with(
    alloc: Global,
    tables: &Tables,
    codes: &[u32],
    direction: Direction,
    breaks: &[usize],
) -> Result<Room, AllocError>
    requires scalars { AllAre IsScalar codes.now }
    requires breaks { AreBreaks breaks.now (length codes.now) }
    requires fits { length codes.now ≤ longest_text }
    ensures { IfOk result (λ room. room.layout
        ≡ layout_of standard (units_by tables.now codes.now) direction breaks.now) }
{
    let mut room = Room::reserve(alloc, codes.len(), false)?;
    let ask = Ask {
        source: Source::Codes(codes),
        direction,
        breaks,
        limits: Limits::standard(),
    };
    room.lay_out(tables, &ask).unwrap();
    Ok(room)
}

impl<'t> Text<'t> {
    ghost use Rattle.std.specs.Prelude.{◌≡◌, ◌<◌, ◌≤◌, length, string_bytes, IfOk, OnOk, IfErr};
    ghost use Rattle.std.specs.Str.{chars, encode_utf8_all};
    ghost use Rattle.units.specs.Layout.{layout_of, longest_text};
    ghost use Rattle.units.specs.Limits.{standard};
    ghost use Rattle.lines.specs.Layouts.{view_of, line_at};
    ghost use Rattle.lines.specs.LineBreaks.{AreBreaks};
    ghost use Rattle.room.specs.Texts.{RejectsText, TakesText, chars_in, layout_in_text, shown_in, tables_in_text};
    ghost use Rattle.ucdfiles.specs.Tables.{units_by};

    /// Lays out a text of these characters.
    fn of_chars(
        alloc: Global,
        tables: &'t Tables,
        chars: Vec<char>,
        direction: Direction,
        breaks: &[usize],
    ) -> Result<Text<'t>, AllocError>
        requires breaks { AreBreaks breaks.now (length chars.items) }
        requires fits { length chars.items ≤ longest_text }
        ensures tables { IfOk result (λ laid. tables_in_text laid ≡ tables.now) }
        ensures text { IfOk result (λ laid. chars_in laid ≡ chars.items) }
        ensures laid_out { IfOk result (λ laid. layout_in_text laid
            ≡ layout_of standard (units_by tables.now chars.items) direction breaks.now) }
    {
        let codes = codes_of(alloc, &chars)?;
        let room = room_with(alloc, tables, &codes, direction, breaks)?;
        Ok(Text {
            tables,
            chars,
            room,
        })
    }

    /// Lays out a text with the tables under a direction (P1 to L2), broken into lines at the breaks. The breaks must
    /// be rising positions of its characters, and none may be 0. Without breaks each paragraph is a line.
    ///
    /// Fails with `TooLong` if it has more characters than any text may have, else with `Break` for the first bad
    /// break, else with `Memory` if there is not enough.
    pub fn lay_out(
        alloc: Global,
        tables: &'t Tables,
        text: &str,
        direction: Direction,
        breaks: &[usize],
    ) -> Result<Text<'t>, TextFault>
        ensures taken { OnOk result (TakesText (chars text.now) breaks.now) }
        ensures tables { IfOk result (λ laid. tables_in_text laid ≡ tables.now) }
        ensures text { IfOk result (λ laid. chars_in laid ≡ chars text.now) }
        ensures laid_out { IfOk result (λ laid. layout_in_text laid
            ≡ layout_of standard (units_by tables.now (chars text.now)) direction breaks.now) }
        ensures rejected { IfErr result (RejectsText (chars text.now) breaks.now) }
    {
        let length = length_of(text);
        if length > MOST {
            return Err(TextFault::TooLong);
        }
        if let Err(fault) = Breaks::new(breaks, length) {
            return Err(TextFault::Break(fault));
        }
        let chars = chars_of(alloc, text)?;
        Ok(Text::of_chars(alloc, tables, chars, direction, breaks)?)
    }

    /// Returns its characters.
    pub fn chars(&self) -> &[char]
        ensures { result.now ≡ chars_in self.now }
    {
        &self.chars
    }

    /// Returns its layout: the levels of its paragraphs and of its positions, and its lines.
    pub fn layout(&self) -> Layout<'_>
        ensures { view_of result ≡ layout_in_text self.now }
    {
        self.room.layout()
    }

    /// Returns the line with the number `k`, counted from 0, as it is shown: its characters from left to right, each
    /// with an odd level as its mirror image, if the tables that the text was laid out with have one (L4).
    pub fn shown_line(&self, alloc: Global, k: usize) -> Result<String, AllocError>
        requires { k < length (layout_in_text self.now).lines }
        ensures { IfOk result (λ shown. string_bytes shown
            ≡ encode_utf8_all (shown_in self.now (line_at (layout_in_text self.now) k))) }
    {
        let layout = self.layout();
        layout
            .shown(self.tables.mirrors(), &self.chars, k)
            .collect(alloc)
    }
}
