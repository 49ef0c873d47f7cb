//! What a caller asks for.
ghost use Rattle.std.specs.Prelude.{◌≡◌, ◌≤◌, length, take, IfSome};
ghost use Rattle.units.specs.Classes.{classes_of};
ghost use Rattle.paragraph.specs.ClassSets.{IsSetOf};
ghost use Rattle.sources.specs.Seen.{source_seen};
ghost use Rattle.sources.specs.Sources.{IsEncoded, IsWellFormed, is_encoded, size_of, units_of};

use crate::class_numbers::fill_classes;
use crate::codes::{fill_codes, look_up_codes};
use crate::numbered_units::{NumberedUnit, fill_units};
use decoding::fault::Faults;
use paragraph::class_set::ClassSet;
use std::marker::Model;
use ucdfiles::tables::Tables;
use units::bracket::Unit;
use units::level::Direction;
use units::limits::Limits;

/// A text as its caller has it. Its units are code points, classes, units as numbers or code units. Positions in it
/// count these.
#[derive(Clone, Copy)]
pub enum Source<'t> {
    /// Code points. One that isn't a scalar value is a fault.
    Codes(&'t [u32]),
    /// Classes as numbers, 0 to 22, in the order L, R, AL, EN, ES, ET, AN, CS, NSM, BN, B, S, WS, ON, LRE, LRO, RLE,
    /// RLO, PDF, LRI, RLI, FSI, PDI. Each is a unit without a bracket. A greater number is a fault.
    Classes(&'t [u8]),
    /// Units as the numbers of their classes and brackets. A number that is greater than all of these is a fault.
    Units(&'t [NumberedUnit]),
    /// Bytes of UTF-8. If faults are replaced, each maximal subpart of ill-formed UTF-8 is read as U+FFFD: all bytes
    /// there that could begin a character, or else one byte.
    Utf8(&'t [u8], Faults),
    /// Code units of UTF-16. If faults are replaced, each lone surrogate is read as U+FFFD.
    Utf16(&'t [u16], Faults),
}

impl<'t> Source<'t> {
    /// Returns the number of its units.
    pub fn size(self) -> usize
        ensures { result ≡ size_of (source_seen self.entry) }
    {
        match self {
            Source::Codes(codes) => codes.len(),
            Source::Classes(numbers) => numbers.len(),
            Source::Units(numbered) => numbered.len(),
            Source::Utf8(bytes, _) => bytes.len(),
            Source::Utf16(units, _) => units.len(),
        }
    }

    /// Returns whether its units are code units, so that a character can take several of them.
    pub fn is_encoded(self) -> bool
        ensures { result ≡ is_encoded (source_seen self.entry) }
    {
        match self {
            Source::Codes(_) | Source::Classes(_) | Source::Units(_) => false,
            Source::Utf8(_, _) | Source::Utf16(_, _) => true,
        }
    }

    /// Writes the units of a well-formed text, each of whose units is a character, to the front of the column.
    // Inlined, a call on a short text takes fewer instructions.
    #[inline(always)]
    pub fn fill(self, units: &mut [Unit], tables: &Tables)
        requires plain { IsEncoded (source_seen self) → ⊥ }
        requires well_formed { IsWellFormed (source_seen self) }
        requires fits { size_of (source_seen self) ≤ length units.old }
        ensures len { length units.new ≡ length units.old }
        ensures units { take (size_of (source_seen self.entry)) units.new
            ≡ units_of tables.now (source_seen self.entry) }
    {
        match self {
            Source::Codes(codes) => fill_codes(units, tables, codes),
            Source::Classes(numbers) => fill_classes(units, numbers),
            Source::Units(numbered) => fill_units(units, numbered),
            Source::Utf8(_, _) | Source::Utf16(_, _) => unreachable!(),
        }
    }

    /// Does what `fill` does. Returns the set of the classes of these units, or `None` if it isn't known.
    // Inlined, a call on a short text takes fewer instructions.
    #[inline(always)]
    pub fn look_up(self, units: &mut [Unit], tables: &Tables) -> Option<ClassSet>
        requires plain { IsEncoded (source_seen self) → ⊥ }
        requires well_formed { IsWellFormed (source_seen self) }
        requires fits { size_of (source_seen self) ≤ length units.old }
        ensures len { length units.new ≡ length units.old }
        ensures units { take (size_of (source_seen self.entry)) units.new
            ≡ units_of tables.now (source_seen self.entry) }
        ensures classes { IfSome result
            (λ set. IsSetOf set (classes_of (take (size_of (source_seen self.entry)) units.new))) }
    {
        match self {
            Source::Codes(codes) => look_up_codes(units, tables, codes),
            Source::Classes(numbers) => {
                fill_classes(units, numbers);
                None
            }
            Source::Units(numbered) => {
                fill_units(units, numbered);
                None
            }
            Source::Utf8(_, _) | Source::Utf16(_, _) => unreachable!(),
        }
    }
}

/// A text, and how to lay it out.
#[derive(Drop)]
pub struct Ask<'t> {
    /// The text.
    pub source: Source<'t>,
    /// The direction of its paragraphs.
    pub direction: Direction,
    /// Where new lines begin: rising offsets in the units of the source. A character must begin at each of them, and
    /// none may be 0.
    pub breaks: &'t [usize],
    /// How deep explicit levels go (BD2), and how many brackets can be open at once (BD16).
    pub limits: Limits,
}

impl<'t> Model for Ask<'t> {
    ghost use Rattle.sources.specs.Asks.{AskOf};

    ghost Value = { AskOf };

    ghost use Rattle.sources.specs.Seen.{source_seen};

    ghost view = { λ a. record {
      source = source_seen a.source;
      direction = a.direction;
      breaks = a.breaks.now;
      limits = a.limits;
    } };
}
