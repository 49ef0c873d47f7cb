//! The properties of a code point.
ghost use Rattle.std.specs.Prelude.{◌≡◌};
ghost use Rattle.for_c.specs.Properties.{IsBracketOf, IsClassOf, RejectsCode};
ghost use Rattle.for_c.specs.Statuses.{ReturnsStatus, Puts};
ghost use Rattle.bidi_c.specs.AtHandles.{AtTables};
ghost use Rattle.bidi_c.specs.ContentsAt.{contents_at, tables_at};

use crate::bidi_handle::BidiHandle;
use crate::putting::put;
use for_c::call_error::{CallError, status};
use for_c::properties::{bracket_of, class_of};

/// Writes the number of the class of a code point to `class`. If there are no tables, or the code point isn't a scalar
/// value, `class` is unchanged.
#[unsafe(no_mangle)]
#[tactic(auto, using(crate::proofs::Needed::no_tables, crate::proofs::Needed::not_contained))]
pub extern "C" fn bidi_class(tables: &mut BidiHandle, code: u32, class: &mut u8) -> u32
    ensures tables { contents_at tables.new ≡ contents_at tables.old }
    ensures class { ReturnsStatus (AtTables (tables_at tables.old) (λ by. Puts (IsClassOf by code) (RejectsCode code))
        class.old class.new) result }
{
    match tables.tables() {
        Some(by) => status(put(class_of(by, code), class)),
        None => status(Err(CallError::NoTables)),
    }
}

/// Writes to `bracket` what a code point does as a bracket (BD14, BD15): 0 if it is none, 1 if it opens, 2 if it
/// closes. If there are no tables, or the code point isn't a scalar value, `bracket` is unchanged.
#[unsafe(no_mangle)]
#[tactic(auto, using(crate::proofs::Needed::no_tables, crate::proofs::Needed::not_contained))]
pub extern "C" fn bidi_bracket(tables: &mut BidiHandle, code: u32, bracket: &mut u8) -> u32
    ensures tables { contents_at tables.new ≡ contents_at tables.old }
    ensures bracket { ReturnsStatus (AtTables (tables_at tables.old) (λ by.
        Puts (IsBracketOf by code) (RejectsCode code))
        bracket.old bracket.new) result }
{
    match tables.tables() {
        Some(by) => status(put(bracket_of(by, code), bracket)),
        None => status(Err(CallError::NoTables)),
    }
}
