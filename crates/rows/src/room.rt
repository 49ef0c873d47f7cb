//! The memory with which the rows of texts are made.
ghost use Rattle.std.specs.Prelude.{◌≡◌, ◌≤◌, length, IfOk};
ghost use Rattle.rows.specs.RowTexts.{longest_row};
ghost use Rattle.rows.specs.Rooms.{HasRowRoom};

use crate::letter::Letter;
use lines::scratch::Scratch;
use std::alloc::Global;
use units::bracket::{Bracket, Unit};
use units::class::Class;
use units::memory::Memory;

/// The `Scratch` in which a text is laid out, and the units of its letters.
#[derive(Drop)]
pub struct RowRoom {
    pub scratch: Scratch,
    pub units: Vec<Unit>,
}

/// Returns `len` units, which are of no text.
fn units_for(alloc: Global, len: usize) -> Result<Vec<Unit>, Memory>
    ensures { IfOk result (λ units. length units.items ≡ len) }
{
    let unit = Unit {
        class: Class::L,
        bracket: Bracket::No,
    };
    Ok(vec![in alloc; unit; len]?)
}

/// Returns capacity for texts of up to this length. Fails if memory runs out.
pub fn room_for_rows(alloc: Global, len: usize) -> Result<RowRoom, Memory>
    requires { len ≤ longest_row }
    ensures { IfOk result (HasRowRoom len) }
{
    Ok(RowRoom {
        scratch: Scratch::reserve(alloc, len)?,
        units: units_for(alloc, len)?,
    })
}

/// Returns space for the letters of the longest text. Fails if memory runs out.
pub fn letters_for(alloc: Global, len: usize) -> Result<Vec<Letter>, Memory>
    ensures { IfOk result (λ text. length text.items ≡ len) }
{
    Ok(vec![in alloc; Letter::Class(Class::L); len]?)
}
