// Rows of classes files.
ghost use Rattle.std.specs.Prelude.{◌≡◌, ◌+◌, ◌*◌, ◌≤◌, IfOk, length, vec_capacity};
ghost use Rattle.units.specs.Text.{fields_of};
ghost use Rattle.bidtests.specs.ClassesFile.{classes_row};
ghost use Rattle.bidtests.specs.Readings.{row_read};

use crate::directions::directions;
use crate::item::{ClassItems, read_items};
use crate::verdict::Cause;
use units::bracket::Unit;
use units::level::Direction;
use units::text::cut::two_fields;

/// Reads the text of a row into the list, and returns the row's directions.
pub fn read_classes_row(content: &[u8], text: &mut Vec<Unit>) -> Result<&'static [Direction], Cause>
    requires { length content.now ≤ 2 * vec_capacity text.old }
    ensures row { row_read result text.new.items ≡ classes_row (fields_of content.now) }
    ensures count { 2 * length text.new.items ≤ length content.now + 1 }
    ensures room { vec_capacity text.new ≡ vec_capacity text.old }
    ensures few { IfOk result (λ directions. length directions.now ≤ 4) }
{
    let Some((names, bits)) = two_fields(content) else {
        text.clear();
        return Err(Cause::FieldCount);
    };
    if !read_items(&ClassItems, names, text) {
        return Err(Cause::ClassItem);
    }
    if text.is_empty() {
        return Err(Cause::EmptyRow);
    }
    directions(bits).ok_or(Cause::BitSet)
}
