// Rows of characters files.
ghost use Rattle.std.specs.Prelude.{◌≡◌, ◌≢◌, ◌+◌, ◌*◌, ◌≤◌, length, vec_capacity, MatchOption, IfSome, IfOk};
ghost use Rattle.units.specs.Text.{fields_of};
ghost use Rattle.bidtests.specs.CharactersFile.{direction_field, para_field, characters_row};
ghost use Rattle.ucdfiles.specs.Tables.{unit_by};
ghost use Rattle.bidtests.specs.Readings.{expected_read, fields_in};

use crate::item::{CharacterItems, LevelItems, OrderItems};
use crate::short_items::read_list;
use crate::verdict::Cause;
use ucdfiles::tables::Tables;
use units::bracket::Unit;
use units::level::{Direction, Level, ParaLevel};
use units::text::cut::cut_field;

/// The fields of a row, without the blanks at their ends.
#[derive(Clone, Copy)]
struct RowFields<'a> {
    characters: &'a [u8],
    direction: &'a [u8],
    para_level: &'a [u8],
    levels: &'a [u8],
    order: &'a [u8],
}

/// Returns the fields of a content, if there are exactly five.
fn fields(content: &[u8]) -> Option<RowFields<'_>>
    ensures fields { MatchOption result (length (fields_of content.now) ≢ 5)
        (λ row. fields_of content.now ≡ fields_in row) }
    ensures characters { IfSome result (λ f. length f.characters.now ≤ length content.now) }
    ensures levels { IfSome result (λ f. length f.levels.now ≤ length content.now) }
    ensures order { IfSome result (λ f. length f.order.now ≤ length content.now) }
{
    let (characters, rest) = cut_field(content);
    let (direction, rest) = cut_field(rest?);
    let (para_level, rest) = cut_field(rest?);
    let (levels, rest) = cut_field(rest?);
    let (order, rest) = cut_field(rest?);
    match rest {
        None => Some(RowFields {
            characters,
            direction,
            para_level,
            levels,
            order,
        }),
        Some(_) => None,
    }
}

fn direction(field: &[u8]) -> Option<Direction>
    ensures { result ≡ direction_field field.now }
{
    match field {
        b"0" => Some(Direction::Ltr),
        b"1" => Some(Direction::Rtl),
        b"2" => Some(Direction::Auto),
        b"3" => Some(Direction::AutoRtl),
        _ => None,
    }
}

fn para_level(field: &[u8]) -> Option<ParaLevel>
    ensures { result ≡ para_field field.now }
{
    match field {
        b"0" => Some(ParaLevel::Zero),
        b"1" => Some(ParaLevel::One),
        _ => None,
    }
}

/// Reads the text of a row and its expected lists. Returns the row's direction and the expected level of the first
/// paragraph.
pub fn read_characters_row(
    content: &[u8],
    tables: &Tables,
    text: &mut Vec<Unit>,
    levels: &mut Vec<Option<Level>>,
    order: &mut Vec<usize>,
) -> Result<(Direction, ParaLevel), Cause>
    requires text { length content.now ≤ 2 * vec_capacity text.old }
    requires levels { length content.now ≤ 2 * vec_capacity levels.old }
    requires order { length content.now ≤ 2 * vec_capacity order.old }
    ensures row { expected_read result text.new.items levels.new.items order.new.items
        ≡ characters_row (unit_by tables.now) (fields_of content.now) }
    ensures count { IfOk result (λ _. 2 * length text.new.items ≤ length content.now + 1) }
    ensures text { vec_capacity text.new ≡ vec_capacity text.old }
    ensures levels { vec_capacity levels.new ≡ vec_capacity levels.old }
    ensures order { vec_capacity order.new ≡ vec_capacity order.old }
{
    let Some(fields) = fields(content) else {
        return Err(Cause::FieldCount);
    };
    if !read_list(&CharacterItems { tables }, fields.characters, text) {
        return Err(Cause::CodePoint);
    }
    if text.is_empty() {
        return Err(Cause::EmptyRow);
    }
    let direction = direction(fields.direction).ok_or(Cause::DirectionField)?;
    let para_level = para_level(fields.para_level).ok_or(Cause::ParaField)?;
    if !read_list(&LevelItems, fields.levels, levels) {
        return Err(Cause::LevelItem);
    }
    if !read_list(&OrderItems, fields.order, order) {
        return Err(Cause::OrderItem);
    }
    Ok((direction, para_level))
}
