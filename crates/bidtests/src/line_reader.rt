//! Reading of the lines of a test file, one after the other, by the grammar of its kind.
ghost use Rattle.std.specs.Prelude.{◌≡◌, ◌≤◌, IfOk, IfSome, IsNone, IsSome, OnOk, length, vec_capacity};
ghost use Rattle.units.specs.Text.{fields_of, longest_line};
ghost use Rattle.bidtests.specs.ClassesFile.{classes_line, directive, levels_by_directive, order_by_directive, classes_row};
ghost use Rattle.bidtests.specs.CharactersFile.{characters_line, characters_row};
ghost use Rattle.ucdfiles.specs.Tables.{unit_by};
ghost use Rattle.bidtests.specs.LineReadings.{HasFewDirections};

use crate::characters_row::read_characters_row;
use crate::classes_row::read_classes_row;
use crate::directions::alone;
use crate::expected::Expected;
use crate::item::{LevelItems, OrderItems, read_items};
use crate::kind::Kind;
use crate::names::first_name;
use crate::plain_row::read_plain_row;
use crate::verdict::Cause;
use std::alloc::Global;
use std::marker::Model;
use ucdfiles::tables::Tables;
use units::bracket::Unit;
use units::level::{Direction, Level, ParaLevel};
use units::memory::Memory;
use units::text::trim::content;

/// The maximum number of units of a text: a line has at most 65,536 bytes, and each item takes at least two of them,
/// with the blank before it.
pub const MOST_UNITS: usize = 32_768;

/// What a row has besides its text and its expected lists, which the reader stores.
#[derive(Clone, Copy)]
pub struct Asked {
    /// The directions that the row names, each once, in the order auto, LTR, RTL, AutoRtl.
    pub directions: &'static [Direction],
    /// The expected level of the first paragraph; rows of classes have none.
    pub para_level: Option<ParaLevel>,
}

/// Reads lines, one after the other. It stores the text of the row that was read last, and the lists in force or those
/// of that row. Each of its three lists has capacity for `MOST_UNITS` items at all times.
#[derive(Drop)]
pub struct LineReader {
    text: Vec<Unit>,
    levels: Vec<Option<Level>>,
    has_levels: bool,
    order: Vec<usize>,
    has_order: bool,
}

impl Model for LineReader {
    ghost use Rattle.std.specs.Prelude.{◌≡◌, vec_capacity};
    ghost use Rattle.bidtests.specs.LineReadings.{LineReading};
    ghost use Rattle.bidtests.specs.declared.line_reader.TheConstants.{MOST_UNITS};

    ghost Value = { LineReading };

    ghost view = { λ s. record {
      text = s.text.items;
      levels = s.levels.items;
      has_levels = s.has_levels;
      order = s.order.items;
      has_order = s.has_order;
    } };

    ghost invariant = { λ s. (vec_capacity s.text ≡ MOST_UNITS)
        × (vec_capacity s.levels ≡ MOST_UNITS) × (vec_capacity s.order ≡ MOST_UNITS) };
}

// Returns an empty list with capacity for the items of the longest row, and for no more.
fn list<T: Copy>(alloc: Global) -> Result<Vec<T>, Memory>
    ensures { IfOk result (λ list. vec_capacity list ≡ MOST_UNITS) }
{
    Ok(Vec::with_capacity(alloc, MOST_UNITS)?)
}

impl LineReader {
    ghost use Rattle.bidtests.specs.LineReadings.{LineReading, expected_in, finding_by, finding_read};
    ghost use Rattle.bidtests.specs.LineReadings.{finding_after, HasListed, HasNoList, IsAfterOneLine};
    ghost use Rattle.bidtests.specs.LineReadings.{levels_in, order_in};
    ghost use Rattle.bidtests.specs.ClassesFile.{row_under};
    ghost use Rattle.bidtests.specs.Readings.{expected_of};

    /// Creates a reader before the first line.
    pub fn new(alloc: Global) -> Result<Self, Memory>
        ensures { IfOk result HasNoList }
    {
        let text = list(alloc)?;
        let levels = list(alloc)?;
        let order = list(alloc)?;
        Ok(LineReader {
            text,
            levels,
            has_levels: false,
            order,
            has_order: false,
        })
    }

    /// Reads the levels of `@Levels:`, which are then in force.
    fn set_levels(&mut self, field: &[u8]) -> Result<Option<Asked>, Cause>
        requires { length field.now ≤ longest_line }
        ensures found { finding_read result self.new ≡ finding_by self.old (levels_by_directive field.now) }
        ensures lists { OnOk result (HasListed (levels_by_directive field.now) self.old self.new) }
        ensures silent { IfOk result IsNone }
    {
        self.has_levels = read_items(&LevelItems, field, &mut self.levels);
        if self.has_levels {
            Ok(None)
        } else {
            Err(Cause::LevelItem)
        }
    }

    /// Reads the order of `@Reorder:`, which is then in force.
    fn set_order(&mut self, field: &[u8]) -> Result<Option<Asked>, Cause>
        requires { length field.now ≤ longest_line }
        ensures found { finding_read result self.new ≡ finding_by self.old (order_by_directive field.now) }
        ensures lists { OnOk result (HasListed (order_by_directive field.now) self.old self.new) }
        ensures silent { IfOk result IsNone }
    {
        self.has_order = read_items(&OrderItems, field, &mut self.order);
        if self.has_order {
            Ok(None)
        } else {
            Err(Cause::OrderItem)
        }
    }

    /// Reads a content that begins with `@`.
    fn read_directive(&mut self, content: &[u8]) -> Result<Option<Asked>, Cause>
        requires { length content.now ≤ longest_line }
        ensures found { finding_read result self.new ≡ finding_by self.old (directive content.now) }
        ensures lists { OnOk result (HasListed (directive content.now) self.old self.new) }
        ensures silent { IfOk result IsNone }
    {
        if content.starts_with(b"@Type:") {
            Ok(None)
        } else if content.starts_with(b"@Levels:") {
            self.set_levels(&content[8..])
        } else if content.starts_with(b"@Reorder:") {
            self.set_order(&content[9..])
        } else {
            Err(Cause::Directive)
        }
    }

    /// Returns what a row of classes asks for, of which the text was read. It expects the lists in force.
    fn asked(&self, directions: &'static [Direction]) -> Result<Option<Asked>, Cause>
        requires { length directions.now ≤ 4 }
        ensures found { finding_read result self.now
            ≡ row_under self.now.text directions.now (levels_in self.now) (order_in self.now) }
        ensures few { IfOk result (λ row. IfSome row HasFewDirections) }
    {
        if !self.has_levels || !self.has_order {
            return Err(Cause::NoExpectation);
        }
        Ok(Some(Asked {
            directions,
            para_level: None,
        }))
    }

    /// Reads a row of classes, which expects the lists in force.
    fn read_classes(&mut self, content: &[u8]) -> Result<Option<Asked>, Cause>
        requires { length content.now ≤ longest_line }
        ensures found { finding_read result self.new
            ≡ finding_by self.old (classes_row (fields_of content.now)) }
        ensures lists { OnOk result (HasListed (classes_row (fields_of content.now)) self.old self.new) }
        ensures fits { OnOk result (length self.new.text ≤ MOST_UNITS) }
        ensures few { IfOk result (λ row. IfSome row HasFewDirections) }
    {
        let directions = read_classes_row(content, &mut self.text)?;
        self.asked(directions)
    }

    /// Reads a line that is a row of classes in its usual form, and does what `read_classes_line` does for it. Returns
    /// `None` for every other line.
    fn read_plain(&mut self, line: &[u8]) -> Option<Result<Option<Asked>, Cause>>
        requires { length line.now ≤ longest_line }
        ensures found { IfSome result (λ read. finding_read read self.new
            ≡ finding_by self.old (classes_line line.now)) }
        ensures lists { IfSome result (λ read. OnOk read (HasListed (classes_line line.now) self.old self.new)) }
        ensures fits { IfSome result (λ read. OnOk read (length self.new.text ≤ MOST_UNITS)) }
        ensures few { IfSome result (λ read. IfOk read (λ row. IfSome row HasFewDirections)) }
        ensures levels { levels_in self.new ≡ levels_in self.old }
        ensures order { order_in self.new ≡ order_in self.old }
    {
        // A line that begins otherwise leaves the text of the row before.
        first_name(line)?;
        let directions = read_plain_row(line, &mut self.text)?;
        Some(self.asked(directions))
    }

    /// Reads a row of characters, which has its own lists.
    fn read_characters(&mut self, content: &[u8], tables: &Tables) -> Result<Option<Asked>, Cause>
        requires short { length content.now ≤ longest_line }
        requires lists { HasNoList self.old }
        ensures found { finding_read result self.new
            ≡ characters_row (unit_by tables.now) (fields_of content.now) }
        ensures lists { HasNoList self.new }
        ensures fits { OnOk result (length self.new.text ≤ MOST_UNITS) }
        ensures few { IfOk result (λ row. IfSome row HasFewDirections) }
    {
        let (direction, para_level) = read_characters_row(
            content,
            tables,
            &mut self.text,
            &mut self.levels,
            &mut self.order,
        )?;
        Ok(Some(Asked {
            directions: alone(direction),
            para_level: Some(para_level),
        }))
    }

    fn read_classes_line(&mut self, line: &[u8]) -> Result<Option<Asked>, Cause>
        requires { length line.now ≤ longest_line }
        ensures found { finding_read result self.new ≡ finding_by self.old (classes_line line.now) }
        ensures lists { OnOk result (HasListed (classes_line line.now) self.old self.new) }
        ensures fits { IfOk result (λ row. IsSome row → length self.new.text ≤ MOST_UNITS) }
        ensures few { IfOk result (λ row. IfSome row HasFewDirections) }
    {
        if let Some(read) = self.read_plain(line) {
            return read;
        }
        let content = content(line);
        if content.is_empty() {
            Ok(None)
        } else if content[0] == b'@' {
            self.read_directive(content)
        } else {
            self.read_classes(content)
        }
    }

    /// Reads a line of a characters file, which has no lists in force.
    fn read_characters_line(&mut self, line: &[u8], tables: &Tables) -> Result<Option<Asked>, Cause>
        requires { length line.now ≤ longest_line }
        ensures found { finding_read result self.new ≡ characters_line (unit_by tables.now) line.now }
        ensures lists { HasNoList self.new }
        ensures fits { IfOk result (λ row. IsSome row → length self.new.text ≤ MOST_UNITS) }
        ensures few { IfOk result (λ row. IfSome row HasFewDirections) }
    {
        self.has_levels = false;
        self.has_order = false;
        let content = content(line);
        if content.is_empty() {
            Ok(None)
        } else {
            self.read_characters(content, tables)
        }
    }

    /// Reads the next line of a file of this kind. Returns the row, if the line is one; its text and its lists are then
    /// in the reader (`expected`). The error is the cause for which the line is malformed.
    pub fn read_line(&mut self, kind: Kind<'_>, line: &[u8]) -> Result<Option<Asked>, Cause>
        requires { length line.now ≤ longest_line }
        ensures found { finding_read result self.new ≡ finding_after kind.entry self.old line.now }
        ensures lists { OnOk result (IsAfterOneLine kind.entry line.now self.old self.new) }
        ensures fits { IfOk result (λ row. IsSome row → length self.new.text ≤ MOST_UNITS) }
        ensures few { IfOk result (λ row. IfSome row HasFewDirections) }
    {
        match kind {
            Kind::Classes => self.read_classes_line(line),
            Kind::Characters(tables) => self.read_characters_line(line, tables),
        }
    }

    /// Returns what the row that was read last expects. The caller must pass what `read_line` returned for it.
    pub fn expected(&self, asked: Asked) -> Expected<'_>
        ensures { expected_of result ≡ expected_in self.now asked }
    {
        Expected {
            text: &self.text,
            directions: asked.directions,
            para_level: asked.para_level,
            levels: &self.levels,
            order: &self.order,
        }
    }
}
