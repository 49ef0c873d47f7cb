//! What comes out of a row.

use crate::options::{Options, Shown};
use crate::pieces::push_pieces;
use crate::printed::{Printed, Setting};
use crate::shown::{push_lengths, push_text};
use crate::writer::Taking;
use anyhow::{Result, bail};
use printing::form::Form;
use row_files::bytes::bytes_of;
use row_files::words::{classes_of, number_of, numbers_of, push_word, text_of};
use rows::letter::Letter;
use rows::letters::{character_letters, class_letters};
use rows::naming::Naming;
use std::alloc::{AllocError, Global};
use ucdfiles::bracket_table::BracketTable;
use ucdfiles::class_table::ClassTable;
use ucdfiles::fault::TableFault;
use ucdfiles::mirror_table::MirrorTable;
use ucdfiles::small::{BRACKETS, CLASSES};
use ucdfiles::tables::Tables;
use units::bracket::Unit;
use units::class::Class;
use units::level::Direction;
use units::slice_source::SliceSource;

/// Returns the tables of the small files, but with the mirrored characters of this file.
pub fn tables_with(alloc: Global, mirrors: &[u8]) -> Result<Tables, TableFault> {
    Ok(Tables::new(
        ClassTable::read(alloc, &mut SliceSource::new(CLASSES))?,
        BracketTable::read(alloc, &mut SliceSource::new(BRACKETS))?,
        MirrorTable::read(alloc, &mut SliceSource::new(mirrors))?,
    ))
}

/// What a row asks for.
#[derive(Clone, Copy)]
pub struct Asked<'a> {
    pub alloc: Global,
    pub tables: &'a Tables,
    pub options: &'a Options,
}

impl Asked<'_> {
    /// Prints under a direction, and appends what comes out.
    fn push_printed(
        &self,
        printed: Printed<'_>,
        direction: Direction,
        out: &mut String,
    ) -> Result<()> {
        let setting = Setting {
            alloc: self.alloc,
            tables: self.tables,
            direction,
        };
        let mut w = Taking::new(self.alloc, self.options.manner);
        w.only_counts = matches!(self.options.shown, Shown::Bytes);
        let outcome = setting.print(&mut w, printed);
        match self.options.shown {
            Shown::Text => push_text(self.alloc, out, printed.is_shown(), w.bytes())?,
            Shown::Bytes => push_word(out, w.len())?,
            Shown::Lines => push_lengths(out, w.bytes())?,
            Shown::Pieces => push_pieces(printed, setting, w, out)?,
        }
        if let Err(stop) = outcome {
            push_word(out, format_args!("| {stop}"))?;
        }
        Ok(())
    }

    /// Prints under the direction of the row, and appends what comes out.
    fn push(&self, printed: Printed<'_>, out: &mut String) -> Result<()> {
        self.push_printed(printed, self.options.direction()?, out)
    }

    /// Returns the bytes of the text in a field.
    fn bytes(&self, field: &str) -> Result<Vec<u8>> {
        if field.starts_with('"') {
            bytes_of(self.alloc, field)
        } else {
            Ok(text_of(self.alloc, field)?.into_bytes())
        }
    }

    /// Prints a text while it is read. Returns what comes out.
    fn while_read(&self, bytes: &[u8], form: Form) -> Result<String> {
        if self.options.failing_after.unwrap_or(0) > bytes.len() {
            bail!("the text is shorter");
        }
        let mut out = String::new(self.alloc);
        let source = Printed::Source {
            bytes,
            failing_after: self.options.failing_after,
            form,
        };
        self.push(source, &mut out)?;
        Ok(out)
    }

    /// Prints a text that is passed as a list of characters, and appends what comes out.
    fn push_passed(&self, text: &str, form: Form, out: &mut String) -> Result<()> {
        let chars: Vec<char> = text.chars().collect(self.alloc)?;
        let text = Printed::Text {
            chars: &chars,
            form,
        };
        self.push(text, out)
    }

    /// Appends what comes out of a text in a form. If the text can be passed as a list of characters, the same must
    /// come out while it is read.
    fn push_text(&self, form: Form, field: &str, out: &mut String) -> Result<()> {
        let bytes = self.bytes(field)?;
        match str::from_utf8(&bytes) {
            Ok(text) if self.options.is_passed => self.push_passed(text, form, out)?,
            _ => return Ok(out.push_str(&self.while_read(&bytes, form)?)?),
        }
        if self.options.is_read {
            let read = self.while_read(&bytes, form)?;
            if read.as_str() != out.as_str() {
                push_word(out, format_args!("| but while it is read: {read}"))?;
            }
        }
        Ok(())
    }

    /// Appends what the rules do to the classes or the text in a field.
    fn push_explained(&self, field: &str, out: &mut String) -> Result<()> {
        if self.options.has_classes {
            let classes = classes_of(self.alloc, field)?;
            return self.push(Printed::ExplainedClasses { classes: &classes }, out);
        }
        let text = text_of(self.alloc, field)?;
        let chars: Vec<char> = text.chars().collect(self.alloc)?;
        self.push(Printed::Explained { chars: &chars }, out)
    }

    /// Appends the lines of a text in a file of classes.
    fn push_class_lines(&self, chars: &[char], out: &mut String) -> Result<()> {
        let naming = Naming::Classes(self.tables);
        let letters: Vec<Letter> = chars
            .iter()
            .map(|code| naming.letter(*code))
            .collect(self.alloc)?;
        let units: Vec<Unit> = letters
            .iter()
            .map(|letter| letter.unit())
            .collect(self.alloc)?;
        let lines = Printed::ClassLines {
            letters: &letters,
            units: &units,
        };
        self.push(lines, out)
    }

    /// Appends the rows of the text in a field.
    fn push_rows(&self, field: &str, out: &mut String) -> Result<()> {
        let text = text_of(self.alloc, field)?;
        let chars: Vec<char> = text.chars().collect(self.alloc)?;
        if self.options.has_classes {
            return self.push_class_lines(&chars, out);
        }
        let rows = Printed::CharacterRows {
            chars: &chars,
            directions: &self.options.directions,
        };
        self.push_printed(rows, Direction::Auto, out)
    }

    /// Appends the positions in a field, as rows have them.
    fn push_positions(&self, field: &str, out: &mut String) -> Result<()> {
        let order = numbers_of(self.alloc, field)?;
        self.push_printed(Printed::Positions { order: &order }, Direction::Auto, out)
    }

    /// Returns how many letters are made of so many classes or characters.
    fn letters_made(&self, count: usize) -> Result<usize, AllocError> {
        let letters = if self.options.has_classes {
            let classes = vec![in self.alloc; Class::R; count]?;
            class_letters(self.alloc, &classes)
        } else {
            let characters = vec![in self.alloc; '('; count]?;
            character_letters(self.alloc, self.tables, &characters)
        };
        Ok(letters.map_err(|_| AllocError)?.len())
    }

    /// Appends what comes out of a verb and its input.
    pub fn come_out(&self, verb: &str, input: &str, out: &mut String) -> Result<()> {
        let columns = self.options.columns;
        match verb {
            "levels" => self.push_text(Form::Levels, input, out),
            "reorder" => self.push_text(Form::Reorder { columns }, input, out),
            "explain" => self.push_explained(input, out),
            "rows" => self.push_rows(input, out),
            "positions" => self.push_positions(input, out),
            "letters" => Ok(push_word(out, self.letters_made(number_of(input)?)?)?),
            _ => bail!("no verb is named {verb}"),
        }
    }
}
