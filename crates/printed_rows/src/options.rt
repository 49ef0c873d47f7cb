//! The options of a row, in one field with commas between them.

use crate::writer::Manner;
use anyhow::{Context, Result, bail};
use row_files::bytes::bytes_of;
use row_files::words::{direction_of, error_kind_of, number_of};
use std::alloc::Global;
use std::num::NonZeroU16;
use units::level::Direction;

/// What comes out of a row.
#[derive(Clone, Copy)]
pub enum Shown {
    /// What the writer has.
    Text,
    /// How many bytes the writer has: `bytes`.
    Bytes,
    /// How many bytes each line has before its LF: `lines`.
    Lines,
    /// The pieces that a failing writer gets one by one: `pieces`.
    Pieces,
}

/// The options of a row.
#[derive(Drop)]
pub struct Options {
    /// The directions under which a text is printed, by their names. Most verbs take one.
    pub directions: Vec<Direction>,
    /// After how many positions a line breaks: `columns N`.
    pub columns: Option<NonZeroU16>,
    /// The file of mirrored characters: `mirrors "FILE"`.
    pub mirrors: Option<Vec<u8>>,
    /// Whether the input is classes: `classes`, or `characters`.
    pub has_classes: bool,
    /// Whether a text is printed as a list of characters: not so with `read`.
    pub is_passed: bool,
    /// Whether a text is printed while it is read: not so with `passed`.
    pub is_read: bool,
    /// After how many bytes the source of a text that is read fails: `failing after N`.
    pub failing_after: Option<usize>,
    /// How the writer takes bytes: `ends at N`, `error KIND at write N` or `error KIND at flush N`.
    pub manner: Manner,
    /// What comes out.
    pub shown: Shown,
}

impl Options {
    /// Returns the options of a row that names none.
    fn new(alloc: Global) -> Options {
        Options {
            directions: Vec::new(alloc),
            columns: None,
            mirrors: None,
            has_classes: false,
            is_passed: true,
            is_read: true,
            failing_after: None,
            manner: Manner::TakesAll,
            shown: Shown::Text,
        }
    }

    /// Returns the direction. Fails if there are none or several.
    pub fn direction(&self) -> Result<Direction> {
        match *self.directions.as_slice() {
            [direction] => Ok(direction),
            _ => bail!("this verb takes one direction"),
        }
    }

    /// Takes an option of one word.
    fn take_flag(&mut self, name: &str) -> Result<()> {
        match name {
            "classes" => self.has_classes = true,
            "characters" => self.has_classes = false,
            "read" => self.is_passed = false,
            "passed" => self.is_read = false,
            "bytes" => self.shown = Shown::Bytes,
            "lines" => self.shown = Shown::Lines,
            "pieces" => self.shown = Shown::Pieces,
            _ => self.directions.push(direction_of(name)?)?,
        }
        Ok(())
    }

    /// Takes an option of several words.
    fn take_words(&mut self, words: &[&str]) -> Result<()> {
        match *words {
            ["columns", count] => {
                let columns = NonZeroU16::new(u16::try_from(number_of(count)?)?);
                self.columns = Some(columns.context("no line has 0 columns")?);
            }
            ["failing", "after", count] => self.failing_after = Some(number_of(count)?),
            ["ends", "at", count] => self.manner = Manner::Ends(number_of(count)?),
            ["error", kind, "at", "write", number] => {
                self.manner = Manner::FailsFrom(number_of(number)?, error_kind_of(kind)?);
            }
            ["error", kind, "at", "flush", number] => {
                self.manner = Manner::FlushesUntil(number_of(number)?, error_kind_of(kind)?);
            }
            _ => bail!("no option has these words"),
        }
        Ok(())
    }

    /// Takes an option.
    fn take(&mut self, alloc: Global, option: &str) -> Result<()> {
        if let Some(file) = option.strip_prefix("mirrors ") {
            self.mirrors = Some(bytes_of(alloc, file)?);
            return Ok(());
        }
        let words: Vec<&str> = option.split_whitespace().collect(alloc)?;
        match *words.as_slice() {
            [] => Ok(()),
            [name] => self.take_flag(name),
            _ => self.take_words(&words),
        }
    }

    /// Reads the options in a field.
    pub fn of_field(alloc: Global, field: &str) -> Result<Options> {
        let mut options = Options::new(alloc);
        for option in field.split(',') {
            options.take(alloc, option.trim())?;
        }
        Ok(options)
    }
}
