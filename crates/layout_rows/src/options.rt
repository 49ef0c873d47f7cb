//! The options of a text, in one field with commas between them.

use crate::given::codes_of;
use anyhow::{Result, bail};
use decoding::fault::Faults;
use row_files::words::{direction_of, number_of, numbers_of};
use std::alloc::Global;
use units::level::Direction;
use units::limits::Limits;

/// The form in which a text is given.
#[derive(Clone, Copy, PartialEq, Eq)]
pub enum Form {
    /// The names of classes; a number is that of a class.
    Classes,
    /// Code points.
    Codes,
    /// Bytes of UTF-8.
    Utf8,
    /// Code units of UTF-16.
    Utf16,
    /// Code points of a `Text`, which has a layout of its own.
    Text,
    /// No text: that of the room is broken into lines again.
    Again,
}

/// The options of a text.
#[derive(Drop)]
pub struct Options {
    /// Its form: `classes`, `codes`, `utf8`, `utf16`, `text` or `again`.
    pub form: Form,
    /// What is done about code units that are part of no character: `replaced`, or else they are rejected.
    pub faults: Faults,
    /// The direction of its paragraphs.
    pub direction: Direction,
    /// The limits of its layout: `depth N` and `brackets N`.
    pub limits: Limits,
    /// Where new lines begin: `at N ..`.
    pub breaks: Vec<usize>,
    /// How many units its room is for, if not for as many as the text has: `in N`.
    pub capacity: Option<usize>,
    /// Whether a room for classes or code points has offsets: `offsets`.
    pub offsets: bool,
    /// Where a line begins that is laid out alone, and where it ends: `from N` and `to N`.
    pub line: (usize, usize),
    /// How many items the two lists for that line have, if not as many as the text has units: `lists N N`.
    pub lists: Option<(usize, usize)>,
    /// The code points as which the text is shown: `as CODE ..`.
    pub shown_as: Vec<u32>,
    /// How many calls lay out the text: `times N`.
    pub times: usize,
}

/// Returns a limit, which a word writes as a number.
fn limit_of(word: &str) -> Result<u8> {
    Ok(u8::try_from(number_of(word)?)?)
}

/// Returns the limits with this depth and number of brackets. Fails if they are not allowed.
fn limits_of(depth: u8, brackets: u8) -> Result<Limits> {
    match Limits::new(depth, brackets) {
        Ok(limits) => Ok(limits),
        Err(fault) => bail!("limits that are not allowed: {fault:?}"),
    }
}

/// Returns the two numbers that a value writes.
fn two_numbers(alloc: Global, value: &str) -> Result<(usize, usize)> {
    match *numbers_of(alloc, value)?.as_slice() {
        [first, second] => Ok((first, second)),
        _ => bail!("lists are two numbers"),
    }
}

impl Options {
    /// Returns the options of a text that names none.
    fn new(alloc: Global) -> Options {
        Options {
            form: Form::Classes,
            faults: Faults::Rejected,
            direction: Direction::Auto,
            limits: Limits::standard(),
            breaks: Vec::new(alloc),
            capacity: None,
            offsets: false,
            line: (0, 0),
            lists: None,
            shown_as: Vec::new(alloc),
            times: 1,
        }
    }

    /// Takes an option without a value.
    fn take_flag(&mut self, name: &str) -> Result<()> {
        match name {
            "classes" => self.form = Form::Classes,
            "codes" => self.form = Form::Codes,
            "utf8" => self.form = Form::Utf8,
            "utf16" => self.form = Form::Utf16,
            "text" => self.form = Form::Text,
            "again" => self.form = Form::Again,
            "replaced" => self.faults = Faults::Replaced,
            "offsets" => self.offsets = true,
            _ => self.direction = direction_of(name)?,
        }
        Ok(())
    }

    /// Takes an option with a value.
    fn take_value(&mut self, alloc: Global, name: &str, value: &str) -> Result<()> {
        let Options { limits, line, .. } = *self;
        match name {
            "depth" => self.limits = limits_of(limit_of(value)?, limits.brackets())?,
            "brackets" => self.limits = limits_of(limits.depth(), limit_of(value)?)?,
            "at" => self.breaks = numbers_of(alloc, value)?,
            "in" => self.capacity = Some(number_of(value)?),
            "from" => self.line = (number_of(value)?, line.1),
            "to" => self.line = (line.0, number_of(value)?),
            "lists" => self.lists = Some(two_numbers(alloc, value)?),
            "as" => self.shown_as = codes_of(alloc, value)?,
            "times" => self.times = number_of(value)?,
            _ => bail!("no option is named {name}"),
        }
        Ok(())
    }

    /// Takes an option.
    fn take(&mut self, alloc: Global, option: &str) -> Result<()> {
        match option.split_once(' ') {
            Some((name, value)) => self.take_value(alloc, name, value),
            None => self.take_flag(option),
        }
    }

    /// Reads the options in a field.
    pub fn of_field(alloc: Global, field: &str) -> Result<Options> {
        let mut options = Options::new(alloc);
        for option in field.split(',') {
            options.take(alloc, option.trim())?;
        }
        Ok(options)
    }
}
