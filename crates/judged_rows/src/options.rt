//! The options of a row, in one field with commas between them.

use anyhow::{Result, bail};
use bidtests::kind::Kind;
use report::terms::{Leniency, Parts, Positions, Terms};
use row_files::words::{error_kind_of, number_of, span_of};
use std::io::ErrorKind;
use ucdfiles::tables::Tables;
use units::limits::Limits;

/// Numbers, from the first one to the last one.
#[derive(Clone, Copy)]
pub struct Span {
    pub first: usize,
    pub last: usize,
}

impl Span {
    /// Reads `FIRST-LAST`, or one number.
    fn of_word(word: &str) -> Result<Span> {
        let (first, last) = span_of(word)?;
        Ok(Span { first, last })
    }

    /// Returns the number, if it is only one.
    pub fn one(self) -> Result<usize> {
        if self.first != self.last {
            bail!("this verb takes one number, not several");
        }
        Ok(self.first)
    }
}

/// How the bytes of a file come, by a number.
#[derive(Clone, Copy)]
pub enum Coming {
    /// In pieces of several sizes, and from a source. The number means nothing.
    Whole,
    /// In two pieces; the number is the length of the first one.
    CutAt,
    /// From a source that fails after so many bytes.
    FailingAfter,
    /// From a reader, through a source with this limit.
    AtMost,
    /// They are the arbitrary bytes that begin with this one.
    ArbitraryFrom,
}

/// The options of a row.
#[derive(Clone, Copy)]
pub struct Options {
    /// Whether the file is one of characters: `characters`, or `classes`.
    pub has_characters: bool,
    /// The limits of the layouts: `depth N` and `brackets N`.
    pub limits: Limits,
    /// What a report compares: `order` and `shown`, as the options of the command.
    pub leniency: Leniency,
    /// How the bytes come: `cut at N`, `failing after N`, `at most N` or `arbitrary from N`.
    pub coming: Coming,
    /// The numbers by which they come, each in turn.
    pub numbers: Span,
    /// The error of each write: `write error KIND`.
    pub write_error: Option<ErrorKind>,
    /// How many bytes are written or read at once: `buffer N`.
    pub buffer: Option<usize>,
    /// How often a source is read: `reads N`.
    pub reads: usize,
}

/// Returns the limits with this depth and number of brackets. Fails if they are not allowed.
fn limits_of(depth: usize, brackets: usize) -> Result<Limits> {
    match Limits::new(u8::try_from(depth)?, u8::try_from(brackets)?) {
        Ok(limits) => Ok(limits),
        Err(fault) => bail!("limits that are not allowed: {fault:?}"),
    }
}

impl Options {
    /// Returns the kind of the file. These tables give the units of characters.
    pub fn kind<'t>(&self, tables: &'t Tables) -> Kind<'t> {
        if self.has_characters {
            Kind::Characters(tables)
        } else {
            Kind::Classes
        }
    }

    /// Returns the options of a row that names none.
    fn new() -> Options {
        let limits = Limits::standard();
        Options {
            has_characters: false,
            limits,
            leniency: Terms::strict(limits).leniency,
            coming: Coming::Whole,
            numbers: Span { first: 0, last: 0 },
            write_error: None,
            buffer: None,
            reads: 1,
        }
    }

    /// Takes how the bytes come.
    fn come(&mut self, coming: Coming, numbers: Span) {
        self.coming = coming;
        self.numbers = numbers;
    }

    /// Takes an option without a value.
    fn take_flag(&mut self, name: &str) -> Result<()> {
        match name {
            "" | "classes" => self.has_characters = false,
            "characters" => self.has_characters = true,
            "order" => self.leniency.parts = Parts::OrderAlone,
            "shown" => self.leniency.positions = Positions::Shown,
            _ => bail!("no option is named {name}"),
        }
        Ok(())
    }

    /// Takes an option with a value.
    fn take_value(&mut self, name: &str, value: &str) -> Result<()> {
        match name {
            "depth" => self.limits = limits_of(number_of(value)?, self.limits.brackets() as usize)?,
            "brackets" => self.limits = limits_of(self.limits.depth() as usize, number_of(value)?)?,
            "cut at" => self.come(Coming::CutAt, Span::of_word(value)?),
            "failing after" => self.come(Coming::FailingAfter, Span::of_word(value)?),
            "at most" => self.come(Coming::AtMost, Span::of_word(value)?),
            "arbitrary from" => self.come(Coming::ArbitraryFrom, Span::of_word(value)?),
            "write error" => self.write_error = Some(error_kind_of(value)?),
            "buffer" => self.buffer = Some(number_of(value)?),
            "reads" => self.reads = number_of(value)?,
            _ => bail!("no option is named {name}"),
        }
        Ok(())
    }

    /// Takes an option.
    fn take(&mut self, option: &str) -> Result<()> {
        match option.rsplit_once(' ') {
            Some((name, value)) => self.take_value(name, value),
            None => self.take_flag(option),
        }
    }

    /// Reads the options in a field.
    pub fn of_field(field: &str) -> Result<Options> {
        let mut options = Options::new();
        for option in field.split(',') {
            options.take(option.trim())?;
        }
        Ok(options)
    }
}
