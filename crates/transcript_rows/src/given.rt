//! What a block gives: files, standard input, and how standard output and standard error fail.

use crate::writer::Taking;
use anyhow::{Context, Result, bail};
use row_files::bytes::bytes_of;
use row_files::files::fields_of;
use row_files::words::{error_kind_of, number_of, span_of};
use std::alloc::Global;
use std::io::ErrorKind;

/// What a line of a block is about.
#[derive(Clone, Copy, PartialEq, Eq)]
pub enum Subject {
    File,
    /// Standard input.
    Input,
    /// Standard output.
    Output,
    /// Standard error.
    Error,
}

/// The bytes of a file, and where its reads fail.
#[derive(Drop)]
pub struct Contents {
    pub bytes: Vec<u8>,
    /// A read past so many bytes fails.
    pub most: u64,
    /// Whether a read after all bytes fails.
    pub fails: bool,
}

impl Contents {
    /// Returns the contents with these bytes, read as a field says with a number.
    fn limited(alloc: Global, bytes: &[u8], way: &str, number: usize) -> Result<Contents> {
        match way {
            "at most" => Ok(Contents {
                bytes: Vec::from_slice(alloc, bytes)?,
                most: number as u64,
                fails: false,
            }),
            "failing after" => Ok(Contents {
                bytes: Vec::from_slice(alloc, bytes.get(..number).context("it is shorter")?)?,
                most: u64::MAX,
                fails: true,
            }),
            _ => bail!("no file is read so: {way}"),
        }
    }
}

/// What is given of a subject.
#[derive(Drop)]
pub enum State {
    /// It can be read.
    Readable(Contents),
    /// There is no such file.
    Missing,
    /// Memory runs out when it is opened.
    NoMemory,
    /// It takes so much.
    Takes(Taking),
}

/// A subject, and what is given of it.
#[derive(Drop)]
pub struct Given {
    pub subject: Subject,
    /// The name of a file, or nothing.
    pub name: String,
    pub state: State,
}

impl Given {
    /// Returns whether it is given of this subject, with this name if that is a file.
    pub fn is_of(&self, subject: Subject, name: &str) -> bool {
        self.subject == subject && self.name.as_str() == name
    }
}

/// Returns what the writer in these fields takes.
fn taking_of(fields: &[&str]) -> Result<Taking> {
    let (taken, flushes) = match *fields {
        [taken] => (taken, true),
        [taken, "no flush"] => (taken, false),
        _ => bail!("no writer is given so"),
    };
    if let Some(kind) = taken.strip_prefix("fails with ") {
        return Ok(Taking {
            most: 0,
            flushes: false,
            kind: error_kind_of(kind)?,
        });
    }
    let most = taken.strip_prefix("takes ").context("no writer does so")?;
    Ok(Taking {
        most: number_of(most)?,
        flushes,
        kind: ErrorKind::StorageFull,
    })
}

/// What the lines of a block give.
#[derive(Drop)]
pub struct Givens {
    alloc: Global,
    pub all: Vec<Given>,
}

impl Givens {
    /// Creates those of a block without lines.
    pub fn new(alloc: Global) -> Givens {
        Givens {
            alloc,
            all: Vec::new(alloc),
        }
    }

    /// Appends what is given of a subject.
    fn push(&mut self, subject: Subject, name: &str, state: State) -> Result<()> {
        let name = String::from_str(self.alloc, name)?;
        self.all.push(Given {
            subject,
            name,
            state,
        })?;
        Ok(())
    }

    /// Appends a subject that can be read to its end.
    fn push_whole(&mut self, subject: Subject, name: &str, field: &str) -> Result<()> {
        let contents = Contents {
            bytes: bytes_of(self.alloc, field)?,
            most: u64::MAX,
            fails: false,
        };
        self.push(subject, name, State::Readable(contents))
    }

    /// Appends a subject that can be read so far, or several if `how` names several numbers.
    fn push_limited(&mut self, subject: Subject, name: &str, field: &str, how: &str) -> Result<()> {
        let bytes = bytes_of(self.alloc, field)?;
        let (way, numbers) = how.rsplit_once(' ').context("no number is named")?;
        let (first, last) = span_of(numbers)?;
        for number in first..=last {
            let contents = Contents::limited(self.alloc, &bytes, way, number)?;
            self.push(subject, name, State::Readable(contents))?;
        }
        Ok(())
    }

    /// Appends a file that is not read: `missing` or `no memory`.
    fn push_unread(&mut self, name: &str, how: &str) -> Result<()> {
        let state = match how {
            "missing" => State::Missing,
            "no memory" => State::NoMemory,
            _ => bail!("no file without bytes is given so: {how}"),
        };
        self.push(Subject::File, name, state)
    }

    /// Appends the file in these fields.
    fn push_file(&mut self, fields: &[&str]) -> Result<()> {
        let first = *fields.first().context("no file is named")?;
        match (first.split_once(' '), fields.get(1..)) {
            (Some((name, bytes)), Some([])) => self.push_whole(Subject::File, name, bytes),
            (Some((name, bytes)), Some([how])) => {
                self.push_limited(Subject::File, name, bytes, how)
            }
            (None, Some([how])) => self.push_unread(first, how),
            _ => bail!("no file is given so"),
        }
    }

    /// Appends the standard input in these fields.
    fn push_input(&mut self, fields: &[&str]) -> Result<()> {
        match *fields {
            [bytes] => self.push_whole(Subject::Input, "", bytes),
            [bytes, how] => self.push_limited(Subject::Input, "", bytes, how),
            _ => bail!("no standard input is given so"),
        }
    }

    /// Appends what a line gives, whose first word is `what`. Fails if it gives nothing.
    pub fn take(&mut self, what: &str, text: &str) -> Result<()> {
        let fields = fields_of(self.alloc, text, usize::MAX)?;
        let subject = match what {
            "file" => return self.push_file(&fields),
            "input" => return self.push_input(&fields),
            "output" => Subject::Output,
            "error" => Subject::Error,
            _ => bail!("no line before a run begins with {what}"),
        };
        self.push(subject, "", State::Takes(taking_of(&fields)?))
    }
}
