//! The files that a block gives, and its standard input. They record which of them are opened.

ghost use Rattle.std.specs.Prelude.{◌≤◌, ⊤};
ghost use Rattle.units.specs.Provides.{unread_of};

use crate::given::{State, Subject};
use crate::turns::Turn;
use requests::files::{Files, OpenFault};
use std::alloc::{AllocError, Global};
use std::cell::RefCell;
use std::io::{self, ErrorKind, Read};
use ucdfiles::small::{BRACKETS, CLASSES, MIRRORS};
use units::reader_source::ReaderSource;
use units::unread::Unread;

/// Reads bytes, and may fail after them.
#[derive(Drop)]
pub struct MemoryReader<'a> {
    rest: &'a [u8],
    fails: bool,
}

impl Read for MemoryReader<'_> {
    fn read(&mut self, buf: &mut [u8]) -> io::Result<usize> {
        let mut rest = self.rest;
        if rest.is_empty() && self.fails {
            return Err(io::Error::from(ErrorKind::Other));
        }
        let count = rest.read(buf)?;
        self.rest = rest;
        Ok(count)
    }
}

/// A source of bytes in memory.
type MemorySource<'a> = ReaderSource<MemoryReader<'a>>;

/// What a run printed, as a file for the runs after it.
#[derive(Drop)]
pub struct PrintedFile {
    pub name: String,
    pub bytes: Vec<u8>,
}

/// What can be read of a file.
#[derive(Clone, Copy)]
struct Readable<'a> {
    bytes: &'a [u8],
    /// A read past so many bytes fails.
    most: u64,
    /// Whether a read after all bytes fails.
    fails: bool,
}

/// Returns what can be read of a subject.
fn readable_of(state: &State) -> Result<Readable<'_>, OpenFault> {
    match state {
        State::Readable(contents) => Ok(Readable {
            bytes: &contents.bytes,
            most: contents.most,
            fails: contents.fails,
        }),
        State::NoMemory => Err(OpenFault::Memory),
        State::Missing | State::Takes(_) => Err(OpenFault::Cannot(Unread::Missing)),
    }
}

/// Opens a source that gives at most so many bytes.
fn source_of(readable: Readable<'_>, most: u64) -> MemorySource<'_>
    ensures { result.limit ≤ most }
{
    let reader = MemoryReader {
        rest: readable.bytes,
        fails: readable.fails,
    };
    ReaderSource::new(reader, most.min(readable.most))
}

/// Returns the bytes of a small table in the folder `t`.
fn small_table(name: &str) -> Option<&'static [u8]> {
    match name {
        "t/DerivedBidiClass.txt" => Some(CLASSES),
        "t/BidiBrackets.txt" => Some(BRACKETS),
        "t/BidiMirroring.txt" => Some(MIRRORS),
        _ => None,
    }
}

/// The files and the standard input of a run.
#[derive(Drop)]
pub struct GivenFiles<'a> {
    turn: Turn<'a>,
    printed: &'a [PrintedFile],
    opened: &'a RefCell<String>,
}

impl<'a> GivenFiles<'a> {
    /// Creates the files that are given in a turn, and those that runs before printed.
    pub fn new(
        turn: Turn<'a>,
        printed: &'a [PrintedFile],
        opened: &'a RefCell<String>,
    ) -> GivenFiles<'a> {
        GivenFiles {
            turn,
            printed,
            opened,
        }
    }

    /// Records that a file is opened.
    fn note(&self, name: &str) -> Result<(), AllocError> {
        if let Ok(mut opened) = self.opened.try_borrow_mut() {
            if !opened.is_empty() {
                opened.push_str(", ")?;
            }
            opened.push_str(name)?;
        }
        Ok(())
    }

    /// Returns the bytes of a file that a run before printed, or of a small table.
    fn bytes(&self, name: &str) -> Option<&'a [u8]> {
        match self.printed.iter().find(|file| file.name.as_str() == name) {
            Some(file) => Some(&file.bytes),
            None => small_table(name),
        }
    }

    /// Returns what can be read of a file.
    fn of_file(&self, name: &str) -> Result<Readable<'a>, OpenFault> {
        match (self.turn.find(Subject::File, name), self.bytes(name)) {
            (Some(given), _) => readable_of(&given.state),
            (None, Some(bytes)) => Ok(Readable {
                bytes,
                most: u64::MAX,
                fails: false,
            }),
            (None, None) => Err(OpenFault::Cannot(Unread::Missing)),
        }
    }

    /// Returns what can be read of standard input.
    fn of_input(&self) -> Result<Readable<'a>, OpenFault> {
        match self.turn.find(Subject::Input, "") {
            Some(given) => readable_of(&given.state),
            None => Err(OpenFault::Cannot(Unread::Missing)),
        }
    }
}

impl<'a> Files for GivenFiles<'a> {
    type Source = MemorySource<'a>;

    // Nothing is stated of the bytes of these files.
    ghost opens = { λ _ _ _ _. ⊤ };

    ghost facts = { λ _. record {
      Rejects = λ _ _ _. ⊤;
      Begins = λ _ _ _. ⊤;
      Holds = λ _ _ _. ⊤;
      Fails = λ _ _ _ _. ⊤;
    } };

    ghost why = { λ source. unread_of source.state };

    ghost gave = { λ _ _ _ _ _ _ _ _. tt };

    ghost gave_all = { λ _ _ _ _ _ _ _ _ _. tt };

    ghost gave_up = { λ _ _ _ _ _ _ _ _ _. tt };

    fn file(&self, _alloc: Global, name: &str, most: u64) -> Result<Self::Source, OpenFault> {
        self.note(name)?;
        let readable = self.of_file(name)?;
        Ok(source_of(readable, most))
    }

    fn input(&self, _alloc: Global, most: u64) -> Result<Self::Source, OpenFault> {
        self.note("standard input")?;
        let readable = self.of_input()?;
        Ok(source_of(readable, most))
    }

    fn unread(&self, source: &Self::Source) -> Unread {
        source.unread()
    }
}
