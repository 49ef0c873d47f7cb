// The faults of a run, and how they are reported.
ghost use Rattle.std.specs.Prelude.{◌≡◌, OnOk};
ghost use Rattle.std.specs.Io.KnownBytes.{Appends};
ghost use Rattle.requests.specs.FaultText.{EndsBy, all_written, fault_line, fault_status, fault_text};
ghost use Rattle.requests.specs.Reasons.{reason_line, reason_of};

use crate::fault_line::{
    print_faulty_line, print_item, print_line, print_long_line, print_malformed_line,
    print_no_lengths, print_no_row, print_no_rows, print_not_utf8, print_unread,
};
use crate::outcome::Ended;
use crate::reason::{
    CLASS_ITEMS, CODE_POINT_ITEMS, DIRECTION_ITEMS, LENGTH_ITEMS, field_in_words,
    print_folder_reason, print_item_reason, print_place_reason, print_reason, print_unread_reason,
};
use crate::request::FileKind;
use bidtests::verdict::Cause;
use printing::fault::PrintFault;
use printing::place::TextPlace;
use printing::written::Written;
use rows::fault::RowsFault;
use std::alloc::{AllocError, AllocFailed};
use std::io;
use std::io::Write;
use ucdfiles::fault::TableFault;
use units::memory::Memory;
use units::unread::Unread;

/// How much of a fault is reported.
#[derive(Clone, Copy, Debug, PartialEq, Eq)]
pub enum Detail {
    /// The line of the fault.
    Brief,
    /// The line of the fault, and a second line with the reason if more is known.
    Verbose,
}

/// Why a run did not end well.
#[derive(Debug, Drop)]
pub enum Fault<'a> {
    /// An argument of the command line is not UTF-8.
    WordNotUtf8,
    /// The request is about rows of characters, and names no tables.
    TablesNeeded,
    /// The value of `--classes` has more bytes than a text may have.
    ClassesTooLong,
    /// The value of `--codes` has more bytes than a text may have.
    CodesTooLong,
    /// This item of the classes is not the name of a class.
    NoClass {
        word: &'a str,
        item: &'a [u8],
    },
    /// This item of the code points is not a code point.
    NoCodePoint {
        word: &'a str,
        item: &'a [u8],
    },
    /// The value of the lengths is not a range of lengths.
    NoLengths(&'a str),
    /// This item of the directions is not a direction.
    NoDirection {
        word: &'a str,
        item: &'a [u8],
    },
    /// The value of the directions has no item.
    NoDirections,
    /// The texts over the letters, of the lengths, can't be enumerated or drawn.
    NoRows(RowsFault),
    /// The given line of the conformance file of this name, counted from 1, is not a row.
    LineIsNoRow {
        name: &'a str,
        line: u64,
    },
    /// The file of this name can't be opened, a read of it failed, or it has more than `most` bytes. `unread` is the
    /// reason. For a table's file, `folder` is the folder that was searched. All output up to the failed read was
    /// written, unless an earlier write failed.
    CannotRead {
        name: &'a str,
        folder: Option<&'a str>,
        most: u64,
        unread: Unread,
        written: Written,
    },
    /// A line of the table's file of this name is faulty. `folder` is the folder of the tables.
    FaultyLine {
        name: &'a str,
        folder: &'a str,
        line: u64,
        fault: TableFault,
    },
    /// The text in the file of this name is not UTF-8 after this place. All output up to that place was written, unless
    /// an earlier write failed.
    NotUtf8 {
        name: &'a str,
        place: TextPlace,
        written: Written,
    },
    /// The given line of the text in the file of this name, counted from 1, is too long for a row.
    LongLine {
        name: &'a str,
        line: usize,
    },
    /// The given line of the conformance file of this name and kind, counted from 1, is malformed.
    MalformedLine {
        name: &'a str,
        kind: FileKind,
        line: u64,
        cause: Cause,
    },
    /// A write to the output, or its flush, failed, after everything that the request needs was read.
    CannotWrite,
    /// A write to the output, or its flush, failed because nobody reads the output any more. The rest was not read.
    NobodyReads,
    /// An allocation failed.
    OutOfMemory,
}

impl From<PrintFault> for Fault<'_> {
    ghost use Rattle.std.specs.Prelude.{◌≡◌};
    ghost use Rattle.requests.specs.FaultText.{print_fault};

    ghost from_gives = { λ fault given. given ≡ print_fault fault };

    fn from(fault: PrintFault) -> Self {
        match fault {
            PrintFault::Write => Fault::CannotWrite,
            PrintFault::Memory => Fault::OutOfMemory,
        }
    }
}

impl From<Memory> for Fault<'_> {
    ghost use Rattle.std.specs.Prelude.{◌≡◌};
    ghost use Rattle.requests.specs.declared.fault.Fault.TheVariants.{OutOfMemory};

    ghost from_gives = { λ _ fault. fault ≡ OutOfMemory };

    fn from(_memory: Memory) -> Self {
        Fault::OutOfMemory
    }
}

impl From<AllocError> for Fault<'_> {
    ghost use Rattle.std.specs.Prelude.{◌≡◌};
    ghost use Rattle.requests.specs.declared.fault.Fault.TheVariants.{OutOfMemory};

    ghost from_gives = { λ _ fault. fault ≡ OutOfMemory };

    fn from(_error: AllocError) -> Self {
        Fault::OutOfMemory
    }
}

impl<T: Drop> From<AllocFailed<T>> for Fault<'_> {
    ghost use Rattle.std.specs.Prelude.{◌≡◌};
    ghost use Rattle.requests.specs.declared.fault.Fault.TheVariants.{OutOfMemory};

    ghost from_gives = { λ _ fault. fault ≡ OutOfMemory };

    fn from(_error: AllocFailed<T>) -> Self {
        Fault::OutOfMemory
    }
}

impl Fault<'_> {
    /// Returns the exit status: 2 if an argument is not UTF-8, not allowed or too long, if needed tables are not named,
    /// if texts can't be enumerated or drawn, or if the requested line is not a row, otherwise 3.
    fn status(&self) -> u8
        ensures { result ≡ fault_status self.now }
    {
        match self {
            Fault::WordNotUtf8 | Fault::TablesNeeded => 2,
            Fault::ClassesTooLong | Fault::CodesTooLong => 2,
            Fault::NoClass { .. } | Fault::NoCodePoint { .. } | Fault::NoLengths(_) => 2,
            Fault::NoDirection { .. } | Fault::NoDirections | Fault::NoRows(_) => 2,
            Fault::LineIsNoRow { .. } => 2,
            _ => 3,
        }
    }

    /// Returns whether no write to the output failed, by this fault or before it.
    fn all_written(&self) -> bool
        ensures { result ≡ all_written self.now }
    {
        match self {
            Fault::CannotRead { written, .. } | Fault::NotUtf8 { written, .. } => {
                *written == Written::Whole
            }
            Fault::CannotWrite | Fault::NobodyReads => false,
            _ => true,
        }
    }

    /// Writes the line of the fault.
    fn print<E: Write>(&self, err: &mut E) -> io::Result<()>
        ensures { OnOk result (Appends (E.contents err.old) (E.contents err.new) (fault_line self.now)) }
    {
        match self {
            Fault::WordNotUtf8 => print_line(err, "bidi: a word is not UTF-8"),
            Fault::TablesNeeded => print_line(err, "bidi: --tables is needed"),
            Fault::ClassesTooLong => print_line(err, "bidi: --classes is too long"),
            Fault::CodesTooLong => print_line(err, "bidi: --codes is too long"),
            Fault::NoClass { item, .. } => print_item(err, item, b" is no class\n"),
            Fault::NoCodePoint { item, .. } => print_item(err, item, b" is no code point\n"),
            Fault::NoLengths(word) => print_no_lengths(err, word),
            Fault::NoDirection { item, .. } => print_item(err, item, b" is no direction\n"),
            Fault::NoDirections => print_line(err, "bidi: --directions has no direction"),
            Fault::NoRows(fault) => print_no_rows(err, *fault),
            Fault::LineIsNoRow { name, line } => print_no_row(err, name, *line),
            Fault::CannotRead { name, .. } => print_unread(err, name),
            Fault::FaultyLine {
                name,
                line,
                fault,
                ..
            } => print_faulty_line(err, name, *line, *fault),
            Fault::NotUtf8 { name, .. } => print_not_utf8(err, name),
            Fault::LongLine { name, line } => print_long_line(err, name, *line),
            Fault::MalformedLine {
                name,
                line,
                cause,
                ..
            } => print_malformed_line(err, name, *line, *cause),
            Fault::CannotWrite | Fault::NobodyReads => print_line(err, "bidi: cannot write"),
            Fault::OutOfMemory => print_line(err, "bidi: out of memory"),
        }
    }

    /// Writes the line of the reason, if more is known than the line of the fault says.
    fn print_reason<E: Write>(&self, err: &mut E) -> io::Result<()>
        ensures { OnOk result (Appends (E.contents err.old) (E.contents err.new) (reason_line (reason_of self.now))) }
    {
        match self {
            Fault::ClassesTooLong | Fault::CodesTooLong => print_reason(
                err,
                "more than 16777216 bytes",
            ),
            Fault::NoClass { word, .. } => print_item_reason(err, word, CLASS_ITEMS),
            Fault::NoCodePoint { word, .. } => print_item_reason(err, word, CODE_POINT_ITEMS),
            Fault::NoDirection { word, .. } => print_item_reason(err, word, DIRECTION_ITEMS),
            Fault::NoLengths(_) => print_reason(err, LENGTH_ITEMS),
            Fault::CannotRead {
                folder,
                most,
                unread,
                ..
            } => print_unread_reason(err, *unread, *most, *folder),
            Fault::FaultyLine { folder, .. } => print_folder_reason(err, folder),
            Fault::NotUtf8 { place, .. } => print_place_reason(err, *place),
            Fault::LongLine { .. } => print_reason(err, "more than 4095 characters"),
            Fault::MalformedLine { kind, cause, .. } => print_reason(
                err,
                field_in_words(*kind, *cause),
            ),
            _ => Ok(()),
        }
    }

    /// Writes the line of the fault and, with `Verbose`, the line of the reason.
    fn print_in<E: Write>(&self, err: &mut E, detail: Detail) -> io::Result<()>
        ensures { OnOk result (Appends (E.contents err.old) (E.contents err.new) (fault_text detail self.now)) }
    {
        self.print(err)?;
        match detail {
            Detail::Brief => Ok(()),
            Detail::Verbose => self.print_reason(err),
        }
    }

    /// Reports the fault in this detail, and returns how the run ends. The exit status is that of the fault, also if
    /// `err` fails. The fault counts as reported if `err` takes all of it and its flush succeeds.
    pub fn report<E: Write>(&self, err: &mut E, detail: Detail) -> Ended
        ensures { EndsBy detail self.now (E.contents err.old) (E.contents err.new) result }
    {
        let written = self.print_in(err, detail);
        let flushed = err.flush();
        Ended {
            status: self.status(),
            is_written: self.all_written(),
            is_reported: written.is_ok() && flushed.is_ok(),
        }
    }
}
