//! How printing ends.

use printing::fault::PrintFault;
use printing::reading::TextFault;
use printing::written::Written;
use std::fmt::{self, Display};
use std::io::{self, ErrorKind};

/// Why a text was not printed completely.
#[derive(Clone, Copy, Debug, PartialEq, Eq)]
pub enum Stop {
    /// A fault, and how many bytes of the source are unread, if there is a source.
    Fault(TextFault, u64),
    /// An error of the writer, from a call that returns it.
    Error(ErrorKind),
    /// The text is longer than one may be.
    TooLong,
}

/// The outcome of printing.
pub type Outcome = Result<(), Stop>;

/// Returns what is after a fault if a write failed before.
fn suffix_of(written: Written) -> &'static str {
    match written {
        Written::Whole => "",
        Written::CutOff => ", and a write before",
    }
}

/// Writes a fault.
fn push_fault<W: fmt::Write>(f: &mut fmt::Formatter<W>, fault: TextFault) -> fmt::Result {
    match fault {
        TextFault::Read { written } => write!(f, "the source failed{}", suffix_of(written)),
        TextFault::NotUtf8 { place, written } => write!(
            f,
            "not UTF-8 at line {} offset {}{}",
            place.line,
            place.offset,
            suffix_of(written)
        ),
        TextFault::Write => write!(f, "a write failed"),
        TextFault::NobodyReads => write!(f, "nobody reads"),
        TextFault::Memory => write!(f, "out of memory"),
    }
}

impl Display for Stop {
    fn fmt<W: fmt::Write>(&self, f: &mut fmt::Formatter<W>) -> fmt::Result {
        match *self {
            Stop::Fault(fault, 0) => push_fault(f, fault),
            Stop::Fault(fault, unread) => {
                push_fault(f, fault)?;
                write!(f, ", {unread} bytes unread")
            }
            Stop::Error(kind) => write!(f, "a write failed: {kind:?}"),
            Stop::TooLong => write!(f, "too long"),
        }
    }
}

/// Returns the outcome of a call whose error doesn't say how the writer failed.
pub fn outcome_of(printed: Result<(), PrintFault>) -> Outcome {
    match printed {
        Ok(()) => Ok(()),
        Err(PrintFault::Write) => Err(Stop::Fault(TextFault::Write, 0)),
        Err(PrintFault::Memory) => Err(Stop::Fault(TextFault::Memory, 0)),
    }
}

/// Returns the outcome of a call whose error is that of the writer.
pub fn reported(printed: io::Result<()>) -> Outcome {
    printed.map_err(|error| Stop::Error(error.kind()))
}
