// The faults of a file.
ghost use Rattle.std.specs.Prelude.{◌≡◌};
ghost use Rattle.ucdfiles.specs.Faults.{fault_at, name_of, line_of_fault};

use thiserror::Error;

/// The fault of a line of a property file; `TableFault` documents when each occurs.
#[derive(Clone, Copy, Debug, PartialEq, Eq)]
pub enum Fault {
    CodePoint,
    Backwards,
    ClassName,
    Fields,
    Overlap,
    Twice,
    BracketKind,
    LineTooLong,
    TooMany,
}

/// Why a property file states no table. A fault of a line has the line's number, counted from 1. It is the fault of the
/// first faulty line, and the first fault of that line in the order in which its parts are checked.
#[derive(Clone, Copy, Debug, PartialEq, Eq, Error)]
pub enum TableFault {
    /// A field is not 4 to 6 upper-case hex digits, or above 10FFFF, or a surrogate in a file of brackets or of
    /// mirror images.
    #[error("line {0}: not a code point")]
    CodePoint(u64),
    /// A range ends below its start.
    #[error("line {0}: the range ends before it begins")]
    Backwards(u64),
    /// A field is no name of a class.
    #[error("line {0}: not the name of a class")]
    ClassName(u64),
    /// A line has another number of fields than the file has.
    #[error("line {0}: wrong number of fields")]
    Fields(u64),
    /// A data line of the classes has a code point of an earlier one.
    #[error("line {0}: a code point of an earlier line")]
    Overlap(u64),
    /// A data line of the brackets or of the mirror images has the first field of an earlier one, as a value.
    #[error("line {0}: the character of an earlier line")]
    Twice(u64),
    /// The third field of a bracket's line is neither `o` nor `c`.
    #[error("line {0}: neither `o` nor `c`")]
    BracketKind(u64),
    /// A line has more than 65,536 bytes before its LF.
    #[error("line {0}: longer than 65536 bytes")]
    LineTooLong(u64),
    /// The 65,537th data line, or the 1,025th `@missing` line.
    #[error("line {0}: too many lines")]
    TooMany(u64),
    /// A read failed.
    #[error("cannot read")]
    Read,
    /// Memory was refused.
    #[error("out of memory")]
    Memory,
}

impl TableFault {
    /// Returns the fault's name, such as `Overlap`.
    pub fn name(self) -> &'static str
        ensures { result.now ≡ name_of self }
    {
        match self {
            TableFault::CodePoint(_) => "CodePoint",
            TableFault::Backwards(_) => "Backwards",
            TableFault::ClassName(_) => "ClassName",
            TableFault::Fields(_) => "Fields",
            TableFault::Overlap(_) => "Overlap",
            TableFault::Twice(_) => "Twice",
            TableFault::BracketKind(_) => "BracketKind",
            TableFault::LineTooLong(_) => "LineTooLong",
            TableFault::TooMany(_) => "TooMany",
            TableFault::Read => "Read",
            TableFault::Memory => "Memory",
        }
    }

    /// Returns the number of the faulty line, counted from 1; `None` for `Read` and `Memory`.
    pub fn line(self) -> Option<u64>
        ensures { result ≡ line_of_fault self }
    {
        match self {
            TableFault::CodePoint(line)
            | TableFault::Backwards(line)
            | TableFault::ClassName(line)
            | TableFault::Fields(line)
            | TableFault::Overlap(line)
            | TableFault::Twice(line)
            | TableFault::BracketKind(line)
            | TableFault::LineTooLong(line)
            | TableFault::TooMany(line) => Some(line),
            TableFault::Read | TableFault::Memory => None,
        }
    }
}

/// Returns the fault of the line with this number.
pub fn at(fault: Fault, line: u64) -> TableFault
    ensures { result ≡ fault_at fault line }
{
    match fault {
        Fault::CodePoint => TableFault::CodePoint(line),
        Fault::Backwards => TableFault::Backwards(line),
        Fault::ClassName => TableFault::ClassName(line),
        Fault::Fields => TableFault::Fields(line),
        Fault::Overlap => TableFault::Overlap(line),
        Fault::Twice => TableFault::Twice(line),
        Fault::BracketKind => TableFault::BracketKind(line),
        Fault::LineTooLong => TableFault::LineTooLong(line),
        Fault::TooMany => TableFault::TooMany(line),
    }
}
