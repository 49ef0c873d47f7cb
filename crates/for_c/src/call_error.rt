//! Why a call fails, and the number of each reason for C.
ghost use Rattle.std.specs.Prelude.{◌≡◌, ◌<◌};
ghost use Rattle.for_c.specs.Statuses.{code_of, place_of, place_named, status_of};

use ucdfiles::fault::TableFault;

/// Why a call fails.
#[derive(Clone, Copy, Debug, PartialEq, Eq)]
pub enum CallError {
    /// There is not enough memory.
    Memory,
    /// The requested capacity is greater than the greatest one.
    TooBig,
    /// The text has more units than the room has capacity for.
    TooLong,
    /// The code point at this index isn't a scalar value.
    NoCharacter(usize),
    /// The number at this index is no class, or the unit there has a number of no class or no kind of bracket.
    NoClass(usize),
    /// The break at this index is 0 or not below the text's length.
    BreakOutOfRange(usize),
    /// The break at this index is not above the one before.
    BreakNotRising(usize),
    /// The number is no direction.
    NoDirection,
    /// The handle contains no room of the kind that the call needs.
    NoRoom,
    /// The handle contains no tables.
    NoTables,
    /// The number of a line is not below the number of lines.
    NoLine,
    /// The place is not below the number of places of its line.
    NoPlace,
    /// The handle contains no judge.
    NoJudge,
    /// The depth is 0 or above 125.
    Depth,
    /// The depth is allowed, and the number of brackets is above 63.
    Brackets,
    /// DerivedBidiClass.txt has this fault.
    ClassFile(TableFault),
    /// BidiBrackets.txt has this fault.
    BracketFile(TableFault),
    /// BidiMirroring.txt has this fault.
    MirrorFile(TableFault),
    /// The numbers encode no verdict.
    NoVerdict,
    /// The output has fewer items than are to be written.
    TooSmall,
    /// The line does not start below its end.
    LineNotForward,
    /// The line starts below its end, and ends after the text.
    LineBeyondText,
    /// The line is within the text, and a paragraph ends within it, before its last position.
    LineCrossesParagraph,
    /// The code unit at this offset isn't part of a character. All code units before it are well formed.
    IllFormed(usize),
    /// The break with this index is inside a character.
    BreakInside(usize),
    /// The handle contains no report, or the call needs one whose file has not ended.
    NoReport,
    /// The report has returned all wrong cases of the line that it judged last.
    NoCase,
    /// The report has not yet returned all wrong cases of the line that it judged last.
    CasesLeft,
    /// The number at this index is above the greatest level, 126.
    NoLevel(usize),
}

/// The status of a call that succeeds.
pub const DONE: u32 = 0;

impl CallError {
    /// Returns the status of a call that fails with this error. It differs from that of a call that succeeds.
    pub fn code(self) -> u32
        ensures code { result ≡ code_of self }
        ensures not_done { 0 < result }
    {
        match self {
            CallError::Memory => 1,
            CallError::TooBig => 2,
            CallError::TooLong => 3,
            CallError::NoCharacter(_) => 4,
            CallError::NoClass(_) => 5,
            CallError::BreakOutOfRange(_) => 6,
            CallError::BreakNotRising(_) => 7,
            CallError::NoDirection => 8,
            CallError::NoRoom => 9,
            CallError::NoTables => 10,
            CallError::NoLine => 11,
            CallError::ClassFile(_) => 12,
            CallError::BracketFile(_) => 13,
            CallError::MirrorFile(_) => 14,
            CallError::NoPlace => 15,
            CallError::NoJudge => 16,
            CallError::Depth => 17,
            CallError::Brackets => 18,
            CallError::NoVerdict => 19,
            CallError::TooSmall => 20,
            CallError::LineNotForward => 21,
            CallError::LineBeyondText => 22,
            CallError::LineCrossesParagraph => 23,
            CallError::IllFormed(_) => 24,
            CallError::BreakInside(_) => 25,
            CallError::NoReport => 26,
            CallError::NoCase => 27,
            CallError::CasesLeft => 28,
            CallError::NoLevel(_) => 29,
        }
    }

    /// Returns the place that it names: an index, an offset, or the number of a line; 0 if it names none.
    pub fn place(self) -> u64
        ensures { result ≡ place_of self }
    {
        match self {
            CallError::NoCharacter(index)
            | CallError::NoClass(index)
            | CallError::BreakOutOfRange(index)
            | CallError::BreakNotRising(index)
            | CallError::IllFormed(index)
            | CallError::BreakInside(index)
            | CallError::NoLevel(index) => index as u64,
            CallError::ClassFile(fault)
            | CallError::BracketFile(fault)
            | CallError::MirrorFile(fault) => fault.line().unwrap_or(0),
            _ => 0,
        }
    }
}

/// Returns the status of a call with this outcome.
pub fn status(outcome: Result<(), CallError>) -> u32
    ensures { result ≡ status_of outcome }
{
    match outcome {
        Ok(()) => DONE,
        Err(error) => error.code(),
    }
}

/// Returns the status of a call with this outcome, and writes the place that its error names; without an error the
/// place is unchanged.
pub fn status_and_place(outcome: Result<(), CallError>, place: &mut u64) -> u32
    ensures status { result ≡ status_of outcome }
    ensures place { place.new ≡ place_named outcome place.old }
{
    if let Err(error) = outcome {
        *place = error.place();
    }
    status(outcome)
}
