//! The error of a call, from the reason why a room does not do what it is asked for.
ghost use Rattle.std.specs.Prelude.{◌≡◌};
ghost use Rattle.sources.specs.Seen.{source_seen};
ghost use Rattle.for_c.specs.Reasons.{error_of_layout, error_of_line, error_of_room, error_of_text};

use crate::call_error::CallError;
use lines::breaks::BreakFault;
use lines::scratch::RoomFault;
use room::fault::LayoutFault;
use room::line_of::LineFault;
use sources::source::Source;

/// Returns the error of a call that makes no room for this reason.
pub fn error_of_room(fault: RoomFault) -> CallError
    ensures { result ≡ error_of_room fault }
{
    match fault {
        RoomFault::TooBig => CallError::TooBig,
        RoomFault::Memory => CallError::Memory,
    }
}

/// Returns the error of a call that does not lay out a text in code units for this reason, or does not break the text
/// of a room into lines again.
pub fn error_of_layout(fault: LayoutFault) -> CallError
    ensures { result ≡ error_of_layout fault }
{
    match fault {
        LayoutFault::NoOffsets => CallError::NoRoom,
        LayoutFault::TooLong => CallError::TooLong,
        LayoutFault::IllFormed(at) => CallError::IllFormed(at),
        LayoutFault::Break(BreakFault::OutOfRange(index)) => CallError::BreakOutOfRange(index),
        LayoutFault::Break(BreakFault::NotRising(index)) => CallError::BreakNotRising(index),
        LayoutFault::BreakInside(index) => CallError::BreakInside(index),
    }
}

/// Returns the error of a call that does not lay out the text of a source for this reason.
pub fn error_of_text(source: Source<'_>, fault: LayoutFault) -> CallError
    ensures { result ≡ error_of_text (source_seen source.entry) fault }
{
    match (source, fault) {
        (Source::Codes(_), LayoutFault::IllFormed(index)) => CallError::NoCharacter(index),
        (Source::Classes(_), LayoutFault::IllFormed(index)) => CallError::NoClass(index),
        (Source::Units(_), LayoutFault::IllFormed(index)) => CallError::NoClass(index),
        (_, fault) => error_of_layout(fault),
    }
}

/// Returns the error of a call that does not lay out one line alone for this reason. The line's start counts as the
/// break with the index 0, its end as the break with the index 1.
pub fn error_of_line(fault: LineFault) -> CallError
    ensures { result ≡ error_of_line fault }
{
    match fault {
        LineFault::TooSmall => CallError::TooSmall,
        LineFault::NotForward => CallError::LineNotForward,
        LineFault::BeyondText => CallError::LineBeyondText,
        LineFault::StartsInside => CallError::BreakInside(0),
        LineFault::EndsInside => CallError::BreakInside(1),
        LineFault::CrossesParagraph => CallError::LineCrossesParagraph,
    }
}
