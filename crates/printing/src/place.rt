//! Places in a text of bytes.
ghost use Rattle.std.specs.Prelude.{◌≡◌, ◌+◌, ◌<◌, ◌≤◌, ◌^◌, length, count_by};
ghost use Rattle.printing.specs.ReadTexts.{utf8_front};
ghost use Rattle.printing.specs.TextPlaces.{ends_line, place_after};

use crate::cutting::utf8_front;

/// The greatest number of bytes whose lines a counter of one byte can count.
const MOST_IN_A_BYTE: usize = 255;

/// Returns how many lines end in these bytes. The counter is one byte, so that many bytes are compared at once.
fn count_few(bytes: &[u8]) -> u8
    requires { length bytes.now ≤ 255 }
    ensures { result ≡ count_by ends_line bytes.now }
{
    let mut ended = 0;
    for byte in bytes {
        ended += u8::from(*byte == b'\n');
    }
    ended
}

/// Returns how many lines end in these bytes.
fn count_ended(bytes: &[u8]) -> usize
    ensures { result ≡ count_by ends_line bytes.now }
{
    let mut ended = 0;
    let mut rest = bytes;
    while !rest.is_empty() {
        let (few, later) = rest.split_at(rest.len().min(MOST_IN_A_BYTE));
        ended += usize::from(count_few(few));
        rest = later;
    }
    ended
}

/// A place in a text of bytes.
#[derive(Clone, Copy, Debug, PartialEq, Eq)]
pub struct TextPlace {
    /// The number of its line, counted from 1. Only LF ends a line.
    pub line: usize,
    /// How many bytes of the text come before it.
    pub offset: usize,
}

impl TextPlace {
    /// Returns the place before the first byte of a text.
    pub fn start() -> TextPlace
        ensures { result ≡ record { line = 1; offset = 0 } }
    {
        TextPlace { line: 1, offset: 0 }
    }

    /// Returns the place after the longest front of a text of these bytes that is UTF-8.
    pub fn after_utf8(bytes: &[u8]) -> TextPlace
        ensures { result ≡ place_after (utf8_front bytes.now) }
    {
        TextPlace::start().after(utf8_front(bytes).as_bytes())
    }

    /// Returns the place after these bytes, the next ones of the text.
    pub fn after(self, bytes: &[u8]) -> TextPlace
        requires line { self.line + length bytes.now < 2 ^ 64 }
        requires offset { self.offset + length bytes.now < 2 ^ 64 }
        ensures line { result.line ≡ self.line + count_by ends_line bytes.now }
        ensures offset { result.offset ≡ self.offset + length bytes.now }
    {
        TextPlace {
            line: self.line + count_ended(bytes),
            offset: self.offset + bytes.len(),
        }
    }
}
