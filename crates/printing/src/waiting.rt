// Bytes of printed lines, buffered until they are written together.
ghost use Rattle.std.specs.Prelude.{◌≡◌, ℕ, ◌≤◌, ◌+◌, [], ◌++◌, List, length, IfErr, IsOk, OnOk};
ghost use Rattle.std.specs.Char.{encode_utf8};
ghost use Rattle.std.specs.Io.KnownBytes.{Appends};
ghost use Rattle.printing.specs.WaitingBytes.{with_waiting};

use crate::feeding::{Pieces, hand_over};
use crate::output::Output;
use arrayvec::ArrayVec;
use std::io;
use std::marker::Model;

/// The greatest number of waiting bytes.
const MOST_WAITING: usize = 256;

/// The most bytes that a character takes in UTF-8.
const LONGEST_CHARACTER: usize = 4;

/// Bytes that wait to be written together. Contracts see them as a list.
#[derive(Drop)]
pub(crate) struct Waiting {
    bytes: ArrayVec<u8, MOST_WAITING>,
}

impl Model for Waiting {
    ghost Value = { List ℕ };

    ghost view = { λ waiting. waiting.bytes.items };
}

impl Waiting {
    /// Returns a buffer without waiting bytes.
    pub(crate) fn new() -> Waiting
        ensures { result ≡ [] }
    {
        Waiting {
            bytes: ArrayVec::new(),
        }
    }

    /// Adds a character in UTF-8, byte by byte: copying so few bytes as a slice takes longer.
    fn push_character(&mut self, character: char)
        requires { length self.old + 4 ≤ 256 }
        ensures { self.new ≡ self.old ++ encode_utf8 character }
    {
        let mut buffer = [0; LONGEST_CHARACTER];
        match *character.encode_utf8(&mut buffer).as_bytes() {
            [only] => self.bytes.push(only),
            [first, second] => {
                self.bytes.push(first);
                self.bytes.push(second);
            }
            [first, second, third] => {
                self.bytes.push(first);
                self.bytes.push(second);
                self.bytes.push(third);
            }
            [first, second, third, fourth] => {
                self.bytes.push(first);
                self.bytes.push(second);
                self.bytes.push(third);
                self.bytes.push(fourth);
            }
            _ => unreachable!(),
        }
    }

    /// Writes the waiting bytes.
    pub(crate) fn write<W: Output>(&mut self, w: &mut W) -> io::Result<()>
        ensures none { OnOk result (self.new ≡ []) }
        ensures written { OnOk result (Appends (W.contents w.old) (W.contents w.new) self.old) }
        ensures failed { IfErr result (W.failed_with w.new) }
    {
        hand_over(w, self.bytes.as_slice(), Pieces::Characters)?;
        self.bytes.clear();
        Ok(())
    }

    /// Makes space for a character: writes the waiting bytes if there is no space.
    fn write_out<W: Output>(&mut self, w: &mut W) -> io::Result<()>
        ensures room { OnOk result (length self.new + 4 ≤ 256) }
        ensures same { OnOk result (Appends (with_waiting (W.contents w.old) self.old)
            (with_waiting (W.contents w.new) self.new) []) }
        ensures remaining { length self.old + 4 ≤ 256 → IsOk result × (self.new ≡ self.old) × (w.new ≡ w.old) }
        ensures failed { IfErr result (W.failed_with w.new) }
    {
        if self.bytes.remaining_capacity() < LONGEST_CHARACTER {
            return self.write(w);
        }
        Ok(())
    }

    /// Adds a character in UTF-8. If there is no space for it, writes the waiting bytes first.
    pub(crate) fn print<W: Output>(&mut self, w: &mut W, character: char) -> io::Result<()>
        ensures printed { OnOk result (Appends (with_waiting (W.contents w.old) self.old)
            (with_waiting (W.contents w.new) self.new) (encode_utf8 character)) }
        ensures failed { IfErr result (W.failed_with w.new) }
    {
        self.write_out(w)?;
        self.push_character(character);
        Ok(())
    }
}
