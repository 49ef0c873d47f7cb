// A source over any reader.
ghost use Rattle.std.specs.Prelude.{◌≡◌};
ghost use Rattle.units.specs.Provides.{Provides, ReaderHasEnded, failures_of, unread_of, Provides-nothing, Provides-joined};

use crate::source::{ByteSource, SourceFault};
use crate::unread::Unread;
use std::io::Read;
use std::marker::Model;

/// The state of a source over a reader.
#[derive(Debug, Clone, Copy, PartialEq, Eq)]
pub enum State {
    /// The next read asks the reader.
    Open,
    /// The reader has ended; it is not called again.
    Ended,
    /// The reader has failed, or has passed the limit, for this reason; it is not called again.
    Failed(Unread),
}

/// A source of the bytes of a reader, up to a limit. Each error of the reader is a failure, `Interrupted` too, and so
/// is a byte past the limit.
#[derive(Drop)]
pub struct ReaderSource<R: Read + Drop> {
    reader: R,
    limit: u64,
    state: State,
}

impl<R: Read + Drop> Model for ReaderSource<R> {
    ghost use Rattle.std.specs.Prelude.{◌≡◌};
    ghost use Rattle.std.specs.Io.KnownBytes.{IsAtEnd};
    ghost use Rattle.units.specs.declared.reader_source.State.TheVariants.{Ended};
    ghost use Rattle.units.specs.Provides.{Reading};

    ghost Value = { Reading };

    ghost view = { λ s. record { remaining = R.remaining s.reader; limit = s.limit; state = s.state } };

    ghost invariant = { λ s. s.state ≡ Ended → IsAtEnd (R.remaining s.reader) };
}

impl<R: Read + Drop> ReaderSource<R> {
    /// Makes a source over this reader that returns at most `most` bytes.
    pub fn new(reader: R, most: u64) -> Self
        ensures reader { result.remaining ≡ R.remaining reader }
        ensures limit { result.limit ≡ most }
        ensures state { result.state ≡ State.Open }
    {
        ReaderSource {
            reader,
            limit: most,
            state: State::Open,
        }
    }

    /// Returns why a read failed: the reason of the reader's error, or `TooLarge` if the reader passed the limit.
    /// Returns `Other` if no read has failed.
    pub fn unread(&self) -> Unread
        ensures { result ≡ unread_of self.now.state }
    {
        match self.state {
            State::Failed(unread) => unread,
            State::Open | State::Ended => Unread::Other,
        }
    }
}

impl<R: Read + Drop> ByteSource for ReaderSource<R> {
    ghost gives = { λ s xs t. Provides s.remaining t.remaining s.limit t.limit s.state t.state xs };

    ghost ended = { λ s. ReaderHasEnded s };

    ghost failures = { λ s. failures_of s.state };

    ghost most_remaining = { λ s. s.limit };

    ghost gives_nothing = { λ s. Provides-nothing s.remaining s.limit s.state };

    ghost gives_joined = { λ s t u xs ys f g.
        Provides-joined s.remaining t.remaining u.remaining s.limit t.limit u.limit s.state t.state u.state xs ys f g };

    fn read(&mut self, buf: &mut [u8]) -> Result<usize, SourceFault> {
        match self.state {
            State::Ended => return Ok(0),
            State::Failed(_) => return Err(SourceFault),
            State::Open => {}
        }
        match self.reader.read(buf) {
            Err(error) => {
                self.state = State::Failed(Unread::by_kind(error.kind()));
                Err(SourceFault)
            }
            Ok(0) => {
                self.state = State::Ended;
                Ok(0)
            }
            Ok(n) => {
                if n as u64 > self.limit {
                    self.state = State::Failed(Unread::TooLarge);
                    return Err(SourceFault);
                }
                self.limit -= n as u64;
                Ok(n)
            }
        }
    }

    fn failures(&self) -> u32 {
        match self.state {
            State::Failed(_) => 1,
            _ => 0,
        }
    }

    fn most_remaining(&self) -> u64 {
        self.limit
    }
}
