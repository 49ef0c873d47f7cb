//! A writer that fails, in one of several manners, and stores what it took.

use std::alloc::Global;
use std::io::{self, ErrorKind, Write};

/// How a writer takes the bytes that it is given.
#[derive(Clone, Copy, Debug)]
pub enum Manner {
    /// Takes all bytes.
    TakesAll,
    /// Takes so many bytes in all. It fails with a call of `write` whose bytes don't all fit, and takes none of them.
    Holds(usize),
    /// Takes up to so many bytes in a call. It fails with a longer call, and takes none of its bytes.
    Short(usize),
    /// Takes so many bytes of each call.
    Parts(usize),
    /// Takes so many bytes in all, and then none of any call.
    Ends(usize),
    /// Takes so many bytes in all, of the last call only the part that fits, and then fails.
    Fills(usize),
    /// Fails with the call of this number, counted from 1, and takes all bytes of the others.
    FailsOnce(usize),
    /// Is interrupted at each second call, and takes all bytes of the others.
    Interrupted,
    /// Fails from the call of this number on with an error of this kind, and takes all bytes of those before.
    FailsFrom(usize, ErrorKind),
    /// Takes all bytes, but fails from the call of `flush` of this number on with an error of this kind.
    FlushesUntil(usize, ErrorKind),
}

/// A writer with one of these manners.
#[derive(Drop)]
pub struct Taking {
    manner: Manner,
    /// What it took, unless it only counts.
    bytes: Vec<u8>,
    pub only_counts: bool,
    len: usize,
    calls: usize,
    flushes: usize,
}

impl Taking {
    /// Creates a writer that stores what it takes.
    pub fn new(alloc: Global, manner: Manner) -> Taking {
        Taking {
            manner,
            bytes: Vec::new(alloc),
            only_counts: false,
            len: 0,
            calls: 0,
            flushes: 0,
        }
    }

    /// Returns the bytes that it took.
    pub fn bytes(&self) -> &[u8] {
        &self.bytes
    }

    /// Gives the bytes that it took.
    pub fn into_bytes(self) -> Vec<u8> {
        self.bytes
    }

    /// Returns how many bytes it took.
    pub fn len(&self) -> usize {
        self.len
    }

    /// Returns the number of calls of `write`.
    pub fn calls(&self) -> usize {
        self.calls
    }

    /// Returns the number of bytes that it takes from a call with so many.
    fn taken(&self, len: usize) -> Result<usize, ErrorKind> {
        match self.manner {
            Manner::Holds(most) if len > most.saturating_sub(self.len) => {
                Err(ErrorKind::StorageFull)
            }
            Manner::Short(most) if len > most => Err(ErrorKind::OutOfMemory),
            Manner::Fills(most) if self.len >= most => Err(ErrorKind::StorageFull),
            Manner::FailsOnce(call) if self.calls == call => Err(ErrorKind::BrokenPipe),
            Manner::FailsFrom(call, kind) if self.calls >= call => Err(kind),
            Manner::Interrupted if self.calls % 2 == 0 => Err(ErrorKind::Interrupted),
            Manner::Parts(most) => Ok(len.min(most)),
            Manner::Ends(most) | Manner::Fills(most) => Ok(len.min(most.saturating_sub(self.len))),
            _ => Ok(len),
        }
    }
}

impl Write for Taking {
    fn write(&mut self, buf: &[u8]) -> io::Result<usize> {
        self.calls = self.calls.saturating_add(1);
        let taken = self.taken(buf.len())?.min(buf.len());
        self.len = self.len.saturating_add(taken);
        if !self.only_counts {
            self.bytes.extend_from_slice(&buf[..taken])?;
        }
        Ok(taken)
    }

    fn flush(&mut self) -> io::Result<()> {
        self.flushes = self.flushes.saturating_add(1);
        match self.manner {
            Manner::FlushesUntil(call, kind) if self.flushes >= call => Err(io::Error::from(kind)),
            _ => Ok(()),
        }
    }
}
