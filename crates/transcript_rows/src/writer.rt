//! A writer in memory, which may fail.

use std::alloc::Global;
use std::io::{self, ErrorKind, Write};

/// What a writer takes, and how it fails.
#[derive(Clone, Copy)]
pub struct Taking {
    /// How many bytes it takes before each write fails.
    pub most: usize,
    /// Whether a flush succeeds.
    pub flushes: bool,
    /// The error with which a write or a flush fails.
    pub kind: ErrorKind,
}

impl Taking {
    /// Returns what a writer takes that never fails.
    pub fn everything() -> Taking {
        Taking {
            most: usize::MAX,
            flushes: true,
            kind: ErrorKind::StorageFull,
        }
    }
}

/// A writer that stores what it takes.
#[derive(Drop)]
pub struct MemoryWriter {
    bytes: Vec<u8>,
    flushed: usize,
    taking: Taking,
}

impl MemoryWriter {
    /// Creates a writer that takes so much.
    pub fn new(alloc: Global, taking: Taking) -> MemoryWriter {
        MemoryWriter {
            bytes: Vec::new(alloc),
            flushed: 0,
            taking,
        }
    }

    /// Returns what it took.
    pub fn written(&self) -> &[u8] {
        &self.bytes
    }

    /// Returns whether it flushed all that it took.
    pub fn is_flushed(&self) -> bool {
        self.flushed == self.bytes.len()
    }

    /// Returns whether it never fails.
    pub fn takes_everything(&self) -> bool {
        self.taking.most == usize::MAX && self.taking.flushes
    }
}

impl Write for MemoryWriter {
    fn write(&mut self, buf: &[u8]) -> io::Result<usize> {
        let most = self.taking.most.saturating_sub(self.bytes.len());
        let count = most.min(buf.len());
        if count == 0 {
            return Err(io::Error::from(self.taking.kind));
        }
        self.bytes.extend_from_slice(&buf[..count])?;
        Ok(count)
    }

    fn flush(&mut self) -> io::Result<()> {
        if !self.taking.flushes {
            return Err(io::Error::from(self.taking.kind));
        }
        self.flushed = self.bytes.len();
        Ok(())
    }
}
