//! A writer in memory.
use std::io::{self, Write};

/// The maximum number of bytes of an output in these tests.
const MOST_WRITTEN: usize = 4096;

/// Stores what is written in an array. It allocates no memory.
#[derive(Drop)]
pub struct FixedWriter {
    bytes: [u8; MOST_WRITTEN],
    len: usize,
}

impl FixedWriter {
    /// Creates a writer without output.
    pub fn new() -> Self {
        FixedWriter {
            bytes: [0; MOST_WRITTEN],
            len: 0,
        }
    }

    /// Returns what was written.
    pub fn written(&self) -> &[u8] {
        &self.bytes[..self.len.min(MOST_WRITTEN)]
    }
}

impl Write for FixedWriter {
    fn write(&mut self, buf: &[u8]) -> io::Result<usize> {
        let start = self.len.min(MOST_WRITTEN);
        let taken = buf.len().min(MOST_WRITTEN - start);
        self.bytes[start..start + taken].copy_from_slice(&buf[..taken]);
        self.len = start + taken;
        Ok(taken)
    }

    fn flush(&mut self) -> io::Result<()> {
        Ok(())
    }
}
