//! Readers and writers that fail.

use std::io::{self, ErrorKind, Read, Write};

/// Fails at each write and at each flush, with an error of this kind.
#[derive(Drop)]
pub struct FailingWriter {
    pub kind: ErrorKind,
}

impl Write for FailingWriter {
    fn write(&mut self, _buf: &[u8]) -> io::Result<usize> {
        Err(io::Error::from(self.kind))
    }

    fn flush(&mut self) -> io::Result<()> {
        Err(io::Error::from(self.kind))
    }
}

/// What a reader does at a read.
#[derive(Clone, Copy)]
pub enum Step {
    /// It gives so many bytes, or as many as the buffer has.
    Gives(usize),
    /// It fails with an error of this kind.
    Fails(ErrorKind),
}

/// Takes these steps, and then ends.
#[derive(Drop)]
pub struct SteppingReader<'a> {
    pub steps: &'a [Step],
}

impl Read for SteppingReader<'_> {
    fn read(&mut self, buf: &mut [u8]) -> io::Result<usize> {
        let Some((step, rest)) = self.steps.split_first() else {
            return Ok(0);
        };
        self.steps = rest;
        match *step {
            Step::Gives(most) => {
                let count = buf.len().min(most);
                buf[..count].fill(b'a');
                Ok(count)
            }
            Step::Fails(kind) => Err(io::Error::from(kind)),
        }
    }
}
