//! What a source over a reader returns: the reader takes a step at each read, which is a number of bytes or the kind of
//! an error.

use crate::failing::{Step, SteppingReader};
use crate::options::{Coming, Options};
use anyhow::{Result, bail};
use row_files::words::{error_kind_of, push_word};
use std::alloc::{AllocError, Global};
use units::reader_source::ReaderSource;
use units::source::{ByteSource, SourceFault};

/// Returns the step that a word names.
fn step_of(word: &str) -> Result<Step> {
    match word.parse() {
        Ok(count) => Ok(Step::Gives(count)),
        Err(_) => Ok(Step::Fails(error_kind_of(word)?)),
    }
}

/// Returns the steps that the words of a field name.
fn steps_of(alloc: Global, field: &str) -> Result<Vec<Step>> {
    let mut steps = Vec::new(alloc);
    for word in field.split_whitespace() {
        steps.push(step_of(word)?)?;
    }
    Ok(steps)
}

/// Reads so many times, and appends what each read returns.
fn push_reads(
    out: &mut String,
    source: &mut impl ByteSource,
    buffer: &mut [u8],
    reads: usize,
) -> Result<()> {
    for _ in 0..reads {
        if buffer.is_empty() {
            bail!("the buffer is empty");
        }
        match source.read(buffer) {
            Ok(count) => push_word(out, count)?,
            Err(SourceFault) => push_word(out, "fails")?,
        }
    }
    Ok(())
}

/// Appends how many reads failed and why.
fn push_failures(
    out: &mut String,
    source: &ReaderSource<SteppingReader<'_>>,
) -> Result<(), AllocError> {
    match source.failures() {
        0 => Ok(()),
        _ => write!(out, ", failed: {:?}", source.unread()),
    }
}

/// Appends what the source of a reader with these steps returns, and whether it has failed.
pub fn comes_out(alloc: Global, options: &Options, field: &str, out: &mut String) -> Result<()> {
    let steps = steps_of(alloc, field)?;
    let limit = match options.coming {
        Coming::AtMost => options.numbers.one()? as u64,
        _ => u64::MAX,
    };
    let mut source = ReaderSource::new(SteppingReader { steps: &steps }, limit);
    let mut bytes = [0; 64];
    let Some(buffer) = bytes.get_mut(..options.buffer.unwrap_or(64)) else {
        bail!("the buffer is too large");
    };
    push_reads(out, &mut source, buffer, options.reads)?;
    Ok(push_failures(out, &source)?)
}
