//! The line of a verdict: `yes ROWS CASES`, `malformed LINE CAUSE` or `wrong LINE DIRECTION PLACE`. A place is
//! `paragraph level`, `levels INDEX` or `order INDEX`.

use crate::judging::push_verdict;
use crate::options::Options;
use anyhow::{Context, Result, bail};
use bidtests::verdict::{Cause, Place, Verdict};
use bidtests::verdict_line::print_verdict;
use row_files::words::{direction_of, number_of};
use std::alloc::Global;

/// Returns the cause with this name. Fails if there is none.
fn cause_of(name: &str) -> Result<Cause> {
    match name {
        "LineTooLong" => Ok(Cause::LineTooLong),
        "BitSet" => Ok(Cause::BitSet),
        _ => bail!("no cause is named {name}"),
    }
}

/// Returns the place that two words name.
fn place_of(part: &str, index: &str) -> Result<Place> {
    match part {
        "paragraph" => Ok(Place::ParaLevel),
        "levels" => Ok(Place::Levels(number_of(index)?)),
        "order" => Ok(Place::Order(number_of(index)?)),
        _ => bail!("no place is named {part}"),
    }
}

/// Returns the verdict that a field writes.
fn verdict_of(alloc: Global, field: &str) -> Result<Verdict> {
    let words: Vec<&str> = field.split_whitespace().collect(alloc)?;
    match *words.as_slice() {
        ["yes", rows, cases] => Ok(Verdict::Yes {
            rows: rows.parse()?,
            cases: cases.parse()?,
        }),
        ["malformed", line, cause] => Ok(Verdict::Malformed {
            line: line.parse()?,
            cause: cause_of(cause)?,
        }),
        ["wrong", line, direction, part, index] => Ok(Verdict::Wrong {
            line: line.parse()?,
            direction: direction_of(direction)?,
            place: place_of(part, index)?,
        }),
        _ => bail!("no verdict is written {field}"),
    }
}

/// Returns whether the line of a verdict is written to a buffer of this size.
fn has_room(verdict: &Verdict, size: usize) -> Result<bool> {
    let mut bytes = [0; 64];
    let mut buffer = bytes.get_mut(..size).context("the buffer is too large")?;
    Ok(print_verdict(&mut buffer, verdict).is_ok())
}

/// Appends the line of a verdict, or that a write failed if there is too little room for it.
pub fn comes_out(alloc: Global, options: &Options, field: &str, out: &mut String) -> Result<()> {
    let verdict = verdict_of(alloc, field)?;
    match options.buffer {
        Some(size) if !has_room(&verdict, size)? => Ok(out.push_str("a write failed")?),
        _ => push_verdict(alloc, out, &verdict),
    }
}
