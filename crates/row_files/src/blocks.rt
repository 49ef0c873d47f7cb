//! Files of blocks, for rows that take several lines: a block states inputs, and one row or several rows on them.
//!
//! Blank lines separate blocks. A line that begins with `#` is a comment, also in a block.

use crate::files::{CheckText, Counts, check_texts};
use anyhow::Result;
use std::alloc::{AllocError, Global};
use std::process::ExitCode;

/// A line of a file, with its number.
#[derive(Clone, Copy)]
pub struct Line<'a> {
    pub number: usize,
    pub text: &'a str,
}

/// The rows of a file that were checked so far.
#[derive(Drop)]
pub struct Checked<'a> {
    file: &'a str,
    counts: Counts,
    faults: String,
}

impl<'a> Checked<'a> {
    fn new(alloc: Global, file: &'a str) -> Checked<'a> {
        Checked {
            file,
            counts: Counts::new(),
            faults: String::new(alloc),
        }
    }

    /// Counts the row at this line. It failed so, or passed if nothing is wrong with it.
    pub fn count(&mut self, line: usize, fault: &str) -> Result<(), AllocError> {
        self.counts.count(fault.is_empty());
        if !fault.is_empty() {
            write!(self.faults, "{}:{line}: {fault}\n", self.file)?;
        }
        Ok(())
    }
}

/// What a program does with the blocks of its files.
pub trait CheckBlock {
    /// Checks the rows of a block. Fails if they can't be read.
    fn check_block(
        &self,
        alloc: Global,
        lines: &[Line<'_>],
        checked: &mut Checked<'_>,
    ) -> Result<()>;
}

/// Checks the rows of a block, unless it has no lines. A block that can't be read counts as a row that failed.
fn check_lines<C: CheckBlock>(
    alloc: Global,
    check: &C,
    lines: &[Line<'_>],
    checked: &mut Checked<'_>,
) -> Result<()> {
    let Some(first) = lines.first() else {
        return Ok(());
    };
    if let Err(error) = check.check_block(alloc, lines, checked) {
        checked.count(first.number, &format!(in alloc; "{error}")?)?;
    }
    Ok(())
}

/// Checks rows in blocks.
#[derive(Drop)]
struct Blocks<'a, C: CheckBlock> {
    check: &'a C,
}

impl<C: CheckBlock> CheckText for Blocks<'_, C> {
    fn check_text(&self, rt: &HostRuntime, file: &str, text: &str) -> Result<Counts> {
        let alloc = rt.alloc();
        let mut checked = Checked::new(alloc, file);
        let mut lines = Vec::new(alloc);
        let mut number = 0_usize;
        for text in text.lines() {
            number = number.saturating_add(1);
            if text.trim().is_empty() {
                check_lines(alloc, self.check, &lines, &mut checked)?;
                lines.clear();
            } else if !text.starts_with('#') {
                lines.push(Line { number, text })?;
            }
        }
        check_lines(alloc, self.check, &lines, &mut checked)?;
        print!(rt; "{}", checked.faults)?;
        Ok(checked.counts)
    }
}

/// Checks rows in blocks, in the files that the program's arguments name (`check_texts`).
pub fn check_block_files<C: CheckBlock>(rt: &HostRuntime, check: &C) -> Result<ExitCode> {
    check_texts(rt, &Blocks { check })
}
