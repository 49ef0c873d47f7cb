//! Files of rows, which a program checks.

use crate::words::words_of;
use anyhow::{Context, Result, bail};
use std::alloc::{AllocError, Global};
use std::process::ExitCode;
use std::{env, fs};

/// What a program does with the rows of its files.
pub trait Check {
    /// Does what a row asks for, and appends the words that come out. `fields` are its verb and its inputs. Fails if
    /// they can't be read.
    fn come_out(&self, alloc: Global, fields: &[&str], out: &mut String) -> Result<()>;

    /// Returns how many fields a row has at most before its last one. Further `;` are in the last of these fields.
    fn most_fields(&self) -> usize {
        usize::MAX
    }
}

/// How the rows of a file's text are checked.
pub trait CheckText {
    /// Checks the rows of a text, and prints each that failed. Returns how many there are and how many passed.
    fn check_text(&self, rt: &HostRuntime, file: &str, text: &str) -> Result<Counts>;
}

/// How many rows there are, and how many of them passed.
#[derive(Clone, Copy)]
pub struct Counts {
    rows: u64,
    passed: u64,
}

impl Counts {
    /// Returns the counts of no rows.
    pub fn new() -> Counts {
        Counts { rows: 0, passed: 0 }
    }

    /// Counts a row.
    pub fn count(&mut self, passed: bool) {
        self.rows = self.rows.saturating_add(1);
        self.passed = self.passed.saturating_add(u64::from(passed));
    }

    /// Returns whether each row passed.
    fn all_passed(self) -> bool {
        self.rows == self.passed
    }
}

/// Where a row is.
#[derive(Clone, Copy)]
struct Place<'a> {
    file: &'a str,
    line: usize,
}

/// Returns the fields of a text, at most `most`. A `;` between quotation marks separates none.
pub fn fields_of(alloc: Global, row: &str, most: usize) -> Result<Vec<&str>, AllocError> {
    let mut fields = Vec::new(alloc);
    let mut is_quoted = false;
    let ends_field = |c: char| {
        is_quoted ^= c == '"';
        c == ';' && !is_quoted
    };
    for field in row.splitn(most, ends_field) {
        fields.push(field.trim())?;
    }
    Ok(fields)
}

/// Does what a row asks for. Returns the words that came out, and those of its last field.
fn results_of<C: Check>(alloc: Global, check: &C, row: &str) -> Result<(String, String)> {
    let (front, last) = row
        .rsplit_once(';')
        .context("no field says what must come out")?;
    let expected = words_of(alloc, last)?;
    let fields = fields_of(alloc, front, check.most_fields())?;
    let mut out = String::new(alloc);
    check.come_out(alloc, &fields, &mut out)?;
    Ok((out, expected))
}

/// Checks a row and prints how it failed, if it did. Returns whether it passed.
fn check_row<C: Check>(rt: &HostRuntime, check: &C, place: Place<'_>, row: &str) -> Result<bool> {
    let Place { file, line } = place;
    match results_of(rt.alloc(), check, row) {
        Ok((out, expected)) => {
            let passed = out.as_str() == expected.as_str();
            if !passed {
                println!(rt; "{file}:{line}: {out} came out, not {expected}")?;
            }
            Ok(passed)
        }
        Err(error) => {
            println!(rt; "{file}:{line}: {error}")?;
            Ok(false)
        }
    }
}

/// Returns whether a line is a row: neither blank nor a comment.
fn is_row(line: &str) -> bool {
    let text = line.trim_start();
    !text.is_empty() && !text.starts_with('#')
}

/// Checks rows of one line each.
#[derive(Drop)]
struct Rows<'a, C: Check> {
    check: &'a C,
}

impl<C: Check> CheckText for Rows<'_, C> {
    fn check_text(&self, rt: &HostRuntime, file: &str, text: &str) -> Result<Counts> {
        let mut counts = Counts::new();
        let mut place = Place { file, line: 0 };
        for line in text.lines() {
            place.line = place.line.saturating_add(1);
            if is_row(line) {
                counts.count(check_row(rt, self.check, place, line)?);
            }
        }
        Ok(counts)
    }
}

/// Checks the rows of a file. Prints each row that failed, and how many rows there are and how many passed.
fn check_file<C: CheckText>(rt: &HostRuntime, check: &C, file: &str) -> Result<bool> {
    let text = fs::read_to_string(rt, file).context(format_args!("reading {file}"))?;
    let counts = check.check_text(rt, file, &text)?;
    println!(rt; "{file}: {} of {} rows passed", counts.passed, counts.rows)?;
    Ok(counts.all_passed())
}

/// Checks the files that the program's arguments name. Prints each row that failed, and for each file how many rows
/// passed. Returns success if all rows of all files passed. Fails if no file is named or one can't be read.
pub fn check_texts<C: CheckText>(rt: &HostRuntime, check: &C) -> Result<ExitCode> {
    let files: Vec<String> = env::args(rt)?.skip(1).collect(rt.alloc())?;
    if files.is_empty() {
        bail!("no file of rows is named");
    }
    let mut all_passed = true;
    for file in &files {
        all_passed &= check_file(rt, check, file.as_str())?;
    }
    Ok(ExitCode::from(u8::from(!all_passed)))
}

/// Checks rows of one line each, in the files that the program's arguments name (`check_texts`).
pub fn check_files<C: Check>(rt: &HostRuntime, check: &C) -> Result<ExitCode> {
    check_texts(rt, &Rows { check })
}
