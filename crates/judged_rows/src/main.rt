//! Judges the test files that rows state, reports on them, and reads sources that fail. Each row states what must come
//! out; the program prints the rows that failed, and for each file of rows how many passed.
//!
//! The verbs, each with its inputs:
//!
//! `judge; OPTIONS; FILE`: the verdict on a test file (`judging`).
//!
//! `report; OPTIONS; FILE`: the report on a test file (`reporting`).
//!
//! `print; OPTIONS; VERDICT`: the line of a verdict (`printing_verdicts`).
//!
//! `read; OPTIONS; READS`: what a source over a reader returns (`reading`).
//!
//! `limits; DEPTH BRACKETS`: whether these limits are allowed.
#![tactic(auto)]

mod arbitrary;
mod bytes;
mod failing;
mod judging;
mod options;
mod printing_verdicts;
mod reading;
mod reporting;

use anyhow::{Result, bail};
use options::Options;
use row_files::files::{Check, check_files};
use row_files::words::numbers_of;
use std::alloc::Global;
use std::process::ExitCode;
use ucdfiles::tables::Tables;
use units::limits::Limits;

/// Does what the rows ask for, with these tables.
#[derive(Drop)]
struct Judged {
    tables: Tables,
}

/// Appends the limits of this depth and number of brackets, or why they are not allowed.
fn push_limits(out: &mut String, depth: u8, brackets: u8) -> Result<()> {
    match Limits::new(depth, brackets) {
        Ok(limits) if limits == Limits::standard() => write!(out, "the standard ones")?,
        Ok(limits) => write!(
            out,
            "depth {} brackets {}",
            limits.depth(),
            limits.brackets()
        )?,
        Err(fault) => write!(out, "not allowed: {fault:?}")?,
    }
    Ok(())
}

/// Appends what comes out of the limits in a field.
fn limits_come_out(alloc: Global, field: &str, out: &mut String) -> Result<()> {
    let numbers = numbers_of(alloc, field)?;
    let [depth, brackets] = *numbers.as_slice() else {
        bail!("limits are two numbers");
    };
    push_limits(out, u8::try_from(depth)?, u8::try_from(brackets)?)
}

impl Judged {
    /// Appends what comes out of a verb with options.
    fn with_options(
        &self,
        alloc: Global,
        verb: &str,
        options: &Options,
        input: &str,
        out: &mut String,
    ) -> Result<()> {
        let kind = options.kind(&self.tables);
        match verb {
            "judge" => judging::comes_out(alloc, kind, options, input, out),
            "report" => reporting::comes_out(alloc, kind, options, input, out),
            "print" => printing_verdicts::comes_out(alloc, options, input, out),
            "read" => reading::comes_out(alloc, options, input, out),
            _ => bail!("no verb is named {verb}"),
        }
    }
}

impl Check for Judged {
    fn come_out(&self, alloc: Global, fields: &[&str], out: &mut String) -> Result<()> {
        match *fields {
            ["limits", numbers] => limits_come_out(alloc, numbers, out),
            [verb, options, input] => {
                let options = Options::of_field(options)?;
                self.with_options(alloc, verb, &options, input, out)
            }
            _ => bail!("no verb has these fields"),
        }
    }

    fn most_fields(&self) -> usize {
        3
    }
}

fn main(rt: HostRuntime) -> Result<ExitCode> {
    let tables = standard::tables();
    check_files(&rt, &Judged { tables })
}
