//! Prints the texts that rows state, and explains them. Each row states what must come out: what is printed, and the
//! fault after it, if there is one. The program prints the rows that failed, and for each file of rows how many passed.
//!
//! A row is `VERB; OPTIONS; INPUT; RESULT`. The verbs, each with its input:
//!
//! `levels` and `reorder`: a text, as its code points or as bytes. It is printed as a list of characters and also while
//! it is read; the same must come out of both.
//!
//! `explain`: the code points of a text, or classes.
//!
//! `rows`: the code points of a text whose rows are printed, as in a file of characters or of classes.
//!
//! `positions`: positions, as rows have them.
//!
//! `letters`: of how many classes or characters letters are made.
#![tactic(auto)]

mod coming_out;
mod options;
mod pieces;
mod printed;
mod shown;
mod stop;
mod writer;

use anyhow::{Result, bail};
use coming_out::{Asked, tables_with};
use options::Options;
use row_files::files::{Check, check_files};
use std::alloc::Global;
use std::process::ExitCode;
use ucdfiles::small::MIRRORS;
use ucdfiles::tables::Tables;

/// Prints what the rows ask for, with these tables.
#[derive(Drop)]
struct PrintedRows {
    tables: Tables,
}

impl Check for PrintedRows {
    fn come_out(&self, alloc: Global, fields: &[&str], out: &mut String) -> Result<()> {
        let [verb, options, input] = *fields else {
            bail!("no verb has these fields");
        };
        let options = &Options::of_field(alloc, options)?;
        let others = match &options.mirrors {
            None => None,
            Some(file) => Some(tables_with(alloc, file)?),
        };
        let asked = Asked {
            alloc,
            tables: others.as_ref().unwrap_or(&self.tables),
            options,
        };
        asked.come_out(verb, input, out)
    }

    fn most_fields(&self) -> usize {
        3
    }
}

fn main(rt: HostRuntime) -> Result<ExitCode> {
    let tables = tables_with(rt.alloc(), MIRRORS)?;
    check_files(&rt, &PrintedRows { tables })
}
