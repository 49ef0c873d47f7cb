//! Checks rows: the bytes of property files, and what their tables state for some code points, or the fault. The first
//! lines of each file in data/ say what its fields are.
#![tactic(auto)]

mod fault_words;
mod kit;
mod outcomes;
mod stated;

use anyhow::{Context, Result, bail};
use fault_words::{fault_of, push_file_fault};
use kit::push_differing;
use outcomes::{TableKind, kind_of, push_cut_outcome, push_faulty_count, push_outcome};
use row_files::bytes::bytes_of;
use row_files::files::{Check, check_files};
use row_files::words::{push_word, text_of};
use stated::push_units;
use std::alloc::Global;
use std::fs;
use std::process::ExitCode;
use ucdfiles::tables::Tables;

/// What rows ask for. Finds the files that they name by this runtime.
#[derive(Drop)]
struct TableRows<'a> {
    rt: &'a HostRuntime,
}

/// Returns the characters of the code points in a field.
fn characters(alloc: Global, codes: &str) -> Result<Vec<char>> {
    let text = text_of(alloc, codes)?;
    Ok(text.chars().collect(alloc)?)
}

/// Appends what the built-in tables state.
fn push_standard(alloc: Global, codes: &str, out: &mut String) -> Result<()> {
    let chars = characters(alloc, codes)?;
    push_units(alloc, &standard::tables(), &chars, out)?;
    Ok(())
}

impl TableRows<'_> {
    /// Returns the bytes of the file that a field states, or names.
    fn bytes(&self, file: &str) -> Result<Vec<u8>> {
        if file.starts_with('"') {
            bytes_of(self.rt.alloc(), file)
        } else {
            fs::read(self.rt, file).context(format_args!("reading {file}"))
        }
    }

    /// Appends what a file of this kind states.
    fn push_table(&self, kind: TableKind, file: &str, codes: &str, out: &mut String) -> Result<()> {
        let chars = characters(self.rt.alloc(), codes)?;
        push_outcome(self.rt.alloc(), kind, &self.bytes(file)?, &chars, out)?;
        Ok(())
    }

    /// Appends the fault of a file whose source fails after its bytes.
    fn push_cut(&self, kind: &str, file: &str, out: &mut String) -> Result<()> {
        push_cut_outcome(self.rt.alloc(), kind_of(kind)?, &self.bytes(file)?, out)
    }

    /// Appends what three files state together.
    fn push_tables(&self, files: [&str; 3], codes: &str, out: &mut String) -> Result<()> {
        let [classes, brackets, mirrors] = files;
        let classes = self.bytes(classes)?;
        let brackets = self.bytes(brackets)?;
        let mirrors = self.bytes(mirrors)?;
        let chars = characters(self.rt.alloc(), codes)?;
        match Tables::read(self.rt.alloc(), &classes, &brackets, &mirrors) {
            Ok(tables) => push_units(self.rt.alloc(), &tables, &chars, out)?,
            Err(fault) => push_file_fault(out, fault)?,
        }
        Ok(())
    }
}

impl Check for TableRows<'_> {
    fn come_out(&self, alloc: Global, fields: &[&str], out: &mut String) -> Result<()> {
        match fields {
            ["classes", file, codes] => self.push_table(TableKind::Classes, file, codes, out),
            ["brackets", file, codes] => self.push_table(TableKind::Brackets, file, codes, out),
            ["mirrors", file, codes] => self.push_table(TableKind::Mirrors, file, codes, out),
            ["tables", classes, brackets, mirrors, codes] => {
                self.push_tables([classes, brackets, mirrors], codes, out)
            }
            ["standard", codes] => push_standard(alloc, codes, out),
            ["cut", kind, file] => self.push_cut(kind, file, out),
            ["arbitrary", kind] => push_faulty_count(alloc, kind_of(kind)?, out),
            ["differing", age, range] => push_differing(alloc, age, range, out),
            ["text", fault] => Ok(push_word(out, fault_of(fault)?)?),
            _ => bail!("no verb has this name and so many fields"),
        }
    }
}

fn main(rt: HostRuntime) -> Result<ExitCode> {
    check_files(&rt, &TableRows { rt: &rt })
}
