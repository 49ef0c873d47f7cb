//! Faults as rows write them: a name, and the line if there is one.

use anyhow::{Context, Result, bail};
use row_files::words::push_word;
use std::alloc::AllocError;
use ucdfiles::fault::TableFault;
use ucdfiles::files::FileFault;

/// Appends the name of a fault, and its line.
pub fn push_fault(out: &mut String, fault: TableFault) -> Result<(), AllocError> {
    push_word(out, fault.name())?;
    match fault.line() {
        Some(line) => push_word(out, line),
        None => Ok(()),
    }
}

/// Appends the kind of a faulty file, and its fault.
pub fn push_file_fault(out: &mut String, fault: FileFault) -> Result<(), AllocError> {
    let (kind, fault) = match fault {
        FileFault::Classes(fault) => ("classes", fault),
        FileFault::Brackets(fault) => ("brackets", fault),
        FileFault::Mirrors(fault) => ("mirrors", fault),
    };
    push_word(out, kind)?;
    push_fault(out, fault)
}

/// Returns the fault of a line with this name. Fails if there is none.
fn fault_at(name: &str, line: u64) -> Result<TableFault> {
    Ok(match name {
        "CodePoint" => TableFault::CodePoint(line),
        "Backwards" => TableFault::Backwards(line),
        "ClassName" => TableFault::ClassName(line),
        "Fields" => TableFault::Fields(line),
        "Overlap" => TableFault::Overlap(line),
        "Twice" => TableFault::Twice(line),
        "BracketKind" => TableFault::BracketKind(line),
        "LineTooLong" => TableFault::LineTooLong(line),
        "TooMany" => TableFault::TooMany(line),
        _ => bail!("no fault of a line is named {name}"),
    })
}

/// Returns the fault that a field writes. Fails if it writes none.
pub fn fault_of(field: &str) -> Result<TableFault> {
    match field {
        "Read" => Ok(TableFault::Read),
        "Memory" => Ok(TableFault::Memory),
        _ => {
            let (name, line) = field.split_once(' ').context("the fault has no line")?;
            fault_at(name, line.parse()?)
        }
    }
}
