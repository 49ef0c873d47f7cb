//! Buffers of the engine that are made.

use anyhow::Result;
use explicit::isolates::IsolateMap;
use explicit::levels::Explicit;
use paragraph::resolver::Resolver;
use resolve::pairs::Pairs;
use row_files::words::{number_of, push_word};
use sequences::sequences::Sequences;
use std::alloc::{AllocError, Global};
use units::memory::Memory;

/// Appends the error of making a buffer, or `made` without one.
fn push_outcome(out: &mut String, fault: Option<Memory>) -> Result<(), AllocError> {
    match fault {
        Some(fault) => push_word(out, format_args!("{fault:?}")),
        None => push_word(out, "made"),
    }
}

/// Appends for each kind of buffer whether it is made for so many positions.
pub fn push_made(alloc: Global, n: &str, out: &mut String) -> Result<()> {
    let n = number_of(n)?;
    let faults = [
        IsolateMap::with_room(alloc, n).err(),
        Explicit::with_room(alloc, n).err(),
        Sequences::with_room(alloc, n).err(),
        Pairs::with_room(alloc, n).err(),
        Resolver::with_room(alloc, n).err(),
    ];
    for fault in faults {
        push_outcome(out, fault)?;
    }
    Ok(())
}
