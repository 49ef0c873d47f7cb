//! What comes out of one property file, whole or in pieces, of a source that fails, and of arbitrary bytes.

use crate::fault_words::push_fault;
use crate::stated::{push_brackets, push_classes, push_images};
use anyhow::{Context, Result, bail};
use row_files::bytes::arbitrary;
use row_files::words::push_word;
use std::alloc::{AllocError, Global};
use std::io::{self, Read};
use ucdfiles::bracket_table::BracketTable;
use ucdfiles::class_table::ClassTable;
use ucdfiles::fault::TableFault;
use ucdfiles::mirror_table::MirrorTable;
use units::cut_source::CutSource;
use units::reader_source::ReaderSource;
use units::slice_source::SliceSource;
use units::source::ByteSource;

/// The kinds of property files.
#[derive(Clone, Copy)]
pub enum TableKind {
    Classes,
    Brackets,
    Mirrors,
}

/// Returns the kind with this name. Fails if there is none.
pub fn kind_of(name: &str) -> Result<TableKind> {
    match name {
        "classes" => Ok(TableKind::Classes),
        "brackets" => Ok(TableKind::Brackets),
        "mirrors" => Ok(TableKind::Mirrors),
        _ => bail!("no kind of file is named {name}"),
    }
}

/// Appends what the bytes of a file state for these characters, or their fault.
pub fn push_outcome(
    alloc: Global,
    kind: TableKind,
    bytes: &[u8],
    chars: &[char],
    out: &mut String,
) -> Result<(), AllocError> {
    let mut source = SliceSource::new(bytes);
    match kind {
        TableKind::Classes => match ClassTable::read(alloc, &mut source) {
            Ok(table) => push_classes(&table, chars, out),
            Err(fault) => push_fault(out, fault),
        },
        TableKind::Brackets => match BracketTable::read(alloc, &mut source) {
            Ok(table) => push_brackets(alloc, &table, chars, out),
            Err(fault) => push_fault(out, fault),
        },
        TableKind::Mirrors => match MirrorTable::read(alloc, &mut source) {
            Ok(table) => push_images(&table, chars, out),
            Err(fault) => push_fault(out, fault),
        },
    }
}

/// Returns the fault of the file of a source.
fn fault_in<S: ByteSource>(alloc: Global, kind: TableKind, source: &mut S) -> Option<TableFault> {
    match kind {
        TableKind::Classes => ClassTable::read(alloc, source).err(),
        TableKind::Brackets => BracketTable::read(alloc, source).err(),
        TableKind::Mirrors => MirrorTable::read(alloc, source).err(),
    }
}

/// Appends the fault of a file whose source fails after these bytes. Fails if there is none, or if the fault is another
/// than `Read` when the source fails earlier.
pub fn push_cut_outcome(
    alloc: Global,
    kind: TableKind,
    bytes: &[u8],
    out: &mut String,
) -> Result<()> {
    for count in 0..bytes.len() {
        if fault_in(alloc, kind, &mut CutSource::new(bytes, count)) != Some(TableFault::Read) {
            bail!("the fault is not Read if the source fails after {count} bytes");
        }
    }
    let fault = fault_in(alloc, kind, &mut CutSource::new(bytes, bytes.len()));
    push_fault(out, fault.context("no fault comes of a source that fails")?)?;
    Ok(())
}

/// Gives the bytes of a slice, at most `most` in each read.
#[derive(Drop)]
struct Pieces<'a> {
    bytes: &'a [u8],
    most: usize,
}

impl Read for Pieces<'_> {
    fn read(&mut self, buf: &mut [u8]) -> io::Result<usize> {
        let count = self.most.min(self.bytes.len()).min(buf.len());
        let (piece, rest) = self.bytes.split_at(count);
        buf[..count].copy_from_slice(piece);
        self.bytes = rest;
        Ok(count)
    }
}

/// Returns whether these bytes have a fault with a line. Fails if they have another one in pieces.
fn is_faulty(alloc: Global, kind: TableKind, bytes: &[u8]) -> Result<bool> {
    let fault = fault_in(alloc, kind, &mut SliceSource::new(bytes));
    for most in [1, 7] {
        let mut source = ReaderSource::new(Pieces { bytes, most }, u64::MAX);
        if fault_in(alloc, kind, &mut source) != fault {
            bail!("the fault is another in pieces of {most} bytes");
        }
    }
    Ok(fault.and_then(|fault| fault.line()).is_some())
}

/// Appends how many of 256 arbitrary files, one for each first byte, have a fault with a line.
pub fn push_faulty_count(alloc: Global, kind: TableKind, out: &mut String) -> Result<()> {
    let mut count = 0_usize;
    for first in 0..=255 {
        if is_faulty(alloc, kind, &arbitrary(first))? {
            count = count.saturating_add(1);
        }
    }
    push_word(out, count)?;
    Ok(())
}
