//! Reads the tables of a folder, and a text.

use std::alloc::Global;
use std::fs;
use std::io::{self, Read};
use ucdfiles::bracket_table::BracketTable;
use ucdfiles::class_table::ClassTable;
use ucdfiles::mirror_table::MirrorTable;
use ucdfiles::tables::Tables;
use units::reader_source::ReaderSource;

/// The most bytes that are read of a table's file.
const MOST_FILE_BYTES: u64 = 16_777_216;

/// Opens the file of this name in the folder.
fn open<R: std::rt::Files>(rt: &R, alloc: Global, folder: &str, name: &str) -> io::Result<R::File> {
    let path = format!(in alloc; "{folder}/{name}")?;
    fs::open(rt, path.as_str())
}

/// Opens a source of the bytes of the file of this name in the folder.
fn source<R: std::rt::Files>(
    rt: &R,
    alloc: Global,
    folder: &str,
    name: &str,
) -> io::Result<ReaderSource<R::File>> {
    let file = open(rt, alloc, folder, name)?;
    Ok(ReaderSource::new(file, MOST_FILE_BYTES))
}

/// Returns the error for a faulty table or text.
fn invalid() -> io::Error {
    io::ErrorKind::InvalidData.into()
}

/// Reads the classes of characters from their file in the folder.
fn read_classes<R: std::rt::Files>(rt: &R, alloc: Global, folder: &str) -> io::Result<ClassTable> {
    let mut source = source(rt, alloc, folder, "DerivedBidiClass.txt")?;
    ClassTable::read(alloc, &mut source).map_err(|_| invalid())
}

/// Reads the brackets from their file in the folder.
fn read_brackets<R: std::rt::Files>(
    rt: &R,
    alloc: Global,
    folder: &str,
) -> io::Result<BracketTable> {
    let mut source = source(rt, alloc, folder, "BidiBrackets.txt")?;
    BracketTable::read(alloc, &mut source).map_err(|_| invalid())
}

/// Reads the mirrored characters from their file in the folder.
fn read_mirrors<R: std::rt::Files>(rt: &R, alloc: Global, folder: &str) -> io::Result<MirrorTable> {
    let mut source = source(rt, alloc, folder, "BidiMirroring.txt")?;
    MirrorTable::read(alloc, &mut source).map_err(|_| invalid())
}

/// Reads the brackets and the mirrored characters from their files in the folder.
fn read_pairs<R: std::rt::Files>(
    rt: &R,
    alloc: Global,
    folder: &str,
) -> io::Result<(BracketTable, MirrorTable)> {
    let brackets = read_brackets(rt, alloc, folder)?;
    let mirrors = read_mirrors(rt, alloc, folder)?;
    Ok((brackets, mirrors))
}

/// Reads the tables of the three property files in the folder. Fails with `InvalidData` if one of them is faulty.
pub fn read_tables<R: std::rt::Files>(rt: &R, alloc: Global, folder: &str) -> io::Result<Tables> {
    let classes = read_classes(rt, alloc, folder)?;
    let (brackets, mirrors) = read_pairs(rt, alloc, folder)?;
    Ok(Tables::new(classes, brackets, mirrors))
}

/// Appends the bytes of a file to `bytes`.
fn read_bytes<F: Read>(file: &mut F, bytes: &mut Vec<u8>) -> io::Result<()> {
    let mut piece = [0; 4096];
    for _ in 0..u64::MAX {
        match file.read(&mut piece)? {
            0 => break,
            n => bytes.extend_from_slice(&piece[..n])?,
        }
    }
    Ok(())
}

/// Returns the characters of bytes in UTF-8. Fails with `InvalidData` if they are not UTF-8.
fn characters(alloc: Global, bytes: &[u8]) -> io::Result<Vec<char>> {
    match str::from_utf8(bytes) {
        Ok(text) => Ok(text.chars().collect(alloc)?),
        Err(_) => Err(invalid()),
    }
}

/// Appends the bytes of the file of this name to `bytes`.
fn read_file<R: std::rt::Files>(rt: &R, name: &str, bytes: &mut Vec<u8>) -> io::Result<()> {
    let mut file = fs::open(rt, name)?;
    read_bytes(&mut file, bytes)
}

/// Reads the characters of a file in UTF-8. Fails with `InvalidData` if it is not UTF-8.
pub fn read_text<R: std::rt::Files>(rt: &R, alloc: Global, file: &str) -> io::Result<Vec<char>> {
    let mut bytes = Vec::new(alloc);
    read_file(rt, file, &mut bytes)?;
    characters(alloc, &bytes)
}
