//! Prints documents as the command does: as they are shown, or with their levels.

use crate::digest::Digest;
use crate::inputs::Inputs;
use crate::script::{SCRIPTS, Script};
use crate::text_maker::TextMaker;
use printing::form::Form;
use printing::reading::print_source;
use std::alloc::Global;
use std::io;
use ucdfiles::tables::Tables;
use units::level::Direction;
use units::slice_source::SliceSource;

/// The least number of bytes of a document.
const DOCUMENT_BYTES: usize = 30_000;

/// The most bytes of a text that are printed.
const MOST_BYTES: usize = 16_777_216;

/// Makes documents. All paragraphs of all of them differ.
#[derive(Drop)]
struct DocumentMaker {
    seed: u64,
    text: String,
    paragraph: String,
    paragraphs: Inputs,
}

impl DocumentMaker {
    fn new(alloc: Global, seed: u64) -> DocumentMaker {
        DocumentMaker {
            seed,
            text: String::new(alloc),
            paragraph: String::new(alloc),
            paragraphs: Inputs::new(alloc),
        }
    }

    /// Draws a paragraph, and adds it to the document if it differs from all earlier ones.
    fn push_paragraph(&mut self, maker: &mut TextMaker, script: Script) -> io::Result<()> {
        self.paragraph.clear();
        maker.push_paragraph(script, &mut self.paragraph)?;
        let digest = Digest::of_bytes(self.paragraph.as_bytes());
        if self.paragraphs.add(digest)? {
            self.text.push_str(self.paragraph.as_str())?;
        }
        Ok(())
    }

    /// Makes the document with this number. It replaces the one before.
    fn make(&mut self, number: usize) -> io::Result<()> {
        let mut maker = TextMaker::new(self.seed, number);
        let script = SCRIPTS[number % 8];
        self.text.clear();
        for _ in 0..DOCUMENT_BYTES {
            if self.text.len() >= DOCUMENT_BYTES {
                break;
            }
            self.push_paragraph(&mut maker, script)?;
        }
        Ok(())
    }
}

/// Prints a document into `printed`, and replaces what was there.
fn print(
    alloc: Global,
    tables: &Tables,
    form: Form,
    text: &str,
    printed: &mut Vec<u8>,
) -> io::Result<()> {
    let bytes = text.as_bytes();
    if bytes.len() > MOST_BYTES {
        return Err(io::ErrorKind::InvalidData.into());
    }
    printed.clear();
    let mut source = SliceSource::new(bytes);
    match print_source(alloc, printed, tables, &mut source, Direction::Auto, form) {
        Ok(()) => Ok(()),
        Err(_) => Err(io::ErrorKind::InvalidData.into()),
    }
}

/// Prints the documents with these numbers.
fn print_each(
    alloc: Global,
    tables: &Tables,
    form: Form,
    count: usize,
    maker: &mut DocumentMaker,
    printed: &mut Vec<u8>,
) -> io::Result<Digest> {
    let mut digest = Digest::new();
    for number in 0..count {
        maker.make(number)?;
        print(alloc, tables, form, maker.text.as_str(), printed)?;
        digest.add_bytes(printed);
    }
    Ok(digest)
}

/// Prints so many documents.
pub fn print_documents(alloc: Global, form: Form, count: usize, seed: u64) -> io::Result<Digest> {
    let tables = standard::tables();
    let mut maker = DocumentMaker::new(alloc, seed);
    let mut printed = Vec::new(alloc);
    print_each(alloc, &tables, form, count, &mut maker, &mut printed)
}
