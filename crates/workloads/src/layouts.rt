//! Lays out paragraphs as a typesetter does: it looks up the characters, lays out a paragraph without breaks, shapes
//! its runs by their levels, breaks it into lines, and reads each line run by run.
use crate::digest::Digest;
use crate::inputs::Inputs;
use crate::script::SCRIPTS;
use crate::text_maker::TextMaker;
use room::room::Room;
use sources::source::{Ask, Source};
use std::alloc::{AllocError, Global};
use std::io;
use ucdfiles::tables::Tables;
use units::level::{Direction, ParaLevel};
use units::limits::Limits;
use visual::runs::VisualRun;

/// How many characters the paragraphs have, pass by pass over the text.
const LENGTHS: [usize; 16] = [
    1_000, 170, 4_000, 60, 2_300, 410, 730, 110, 9_100, 330, 1_700, 240, 540, 3_100, 85, 1_300,
];

/// How many words of one script follow each other, so that most paragraphs are in one script.
const STRETCH_WORDS: usize = 1_000;

/// The number of characters of the longest paragraph.
const MOST_LENGTH: usize = 9_100;

/// The number of characters at the start of a paragraph that, with its length, tell it apart from other paragraphs.
const START: usize = 64;

/// The buffers that all paragraphs share.
#[derive(Drop)]
struct Typesetter {
    runs: Vec<VisualRun>,
    breaks: Vec<usize>,
    room: Room,
    maker: TextMaker,
    paragraphs: Inputs,
}

/// Returns so many empty runs.
pub fn no_runs(alloc: Global, count: usize) -> Result<Vec<VisualRun>, AllocError> {
    let run = VisualRun {
        start: 0,
        end: 0,
        level: ParaLevel::Zero.level(),
        shown: 0,
    };
    Vec::from_elem(alloc, run, count)
}

/// Returns a text of so many characters and some more, of all scripts, as code points.
fn make(alloc: Global, count: usize, seed: u64) -> io::Result<Vec<u32>> {
    let mut maker = TextMaker::new(seed, 0);
    let mut characters = Vec::with_capacity(alloc, count)?;
    let mut words = String::new(alloc);
    for number in 0..count {
        if characters.len() >= count {
            break;
        }
        words.clear();
        maker.push_words(SCRIPTS[number % 8], STRETCH_WORDS, &mut words)?;
        for character in words.as_str().chars() {
            characters.push(u32::from(character))?;
        }
    }
    Ok(characters)
}

/// Chooses where the lines of a text of this length end: each has 40 to 103 characters.
fn choose_breaks(breaks: &mut Vec<usize>, maker: &mut TextMaker, len: usize) -> io::Result<()> {
    breaks.clear();
    let mut at: usize = 0;
    for _ in 0..len {
        at = at.saturating_add(40 + maker.below(64));
        if at >= len {
            break;
        }
        breaks.push(at)?;
    }
    Ok(())
}

impl Typesetter {
    fn new(alloc: Global, seed: u64) -> io::Result<Typesetter> {
        let Ok(room) = Room::with_room(alloc, MOST_LENGTH, false) else {
            return Err(io::ErrorKind::OutOfMemory.into());
        };
        Ok(Typesetter {
            runs: no_runs(alloc, MOST_LENGTH)?,
            breaks: Vec::new(alloc),
            room,
            maker: TextMaker::new(seed, 1),
            paragraphs: Inputs::new(alloc),
        })
    }

    /// Returns whether no earlier paragraph has the length and the start of this one.
    fn is_new(&mut self, text: &[u32]) -> io::Result<bool> {
        let mut digest = Digest::new();
        digest.add_size(text.len());
        digest.add_codes(text.get(..START).unwrap_or(text));
        self.paragraphs.add(digest)
    }

    /// Adds the levels of a line, its runs and its order to the digest.
    fn add_line(&mut self, k: usize, digest: &mut Digest) {
        let layout = self.room.layout();
        if k >= layout.line_count() {
            return;
        }
        digest.add_levels(layout.line(k).levels);
        let runs = self.room.runs(k, &mut self.runs);
        for run in self.runs.iter().take(runs) {
            digest.add_size(run.start);
            digest.add_size(run.end);
            digest.add_level(Some(run.level));
            digest.add_size(run.shown);
        }
        digest.add_sizes(layout.line(k).order);
    }

    /// Adds the level of the paragraph and all lines to the digest.
    fn add_to(&mut self, digest: &mut Digest) {
        digest.add_para_levels(self.room.layout().para_levels());
        for k in 0..self.room.line_count() {
            self.add_line(k, digest);
        }
    }

    /// Lays a paragraph out, and breaks it into lines.
    fn lay_out(&mut self, tables: &Tables, text: &[u32], digest: &mut Digest) -> io::Result<()> {
        choose_breaks(&mut self.breaks, &mut self.maker, text.len())?;
        let ask = Ask {
            source: Source::Codes(text),
            direction: Direction::Auto,
            breaks: &[],
            limits: Limits::standard(),
        };
        let Ok(()) = self.room.lay_out(tables, &ask) else {
            return Err(io::ErrorKind::InvalidData.into());
        };
        digest.add_levels(self.room.layout().levels());
        let Ok(()) = self.room.set_lines(&self.breaks) else {
            return Err(io::ErrorKind::InvalidData.into());
        };
        self.add_to(digest);
        Ok(())
    }
}

/// Lays out the paragraphs of a pass over a text. Omits one that may equal an earlier one.
fn lay_out_pass(
    tables: &Tables,
    text: &[u32],
    length: usize,
    typesetter: &mut Typesetter,
    digest: &mut Digest,
) -> io::Result<()> {
    for paragraph in text.chunks_exact(length.max(1)) {
        if typesetter.is_new(paragraph)? {
            typesetter.lay_out(tables, paragraph, digest)?;
        }
    }
    Ok(())
}

/// Lays out the paragraphs of a text in several passes. Each pass has paragraphs of another length, and begins
/// elsewhere.
fn lay_out_passes(
    tables: &Tables,
    text: &[u32],
    typesetter: &mut Typesetter,
) -> io::Result<Digest> {
    let mut digest = Digest::new();
    for (pass, length) in LENGTHS.iter().enumerate() {
        let rest = text.get(pass.saturating_mul(7)..).unwrap_or(&[]);
        lay_out_pass(tables, rest, *length, typesetter, &mut digest)?;
    }
    Ok(digest)
}

/// The same for a text with so many characters, with these tables.
fn typeset(alloc: Global, tables: &Tables, text: &[u32], seed: u64) -> io::Result<Digest> {
    let mut typesetter = Typesetter::new(alloc, seed)?;
    lay_out_passes(tables, text, &mut typesetter)
}

/// Lays out the paragraphs of a text of so many characters.
pub fn lay_out_paragraphs(alloc: Global, count: usize, seed: u64) -> io::Result<Digest> {
    let text = make(alloc, count, seed)?;
    let tables = standard::tables();
    typeset(alloc, &tables, &text, seed)
}
