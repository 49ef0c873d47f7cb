//! Lays out lines in UTF-8 as a terminal or an editor does: it lays out each line alone, shows it run by run, and moves
//! the cursor to some of its bytes.

use crate::digest::Digest;
use crate::inputs::{Inputs, MOST_DRAWS, no_new_input};
use crate::layouts::no_runs;
use crate::script::SCRIPTS;
use crate::text_maker::TextMaker;
use decoding::fault::Faults;
use room::room::Room;
use sources::source::{Ask, Source};
use std::alloc::Global;
use std::io;
use ucdfiles::tables::Tables;
use units::level::Direction;
use units::limits::Limits;
use visual::runs::VisualRun;

/// The most bytes of a line, and the most characters and runs.
const MOST_BYTES: usize = 16_384;

/// The buffers that all lines share.
#[derive(Drop)]
struct Editor {
    room: Room,
    order: Vec<usize>,
    runs: Vec<VisualRun>,
}

impl Editor {
    fn new(room: Room, order: Vec<usize>, runs: Vec<VisualRun>) -> Editor {
        Editor { room, order, runs }
    }

    /// Adds the level of the paragraph to the digest, and the levels, the runs and the order of its only line.
    fn add_to(&mut self, digest: &mut Digest) {
        let layout = self.room.layout();
        if layout.line_count() == 0 {
            return;
        }
        digest.add_para_levels(layout.para_levels());
        digest.add_levels(layout.line(0).levels);
        let runs = self.room.runs(0, &mut self.runs);
        for run in self.runs.iter().take(runs) {
            digest.add_size(run.start);
            digest.add_size(run.end);
            digest.add_level(Some(run.level));
            digest.add_size(run.shown);
        }
        let shown = self.room.order(0, &mut self.order);
        digest.add_sizes(self.order.get(..shown).unwrap_or(&[]));
    }

    /// Moves the cursor to a byte, and adds the index of its character and the level there to the digest.
    fn move_to(&self, at: usize, digest: &mut Digest) {
        if let Some(index) = self.room.index_of(at) {
            digest.add_size(index);
            digest.add_level(self.room.level_at(at));
        }
    }

    /// Lays out a line, adds what is shown to the digest, and then moves the cursor to some of its bytes.
    fn show_line(
        &mut self,
        tables: &Tables,
        line: &str,
        maker: &mut TextMaker,
        digest: &mut Digest,
    ) -> io::Result<()> {
        let bytes = line.as_bytes();
        let ask = Ask {
            source: Source::Utf8(bytes, Faults::Rejected),
            direction: Direction::Auto,
            breaks: &[],
            limits: Limits::standard(),
        };
        let Ok(()) = self.room.lay_out(tables, &ask) else {
            return Err(io::ErrorKind::InvalidData.into());
        };
        self.add_to(digest);
        for _ in 0..4 {
            self.move_to(maker.below(bytes.len()), digest);
        }
        Ok(())
    }
}

/// Makes lines, some in each script. All lines differ.
#[derive(Drop)]
struct LineMaker {
    maker: TextMaker,
    line: String,
    lines: Inputs,
}

impl LineMaker {
    fn new(alloc: Global, seed: u64) -> LineMaker {
        LineMaker {
            maker: TextMaker::new(seed, 2),
            line: String::new(alloc),
            lines: Inputs::new(alloc),
        }
    }

    /// Makes the line with this number. It replaces the one before.
    fn make(&mut self, number: usize) -> io::Result<()> {
        let script = SCRIPTS[number / 64 % 8];
        let count = 2 + self.maker.below(24);
        for _ in 0..MOST_DRAWS {
            self.line.clear();
            self.maker.push_words(script, count, &mut self.line)?;
            if self.lines.add(Digest::of_bytes(self.line.as_bytes()))? {
                return Ok(());
            }
        }
        Err(no_new_input())
    }
}

/// Returns a `Room` for lines.
fn room(alloc: Global) -> io::Result<Room> {
    Room::with_room(alloc, MOST_BYTES, true).map_err(|_| io::ErrorKind::OutOfMemory.into())
}

/// Lays out so many lines one by one.
fn show_each_line(
    tables: &Tables,
    count: usize,
    lines: &mut LineMaker,
    editor: &mut Editor,
) -> io::Result<Digest> {
    let mut digest = Digest::new();
    for number in 0..count {
        lines.make(number)?;
        editor.show_line(tables, lines.line.as_str(), &mut lines.maker, &mut digest)?;
    }
    Ok(digest)
}

/// The same, with buffers for orders and runs.
fn show_with(
    tables: &Tables,
    count: usize,
    lines: &mut LineMaker,
    order: Vec<usize>,
    runs: Vec<VisualRun>,
    room: Room,
) -> io::Result<Digest> {
    let mut editor = Editor::new(room, order, runs);
    show_each_line(tables, count, lines, &mut editor)
}

/// Lays out so many lines one by one, with these tables.
fn show_lines(
    alloc: Global,
    tables: &Tables,
    count: usize,
    lines: &mut LineMaker,
) -> io::Result<Digest> {
    let order = Vec::from_elem(alloc, 0, MOST_BYTES)?;
    let runs = no_runs(alloc, MOST_BYTES)?;
    let room = room(alloc)?;
    show_with(tables, count, lines, order, runs, room)
}

/// Lays out so many lines one by one.
pub fn lay_out_lines(alloc: Global, count: usize, seed: u64) -> io::Result<Digest> {
    let tables = standard::tables();
    let mut lines = LineMaker::new(alloc, seed);
    show_lines(alloc, &tables, count, &mut lines)
}
