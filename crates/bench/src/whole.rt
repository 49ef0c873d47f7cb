//! Looks up the units of a text and lays it out.
ghost use Rattle.std.specs.Prelude.{◌≡◌, length};

use crate::timing::{line_count, tenths_each};
use lines::scratch::Scratch;
use std::alloc::Global;
use std::io;
use std::time::Instant;
use ucdfiles::tables::Tables;
use units::bracket::{Bracket, Unit};
use units::class::Class;

/// The number of batches into which the runs of a text are divided. Each batch is timed.
const BATCHES: usize = 10;

/// A text, the tables in which its units are looked up, and what each run uses again: the list of its units, and the
/// scratch.
#[derive(Drop)]
pub struct Whole<'a> {
    tables: &'a Tables,
    text: &'a [char],
    units: Vec<Unit>,
    room: Scratch,
    ghost each: { length units.items ≡ length text.now },
}

/// Makes a scratch for a text of `units` units.
pub fn room_for(alloc: Global, units: usize) -> io::Result<Scratch> {
    match Scratch::with_room(alloc, units) {
        Ok(room) => Ok(room),
        Err(_) => Err(io::ErrorKind::OutOfMemory.into()),
    }
}

impl<'a> Whole<'a> {
    /// Returns a text with its tables, and with the memory that its runs use.
    pub fn new(alloc: Global, tables: &'a Tables, text: &'a [char]) -> io::Result<Whole<'a>> {
        let unit = Unit {
            class: Class::L,
            bracket: Bracket::No,
        };
        let units = Vec::from_elem(alloc, unit, text.len())?;
        let room = room_for(alloc, text.len())?;
        Ok(Whole {
            tables,
            text,
            units,
            room,
        })
    }

    /// Returns the number of characters in the text.
    pub fn len(&self) -> usize {
        self.text.len()
    }

    /// Looks the units up and lays the text out, once. Returns the number of lines.
    #[inline(never)]
    pub fn run(&mut self) -> usize {
        self.tables.look_up(self.text, &mut self.units);
        line_count(&self.units, &mut self.room)
    }

    /// Times this many runs. Returns the tenths of a nanosecond that each character takes.
    fn tenths(&mut self, rt: &HostRuntime, runs: usize) -> io::Result<u128> {
        let start = Instant::now(rt)?;
        for _ in 0..runs {
            self.run();
        }
        let elapsed = start.elapsed(rt)?;
        Ok(tenths_each(elapsed, self.len().saturating_mul(runs)))
    }

    /// Times this many runs in batches. Returns the tenths of a nanosecond that each character takes in the fastest
    /// batch, or 0 without a run.
    pub fn least_tenths(&mut self, rt: &HostRuntime, runs: usize) -> io::Result<u128> {
        let mut least = u128::MAX;
        let mut remaining = runs;
        for batch in 0..BATCHES {
            let batch_runs = remaining / (BATCHES - batch);
            if batch_runs > 0 {
                least = least.min(self.tenths(rt, batch_runs)?);
                remaining -= batch_runs;
            }
        }
        Ok(if runs == 0 { 0 } else { least })
    }
}
