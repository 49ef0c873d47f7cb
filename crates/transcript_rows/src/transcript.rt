//! A block as it is read: what is given, and its runs.

use crate::command_line::CommandLine;
use crate::ending::Ending;
use crate::given::Givens;
use anyhow::{Result, bail};
use row_files::blocks::Line;
use std::alloc::Global;

/// A run, and what must come out of it.
#[derive(Drop)]
pub struct Run {
    /// The number of its line.
    pub line: usize,
    pub command: CommandLine,
    /// If there is none, it is that of the next run.
    pub ending: Option<Ending>,
}

/// What a block gives, and its runs.
#[derive(Drop)]
pub struct Transcript {
    pub given: Givens,
    pub runs: Vec<Run>,
}

impl Run {
    /// Reads the line of a run, whose text is after `$`.
    fn of_line(alloc: Global, line: usize, text: &str) -> Result<Run> {
        let command = CommandLine::of_text(alloc, text)?;
        let ending = match command.printed_to {
            Some(_) => Some(Ending::printing(alloc)),
            None => None,
        };
        Ok(Run {
            line,
            command,
            ending,
        })
    }

    /// Takes a line of what must come out.
    fn take(&mut self, alloc: Global, what: &str, text: &str) -> Result<()> {
        let mut ending = self.ending.take().unwrap_or(Ending::new(alloc));
        ending.take(alloc, what, text)?;
        self.ending = Some(ending);
        Ok(())
    }
}

impl Transcript {
    /// Takes a line.
    fn take(&mut self, alloc: Global, line: Line<'_>) -> Result<()> {
        let (what, text) = line.text.split_once(' ').unwrap_or((line.text, ""));
        if what == "$" {
            return Ok(self.runs.push(Run::of_line(alloc, line.number, text)?)?);
        }
        match self.runs.last_mut() {
            Some(run) => run.take(alloc, what, text),
            None => self.given.take(what, text),
        }
    }

    /// Reads the lines of a block.
    pub fn of_lines(alloc: Global, lines: &[Line<'_>]) -> Result<Transcript> {
        let mut transcript = Transcript {
            given: Givens::new(alloc),
            runs: Vec::new(alloc),
        };
        for line in lines {
            if let Err(error) = transcript.take(alloc, *line) {
                bail!("line {}: {error}", line.number);
            }
        }
        if transcript.runs.is_empty() {
            bail!("nothing is run");
        }
        Ok(transcript)
    }
}
