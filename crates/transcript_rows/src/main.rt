//! Checks transcripts of the command over files and writers in memory: what its runs print, how they end, and what they
//! open. Its arguments name files of blocks (`row_files::blocks`). A block states what is given, and then runs with
//! what must come out:
//!
//! ```text
//! file FILE "@Levels: 0\n@Reorder: 0\nL; 7\n"
//! $ bidi judge --kind classes FILE
//! | no: line 3: rtl: levels at 0
//! status 1
//! ```
//!
//! Lines of what is given (`given`); without one there are no files but the small tables in the folder `t`, no standard
//! input, and writers that take everything:
//!
//! - `file NAME BYTES`: a file, its bytes as in `row_files::bytes`. `; at most N` is after them if a read of more than
//!   N bytes fails, because the file is too large, and `; failing after N` if reads fail after N bytes.
//! - `file NAME; missing` and `file NAME; no memory`: there is no such file, or memory runs out when it is opened.
//! - `input BYTES`: standard input; the same may be after the bytes.
//! - `output takes N`: standard output takes N bytes, and then each write fails. With `; no flush`, so does each flush.
//! - `output fails with KIND`: each write and each flush fails with this error.
//! - `error takes N`, `error fails with KIND`: the same of standard error.
//!
//! If one of these is given several times, or with numbers `FIRST-LAST`, it is each of them in turn.
//!
//! Lines of runs (`command_line`, `ending`):
//!
//! - `$ WORD ..`: a run with these arguments. A word in quotation marks may have blanks and escapes. Several such lines
//!   one after another must end in the same way.
//! - `$ WORD .. > NAME`: what the run prints is the file NAME for the runs after it. It must end with status 0.
//! - `| TEXT`, `! TEXT`: a line on standard output, on standard error. Nothing but these lines may be printed. If a
//!   text ends with `...`, it is the beginning of a line, and anything may be after it.
//! - `prints BYTES`: these bytes on standard output.
//! - `opens NAME, ..`: what is opened, in order. Without this line it is not compared.
//! - `status N`: how the run ends. After the number may be `; not written` if a write to standard output fails, `; not
//!   reported` if the error's line isn't written to standard error, and `; not flushed` if the run leaves it to its
//!   caller to flush standard output.
//!
//! What a standard output or a standard error that fails has taken is compared only if it is stated.
#![tactic(auto)]

mod command_line;
mod ending;
mod files;
mod given;
mod running;
mod transcript;
mod turns;
mod writer;

use anyhow::Result;
use row_files::blocks::{CheckBlock, Checked, Line, check_block_files};
use running::check_turn;
use std::alloc::Global;
use std::process::ExitCode;
use transcript::Transcript;
use turns::{Turn, turns_of};

/// Checks transcripts.
#[derive(Drop)]
struct Transcripts;

impl CheckBlock for Transcripts {
    fn check_block(
        &self,
        alloc: Global,
        lines: &[Line<'_>],
        checked: &mut Checked<'_>,
    ) -> Result<()> {
        let Transcript { given, runs } = Transcript::of_lines(alloc, lines)?;
        for number in 0..turns_of(&given.all) {
            let turn = Turn {
                given: &given.all,
                number,
            };
            check_turn(alloc, &runs, turn, checked)?;
        }
        Ok(())
    }
}

fn main(rt: HostRuntime) -> Result<ExitCode> {
    check_block_files(&rt, &Transcripts)
}
