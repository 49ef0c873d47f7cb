//! Runs of a block in one of its turns, and what is wrong with them.

use crate::ending::{Ending, Printed};
use crate::files::{GivenFiles, PrintedFile};
use crate::given::{State, Subject};
use crate::transcript::Run;
use crate::turns::Turn;
use crate::writer::{MemoryWriter, Taking};
use anyhow::{Context, Result};
use command::run::run;
use requests::outcome::Ended;
use row_files::blocks::Checked;
use row_files::shown::push_bytes;
use std::alloc::{AllocError, Global};
use std::cell::RefCell;

/// What came out of a run.
#[derive(Drop)]
struct Outcome {
    ended: Ended,
    out: MemoryWriter,
    err: MemoryWriter,
    opened: String,
}

/// Returns what a writer takes in a turn.
fn taking_of(turn: Turn<'_>, subject: Subject) -> Taking {
    match turn.find(subject, "") {
        Some(given) => match given.state {
            State::Takes(taking) => taking,
            _ => Taking::everything(),
        },
        None => Taking::everything(),
    }
}

/// Runs with these arguments, what is given in a turn, and the files that runs before printed.
fn outcome_of<'a>(
    alloc: Global,
    words: &[String],
    turn: Turn<'a>,
    printed: &'a [PrintedFile],
) -> Result<Outcome> {
    let words: Vec<&str> = words.iter().map(|word| word.as_str()).collect(alloc)?;
    let opened = RefCell::new(String::new(alloc));
    let mut out = MemoryWriter::new(alloc, taking_of(turn, Subject::Output));
    let mut err = MemoryWriter::new(alloc, taking_of(turn, Subject::Error));
    let files = GivenFiles::new(turn, printed, &opened);
    let ended = run(alloc, &words, &files, &mut out, &mut err);
    Ok(Outcome {
        ended,
        out,
        err,
        opened: opened.into_inner(),
    })
}

/// Appends how a run ended.
fn push_ended(faults: &mut String, ended: Ended) -> Result<(), AllocError> {
    write!(faults, "status {}", ended.status)?;
    if !ended.is_written {
        faults.push_str(", not written")?;
    }
    if !ended.is_reported {
        faults.push_str(", not reported")?;
    }
    Ok(())
}

/// Appends what is wrong with how a run ended.
fn compare_ended(faults: &mut String, ended: Ended, expected: Ended) -> Result<(), AllocError> {
    if ended != expected {
        push_ended(faults, ended)?;
        faults.push_str(" came out, not ")?;
        push_ended(faults, expected)?;
        faults.push_str(". ")?;
    }
    Ok(())
}

/// Appends what is wrong with what was printed. If nothing is stated of a writer that fails, nothing is compared.
fn compare_printed(
    faults: &mut String,
    name: &str,
    writer: &MemoryWriter,
    printed: &Printed,
) -> Result<(), AllocError> {
    if !writer.takes_everything() && printed.bytes.is_empty() {
        return Ok(());
    }
    if !printed.allows(writer.written()) {
        write!(faults, "{name} is ")?;
        push_bytes(faults, writer.written())?;
        faults.push_str(", not ")?;
        push_bytes(faults, &printed.bytes)?;
        faults.push_str(". ")?;
    }
    match (writer.is_flushed(), printed.is_flushed) {
        (true, false) => write!(faults, "{name} is flushed. "),
        (false, true) => write!(faults, "{name} is not flushed. "),
        _ => Ok(()),
    }
}

/// Appends what is wrong with what was opened.
fn compare_opened(faults: &mut String, opened: &str, expected: &str) -> Result<(), AllocError> {
    if opened != expected {
        write!(faults, "it opened {opened}, not {expected}. ")?;
    }
    Ok(())
}

/// Appends the number of the turn to what is wrong with a run, unless it is the first turn or nothing is wrong.
fn push_turn(faults: &mut String, turn: usize) -> Result<(), AllocError> {
    if turn > 0 && !faults.is_empty() {
        write!(faults, "(turn {})", turn.saturating_add(1))?;
    }
    Ok(())
}

/// Returns what is wrong with a run.
fn faults_of(alloc: Global, outcome: &Outcome, ending: &Ending, turn: usize) -> Result<String> {
    let mut faults = String::new(alloc);
    let ended = ending.ended.context("no status is stated")?;
    compare_ended(&mut faults, outcome.ended, ended)?;
    compare_printed(&mut faults, "standard output", &outcome.out, &ending.out)?;
    compare_printed(&mut faults, "standard error", &outcome.err, &ending.err)?;
    if let Some(opens) = &ending.opens {
        compare_opened(&mut faults, &outcome.opened, opens)?;
    }
    push_turn(&mut faults, turn)?;
    Ok(faults)
}

/// Returns what must come out of the run at this index: its own ending, or else that of the next run.
fn ending_of(runs: &[Run], index: usize) -> Option<&Ending> {
    let mut rest = runs.iter().skip(index);
    rest.find_map(|run| run.ending.as_ref())
}

/// Runs each run of a block with what is given in a turn, and checks what comes out.
pub fn check_turn(
    alloc: Global,
    runs: &[Run],
    turn: Turn<'_>,
    checked: &mut Checked<'_>,
) -> Result<()> {
    let mut printed = Vec::new(alloc);
    for (index, run) in runs.iter().enumerate() {
        let ending = ending_of(runs, index).context("nothing says what must come out")?;
        let outcome = outcome_of(alloc, &run.command.words, turn, &printed)?;
        let faults = faults_of(alloc, &outcome, ending, turn.number)?;
        checked.count(run.line, faults.trim_end())?;
        if let Some(name) = &run.command.printed_to {
            let name = name.clone()?;
            let bytes = Vec::from_slice(alloc, outcome.out.written())?;
            printed.push(PrintedFile { name, bytes })?;
        }
    }
    Ok(())
}
