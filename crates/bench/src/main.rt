//! Times layouts of texts. Prints the nanoseconds that a unit takes to standard error, so its standard output is empty.
//!
//! Without arguments it times the built-in texts, all short, and ends in about a second. Arguments name built-in texts,
//! which then have their full lengths: `bench English mixed` times the two of these names, and `bench all` times all.
//!
//! `bench --tables DIR FILE ROUNDS` reads the tables of the folder and the text in the file (UTF-8). Then it looks up
//! the text's units and lays the text out ROUNDS + 1 times, in direction auto and without breaks. It times all but the
//! first of these.
#![tactic(auto)]

mod cases;
mod files;
mod texts;
mod timing;
mod whole;

use cases::{Case, Lengths, cases};
use files::{read_tables, read_text};
use lines::scratch::Scratch;
use std::env;
use std::io::{self, Write};
use timing::{least_time, tenths_each};
use ucdfiles::tables::Tables;
use units::bracket::Unit;
use whole::{Whole, room_for};

/// The figures that are printed for a text.
#[derive(Clone, Copy)]
struct Figures {
    /// Tenths of a nanosecond for each unit or character.
    tenths: u128,
    length: usize,
    rounds: usize,
    lines: usize,
}

/// Prints the line of the text of this name; `counted` is what its length counts: a unit or a character.
fn print_line<E: Write>(
    err: &mut E,
    name: &str,
    counted: &str,
    figures: &Figures,
) -> io::Result<()> {
    let Figures {
        tenths,
        length,
        rounds,
        lines,
    } = *figures;
    let (whole, tenth) = (tenths / 10, tenths % 10);
    writeln!(
        err,
        "{name}: {whole}.{tenth} ns a {counted} ({length} {counted}s, {rounds} times, {lines} lines)"
    )
}

/// Times a built-in text, which has these units.
fn figures_of(
    rt: &HostRuntime,
    text: &[Unit],
    rounds: usize,
    room: &mut Scratch,
) -> io::Result<Figures> {
    let (elapsed, lines) = least_time(rt, text, rounds, room)?;
    Ok(Figures {
        tenths: tenths_each(elapsed, text.len().saturating_mul(rounds)),
        length: text.len(),
        rounds,
        lines,
    })
}

/// Times one built-in text, and prints its line.
fn report<E: Write>(
    rt: &HostRuntime,
    err: &mut E,
    case: &Case,
    room: &mut Scratch,
) -> io::Result<()> {
    let text = case.text(rt.alloc())?;
    let figures = figures_of(rt, &text, case.rounds, room)?;
    print_line(err, case.name, "unit", &figures)
}

/// Returns whether to time the text of this name. Without words or with `all`, each text is timed.
fn is_asked_for(words: &[String], name: &str) -> bool {
    words.is_empty()
        || words
            .iter()
            .any(|word| word.as_str() == "all" || word.as_str() == name)
}

/// Times the built-in texts that the words name, in these lengths.
fn time_asked_for(
    rt: &HostRuntime,
    words: &[String],
    lengths: Lengths,
    room: &mut Scratch,
) -> io::Result<()> {
    let mut err = rt.stderr();
    for case in &cases(lengths) {
        if is_asked_for(words, case.name) {
            report(rt, &mut err, case, room)?;
        }
    }
    Ok(())
}

/// Times the built-in texts that the words name, or else all, which are short then.
fn time_cases(rt: &HostRuntime, words: &[String]) -> io::Result<()> {
    let lengths = if words.is_empty() {
        Lengths::SHORT
    } else {
        Lengths::FULL
    };
    let mut room = room_for(rt.alloc(), lengths.long)?;
    time_asked_for(rt, words, lengths, &mut room)
}

/// Times a text with its tables.
fn figures_of_whole(rt: &HostRuntime, whole: &mut Whole, rounds: usize) -> io::Result<Figures> {
    let (length, lines) = (whole.len(), whole.run());
    let tenths = whole.least_tenths(rt, rounds)?;
    Ok(Figures {
        tenths,
        length,
        rounds,
        lines,
    })
}

/// Times a text with these tables.
fn figures_of_text(
    rt: &HostRuntime,
    tables: &Tables,
    text: &[char],
    rounds: usize,
) -> io::Result<Figures> {
    let mut whole = Whole::new(rt.alloc(), tables, text)?;
    figures_of_whole(rt, &mut whole, rounds)
}

/// Times the text in a file with these tables, and prints its line.
fn report_file(rt: &HostRuntime, tables: &Tables, file: &str, rounds: usize) -> io::Result<()> {
    let text = read_text(rt, rt.alloc(), file)?;
    let figures = figures_of_text(rt, tables, &text, rounds)?;
    print_line(&mut rt.stderr(), file, "character", &figures)
}

/// Times the text in a file with the tables of a folder, and prints its line.
fn time_file(rt: &HostRuntime, folder: &str, file: &str, rounds: &str) -> io::Result<()> {
    let Ok(rounds) = rounds.parse::<u32>() else {
        return Err(io::ErrorKind::InvalidInput.into());
    };
    let tables = read_tables(rt, rt.alloc(), folder)?;
    report_file(rt, &tables, file, rounds as usize)
}

/// Returns the words after the program's own name.
fn words_after_name(rt: &HostRuntime) -> io::Result<Vec<String>> {
    let mut words = Vec::new(rt.alloc());
    for word in env::args(rt)?.skip(1) {
        words.push(word)?;
    }
    Ok(words)
}

/// Times what these words ask for.
fn time(rt: &HostRuntime, words: &[String]) -> io::Result<()> {
    if words.len() == 4 && words[0].as_str() == "--tables" {
        return time_file(rt, words[1].as_str(), words[2].as_str(), words[3].as_str());
    }
    time_cases(rt, words)
}

fn main(rt: HostRuntime) -> io::Result<()> {
    let words = words_after_name(&rt)?;
    time(&rt, &words)
}
