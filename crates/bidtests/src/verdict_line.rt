//! The line of text for a verdict.
ghost use Rattle.std.specs.Prelude.{◌≡◌, OnOk};
ghost use Rattle.std.specs.Io.KnownBytes.{Appends};
ghost use Rattle.bidtests.specs.VerdictText.{cause_name, direction_word, place_text, verdict_text};

use crate::verdict::{Cause, Place, Verdict};
use std::io;
use std::io::Write;
use units::level::Direction;

/// Returns the printed name of a cause.
pub fn name_of_cause(cause: Cause) -> &'static str
    ensures { result.now ≡ cause_name cause }
{
    match cause {
        Cause::LineTooLong => "LineTooLong",
        Cause::Directive => "Directive",
        Cause::LevelItem => "LevelItem",
        Cause::OrderItem => "OrderItem",
        Cause::ClassItem => "ClassItem",
        Cause::BitSet => "BitSet",
        Cause::NoExpectation => "NoExpectation",
        Cause::FieldCount => "FieldCount",
        Cause::CodePoint => "CodePoint",
        Cause::DirectionField => "DirectionField",
        Cause::ParaField => "ParaField",
        Cause::EmptyRow => "EmptyRow",
    }
}

/// Returns the printed word for a direction.
pub fn word_of_direction(direction: Direction) -> &'static str
    ensures { result.now ≡ direction_word direction }
{
    match direction {
        Direction::Auto => "auto",
        Direction::Ltr => "ltr",
        Direction::Rtl => "rtl",
        Direction::AutoRtl => "auto-rtl",
    }
}

/// Writes the place of a wrong case, and an LF.
fn print_place<W: Write>(w: &mut W, place: Place) -> io::Result<()>
    ensures { OnOk result (Appends (W.contents w.old) (W.contents w.new) (place_text place)) }
{
    match place {
        Place::ParaLevel => writeln!(w, "paragraph level"),
        Place::Levels(index) => writeln!(w, "levels at {index}"),
        Place::Order(index) => writeln!(w, "order at {index}"),
    }
}

fn print_malformed<W: Write>(w: &mut W, line: u64, cause: Cause) -> io::Result<()>
    ensures { OnOk result (Appends (W.contents w.old) (W.contents w.new)
        (verdict_text (Verdict.Malformed line cause))) }
{
    let name = name_of_cause(cause);
    writeln!(w, "no: line {line}: malformed: {name}")
}

fn print_wrong<W: Write>(w: &mut W, line: u64, direction: Direction, place: Place) -> io::Result<()>
    ensures { OnOk result (Appends (W.contents w.old) (W.contents w.new)
        (verdict_text (Verdict.Wrong line direction place))) }
{
    let word = word_of_direction(direction);
    write!(w, "no: line {line}: {word}: ")?;
    print_place(w, place)
}

/// Writes the line for a verdict, with its LF. Numbers are decimal; lines of the file are counted from 1 and indices
/// from 0. It allocates no memory, apart from what the writer allocates. It fails with the writer's error; the output
/// may then be incomplete.
pub fn print_verdict<W: Write>(w: &mut W, verdict: &Verdict) -> io::Result<()>
    ensures { OnOk result (Appends (W.contents w.old) (W.contents w.new) (verdict_text verdict.now)) }
{
    match *verdict {
        Verdict::Yes { rows, cases } => writeln!(w, "yes: {rows} rows, {cases} cases"),
        Verdict::Malformed { line, cause } => print_malformed(w, line, cause),
        Verdict::Wrong {
            line,
            direction,
            place,
        } => print_wrong(w, line, direction, place),
    }
}
