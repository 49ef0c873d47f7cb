//! The lines that a report prints.
ghost use Rattle.std.specs.Prelude.{IfErr, OnOk, Some};
ghost use Rattle.std.specs.Io.KnownBytes.{Appends};
ghost use Rattle.report.specs.ReportText.{directions_text, foot_text, item_text, malformed_text, parts_text};
ghost use Rattle.report.specs.ReportText.{place_words, totals_text, wrong_case_text};

use crate::case_counts::CaseCounts;
use crate::wrong_case::{Item, WrongCase};
use bidtests::verdict::{Cause, Place, Verdict};
use bidtests::verdict_line::{print_verdict, word_of_direction};
use printing::output::Output;
use std::io::Write;
use std::{fmt, io};

impl fmt::Display for Item {
    ghost output = { λ item. Some (item_text item) };

    fn fmt<W: fmt::Write>(&self, f: &mut fmt::Formatter<W>) -> fmt::Result {
        match self {
            Item::Ended => f.write_str("nothing"),
            Item::Removed => f.write_str("x"),
            Item::Level(level) => write!(f, "{}", level.get()),
            Item::Position(position) => write!(f, "{position}"),
        }
    }
}

/// A place in words.
#[derive(Clone, Copy)]
struct PlaceWords(Place);

impl fmt::Display for PlaceWords {
    ghost output = { λ words. Some (place_words words.0) };

    fn fmt<W: fmt::Write>(&self, f: &mut fmt::Formatter<W>) -> fmt::Result {
        match self.0 {
            Place::ParaLevel => f.write_str("paragraph level"),
            Place::Levels(index) => write!(f, "levels at {index}"),
            Place::Order(index) => write!(f, "order at {index}"),
        }
    }
}

/// Writes the line of a wrong case, with its LF. Fails with the writer's error; then the line may be written in part.
pub fn print_wrong_case<W: Output>(w: &mut W, case: &WrongCase) -> io::Result<()>
    ensures written { OnOk result (Appends (W.contents w.old) (W.contents w.new) (wrong_case_text case.now)) }
    ensures failed { IfErr result (W.failed_with w.new) }
{
    let WrongCase {
        line,
        direction,
        place,
        claimed,
        defined,
    } = *case;
    let word = word_of_direction(direction);
    let place = PlaceWords(place);
    w.write_line(format_args!("line {line}: {word}: {place}: claimed {claimed}, defined {defined}"))
}

/// Writes how many rows and cases there are, and how many of them are wrong.
fn print_totals<W: Write>(w: &mut W, case_counts: &CaseCounts) -> io::Result<()>
    ensures { OnOk result (Appends (W.contents w.old) (W.contents w.new) (totals_text case_counts.now)) }
{
    let CaseCounts {
        rows,
        cases,
        wrong_rows,
        wrong_cases,
        ..
    } = *case_counts;
    writeln!(
        w,
        "{rows} rows, {wrong_rows} wrong; {cases} cases, {wrong_cases} wrong"
    )
}

/// Writes how many wrong cases there are under each direction.
fn print_directions<W: Write>(w: &mut W, case_counts: &CaseCounts) -> io::Result<()>
    ensures { OnOk result (Appends (W.contents w.old) (W.contents w.new) (directions_text case_counts.now)) }
{
    let by = case_counts.by_direction;
    writeln!(
        w,
        "wrong by direction: auto {}, ltr {}, rtl {}, auto-rtl {}",
        by.auto, by.ltr, by.rtl, by.auto_rtl
    )
}

/// Writes how many wrong cases there are by what differs first.
fn print_parts<W: Write>(w: &mut W, case_counts: &CaseCounts) -> io::Result<()>
    ensures { OnOk result (Appends (W.contents w.old) (W.contents w.new) (parts_text case_counts.now)) }
{
    let by = case_counts.by_part;
    writeln!(
        w,
        "wrong by place: paragraph level {}, levels {}, order {}",
        by.para_level, by.levels, by.order
    )
}

/// Writes the verdict that a malformed line gives, if there is one.
fn print_malformed<W: Write>(w: &mut W, malformed: Option<(u64, Cause)>) -> io::Result<()>
    ensures { OnOk result (Appends (W.contents w.old) (W.contents w.new) (malformed_text malformed)) }
{
    match malformed {
        None => Ok(()),
        Some((line, cause)) => print_verdict(w, &Verdict::Malformed { line, cause }),
    }
}

/// Writes the text after the wrong cases: the first malformed line, if there is one, and the counts. Fails with the
/// writer's error; then the text may be written in part.
pub fn print_foot<W: Write>(
    w: &mut W,
    malformed: Option<(u64, Cause)>,
    case_counts: &CaseCounts,
) -> io::Result<()>
    ensures { OnOk result (Appends (W.contents w.old) (W.contents w.new) (foot_text malformed case_counts.now)) }
{
    print_malformed(w, malformed)?;
    print_totals(w, case_counts)?;
    print_directions(w, case_counts)?;
    print_parts(w, case_counts)
}
