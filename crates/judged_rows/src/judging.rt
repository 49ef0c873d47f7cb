//! The verdict on a test file, in each way in which its bytes come.

use crate::arbitrary::arbitrary;
use crate::bytes::bytes_of;
use crate::options::{Coming, Options};
use anyhow::{Context, Result, bail};
use bidtests::judge::Judge;
use bidtests::kind::{Kind, StoredKind};
use bidtests::reader::judge_reader;
use bidtests::verdict::Verdict;
use bidtests::verdict_line::print_verdict;
use report::report::Report;
use report::terms::Terms;
use report::wrong_case::WrongCase;
use std::alloc::{AllocError, Global};
use units::cut_source::CutSource;
use units::reader_source::ReaderSource;
use units::slice_source::SliceSource;

/// How a verdict comes about.
#[derive(Clone, Copy, Debug)]
enum Way {
    /// A judge gets the bytes in pieces of this size, and empty pieces between them.
    Pieces(usize),
    /// A judge gets the bytes in two pieces; the first one has this length.
    CutAt(usize),
    /// A source gives all bytes.
    Source,
    /// A source gives so many bytes, and then fails.
    FailingAfter(usize),
    /// A reader gives all bytes, and its source has this limit.
    AtMost(usize),
    /// A report that compares everything implies the verdict.
    Report,
}

/// The text that came out in the first way, and those of other ways that differ from it.
#[derive(Drop)]
struct Outcomes {
    out: String,
    first: Option<String>,
}

impl Outcomes {
    /// Adds what came out in a way.
    fn add(&mut self, way: Way, text: String) -> Result<(), AllocError> {
        match &self.first {
            None => {
                self.out.push_str(&text)?;
                self.first = Some(text);
            }
            Some(first) if *first == text => {}
            Some(_) => write!(self.out, ", but {way:?}: {text}")?,
        }
        Ok(())
    }
}

/// A test file, and how it is judged.
#[derive(Clone, Copy)]
struct File<'a> {
    alloc: Global,
    kind: Kind<'a>,
    options: &'a Options,
    bytes: &'a [u8],
}

/// Returns the verdict on the bytes in pieces of this size, with an empty piece after each.
fn in_pieces(mut judge: Judge<'_>, bytes: &[u8], size: usize) -> Verdict {
    for piece in bytes.chunks(size.max(1)) {
        judge.feed(piece);
        judge.feed(&[]);
    }
    judge.finish()
}

/// Returns the verdict that a report implies, if it has this first wrong case.
fn implied(report: &Report<'_>, first: Option<WrongCase>) -> Verdict {
    let counts = report.case_counts();
    match (first, report.malformed()) {
        (Some(case), _) => Verdict::Wrong {
            line: case.line,
            direction: case.direction,
            place: case.place,
        },
        (None, Some((line, cause))) => Verdict::Malformed { line, cause },
        (None, None) => Verdict::Yes {
            rows: counts.rows,
            cases: counts.cases,
        },
    }
}

/// Returns the verdict that the report on these bytes implies.
fn reported(mut report: Report<'_>, bytes: &[u8]) -> Verdict {
    let mut first = None;
    for piece in bytes.chunks(1) {
        report.take(piece);
        first = first.or(report.found().first().copied());
    }
    report.finish();
    first = first.or(report.found().first().copied());
    implied(&report, first)
}

impl File<'_> {
    /// Makes a judge of the file.
    fn judge(&self) -> Result<Judge<'_>, AllocError> {
        let kind = StoredKind::Borrowed(self.kind);
        Judge::new(self.alloc, kind, self.options.limits).map_err(|_| AllocError)
    }

    /// Makes a report on the file.
    fn report(&self) -> Result<Report<'_>, AllocError> {
        let kind = StoredKind::Borrowed(self.kind);
        let terms = Terms::strict(self.options.limits);
        Report::new(self.alloc, kind, terms).map_err(|_| AllocError)
    }

    /// Returns the verdict on the bytes in two pieces.
    fn cut_at(&self, length: usize) -> Result<Verdict> {
        let mut judge = self.judge()?;
        judge.feed(self.bytes.get(..length).context("the file is shorter")?);
        judge.feed(self.bytes.get(length..).unwrap_or(&[]));
        Ok(judge.finish())
    }

    /// Returns the verdict if the source fails after so many bytes.
    fn failing_after(&self, count: usize) -> Result<Option<Verdict>> {
        if count > self.bytes.len() {
            bail!("the file is shorter");
        }
        let mut source = CutSource::new(self.bytes, count);
        Ok(judge_reader(self.judge()?, &mut source).ok())
    }

    /// Returns the verdict if the source may give so many bytes.
    fn at_most(&self, limit: usize) -> Result<Option<Verdict>> {
        let mut source = ReaderSource::new(self.bytes, limit as u64);
        Ok(judge_reader(self.judge()?, &mut source).ok())
    }

    /// Returns the verdict, or none if the source fails.
    fn verdict(&self, way: Way) -> Result<Option<Verdict>> {
        match way {
            Way::Pieces(size) => Ok(Some(in_pieces(self.judge()?, self.bytes, size))),
            Way::CutAt(length) => Ok(Some(self.cut_at(length)?)),
            Way::Source => {
                Ok(judge_reader(self.judge()?, &mut SliceSource::new(self.bytes)).ok())
            }
            Way::FailingAfter(count) => self.failing_after(count),
            Way::AtMost(limit) => self.at_most(limit),
            Way::Report => Ok(Some(reported(self.report()?, self.bytes))),
        }
    }

    /// Adds what comes out in a way.
    fn add(&self, outcomes: &mut Outcomes, way: Way) -> Result<()> {
        let mut text = String::new(self.alloc);
        match self.verdict(way)? {
            Some(verdict) => push_verdict(self.alloc, &mut text, &verdict)?,
            None => text.push_str("no verdict")?,
        }
        Ok(outcomes.add(way, text)?)
    }

    /// Adds what comes out in each of these ways.
    fn add_each(&self, outcomes: &mut Outcomes, ways: &[Way]) -> Result<()> {
        for way in ways {
            self.add(outcomes, *way)?;
        }
        Ok(())
    }

    /// Adds what comes out in pieces of several sizes, from a source and by a report.
    fn add_usual(&self, outcomes: &mut Outcomes) -> Result<()> {
        let whole = Way::Pieces(self.bytes.len());
        let [one, four, seven] = [Way::Pieces(1), Way::Pieces(4), Way::Pieces(7)];
        self.add_each(
            outcomes,
            &[whole, one, four, seven, Way::Source, Way::Report],
        )
    }

    /// Adds what comes out in pieces of three sizes: making a judge takes longer than judging a few bytes.
    fn add_in_pieces(&self, outcomes: &mut Outcomes) -> Result<()> {
        let whole = Way::Pieces(self.bytes.len());
        self.add_each(outcomes, &[whole, Way::Pieces(1), Way::Pieces(7)])
    }

    /// Adds what comes out if the bytes come as the options say, with this number.
    fn add_number(&self, outcomes: &mut Outcomes, number: usize) -> Result<()> {
        match self.options.coming {
            Coming::Whole => self.add_usual(outcomes),
            Coming::CutAt => self.add(outcomes, Way::CutAt(number)),
            Coming::FailingAfter => self.add(outcomes, Way::FailingAfter(number)),
            Coming::AtMost => self.add(outcomes, Way::AtMost(number)),
            Coming::ArbitraryFrom => {
                let bytes = &arbitrary(u8::try_from(number)?);
                File { bytes, ..*self }.add_in_pieces(outcomes)
            }
        }
    }
}

/// Appends the line of a verdict, without its LF. Fails if no LF ends it.
pub fn push_verdict(alloc: Global, out: &mut String, verdict: &Verdict) -> Result<()> {
    let mut printed = Vec::new(alloc);
    print_verdict(&mut printed, verdict)?;
    let line = str::from_utf8(&printed)?.strip_suffix("\n");
    out.push_str(line.context("no LF ends the line of a verdict")?)?;
    Ok(())
}

/// Appends the verdict on the file that a field writes, if it is the same in each way that the options ask for.
pub fn comes_out(
    alloc: Global,
    kind: Kind<'_>,
    options: &Options,
    field: &str,
    out: &mut String,
) -> Result<()> {
    let bytes = &bytes_of(alloc, field)?;
    let file = File {
        alloc,
        kind,
        options,
        bytes,
    };
    let mut outcomes = Outcomes {
        out: String::new(alloc),
        first: None,
    };
    for number in options.numbers.first..=options.numbers.last {
        file.add_number(&mut outcomes, number)?;
    }
    out.push_str(&outcomes.out)?;
    Ok(())
}
