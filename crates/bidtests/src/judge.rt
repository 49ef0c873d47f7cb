//! The judge of both kinds of test files.
ghost use Rattle.std.specs.Prelude.{◌≡◌, ◌≤◌, ◌++◌, ℕ, List, [], IfOk, IfSome, OnOk, length};
ghost use Rattle.std.specs.Result.{result_err};
ghost use Rattle.units.specs.LineReturns.{CutIsShort};
ghost use Rattle.units.specs.Limits.{LimitsOf, standard};
ghost use Rattle.units.specs.Text.{longest_line};
ghost use Rattle.bidtests.specs.Carried.{no_by, after_cut, verdict_after};
ghost use Rattle.bidtests.specs.JudgedSoFar.{Judges, JudgesWith};
ghost use Rattle.bidtests.specs.FileKinds.{stored_tables, verdict_of};
ghost use Rattle.bidtests.specs.Headline.{SaysOf};
ghost use Rattle.bidtests.specs.declared.kind.Kind.{Kind as FileKind};

use crate::kind::{Kind, StoredKind};
use crate::line_judge::LineJudge;
use crate::verdict::{Cause, Verdict};
use std::alloc::Global;
use std::marker::Model;
use ucdfiles::tables::Tables;
use units::limits::Limits;
use units::line_cut::{Cut, LineCut};
use units::memory::Memory;

/// Judges the bytes of a test file, in pieces of any size. It stores one line, the text of one row and the lists in
/// force, and stops judging at the first line that is malformed or wrong. Contracts state the limits of its layouts and
/// the bytes that it has judged: all bytes passed to it, joined.
#[derive(Drop)]
pub struct Judge<'t> {
    kind: StoredKind<'t>,
    splitter: LineCut,
    line_judge: LineJudge,
    decided: Option<Verdict>,
}

impl<'t> Model for Judge<'t> {
    ghost use Rattle.bidtests.specs.FileKinds.{stored_tables};
    ghost use Rattle.bidtests.specs.JudgedSoFar.{Judging};

    ghost Value = { Judging };

    ghost view = { λ s. record {
      tables = stored_tables s.kind;
      cutting = s.splitter;
      carried = s.line_judge;
      decided = s.decided;
    } };
}

/// Judges the line that a cut ends, if it ends one. The error is the failing verdict.
fn judge_cut(kind: Kind<'_>, line_judge: &mut LineJudge, taken: Cut<'_>) -> Result<(), Verdict>
    requires { CutIsShort taken }
    ensures no { result_err result ≡ no_by kind.entry line_judge.old taken.entry }
    ensures carried { OnOk result (line_judge.new
        ≡ after_cut kind.entry taken.entry line_judge.old) }
{
    match taken {
        Cut::More => Ok(()),
        Cut::Line { number, text } => line_judge.judge_line(kind, number, text),
        Cut::TooLong { number } => Err(Verdict::Malformed {
            line: number,
            cause: Cause::LineTooLong,
        }),
    }
}

/// Judges the last line, if it has no LF, and returns the verdict.
fn judge_last(kind: Kind<'_>, line_judge: &mut LineJudge, last: Option<(u64, &[u8])>) -> Verdict
    requires { IfSome last (λ line. length line.1.now ≤ longest_line) }
    ensures { result ≡ verdict_after kind.entry line_judge.old last.entry }
{
    if let Some((number, text)) = last {
        if let Err(no) = line_judge.judge_line(kind, number, text) {
            return no;
        }
    }
    line_judge.yes()
}

impl<'t> Judge<'t> {
    /// Creates a judge of a BidiTest.txt, with the standard limits, before the first byte. Only this call allocates; it
    /// fails with `Memory` if an allocation fails.
    pub fn for_classes(alloc: Global) -> Result<Judge<'static>, Memory>
        ensures { IfOk result (λ judge. Judges standard FileKind.Classes judge []) }
    {
        Judge::for_classes_with(alloc, Limits::standard())
    }

    /// Creates a judge of a BidiTest.txt that lays out with these limits, before the first byte. Only this call
    /// allocates; it fails with `Memory` if an allocation fails.
    pub fn for_classes_with(alloc: Global, limits: Limits) -> Result<Judge<'static>, Memory>
        ensures { IfOk result (λ judge. Judges limits FileKind.Classes judge []) }
    {
        Judge::new(alloc, StoredKind::Borrowed(Kind::Classes), limits)
    }

    /// Creates a judge of a BidiCharacterTest.txt, with the standard limits, before the first byte. The tables give the
    /// unit of each code point. Only this call allocates; it fails with `Memory` if an allocation fails.
    pub fn for_characters(alloc: Global, tables: &'t Tables) -> Result<Judge<'t>, Memory>
        ensures { IfOk result (λ judge. Judges standard (FileKind.Characters tables.entry) judge []) }
    {
        Judge::for_characters_with(alloc, tables, Limits::standard())
    }

    /// Creates a judge of a BidiCharacterTest.txt that lays out with these limits, before the first byte. The tables
    /// give the unit of each code point. Only this call allocates; it fails with `Memory` if an allocation fails.
    pub fn for_characters_with(
        alloc: Global,
        tables: &'t Tables,
        limits: Limits,
    ) -> Result<Judge<'t>, Memory>
        ensures { IfOk result (λ judge. Judges limits (FileKind.Characters tables.entry) judge []) }
    {
        Judge::new(
            alloc,
            StoredKind::Borrowed(Kind::Characters(tables)),
            limits,
        )
    }

    /// Creates a judge of a file of this kind that lays out with these limits, before the first byte. Only this call
    /// allocates; it fails with `Memory` if an allocation fails.
    pub fn new(alloc: Global, kind: StoredKind<'t>, limits: Limits) -> Result<Judge<'t>, Memory>
        ensures { IfOk result (λ judge. JudgesWith limits (stored_tables kind.entry) judge []) }
    {
        Ok(Judge {
            kind,
            splitter: LineCut::new(),
            line_judge: LineJudge::new(alloc, limits)?,
            decided: None,
        })
    }

    /// Judges the next bytes of the file. The sizes of the pieces change nothing, and bytes after the first line that
    /// is malformed or wrong change nothing. It allocates no memory and always succeeds.
    pub fn feed(&mut self, piece: &[u8])
        ensures { (limits : LimitsOf) (kind : FileKind) (b : List ℕ) → Judges limits kind self.old b
            → Judges limits kind self.new (b ++ piece.now) }
    {
        let mut at = 0;
        while at < piece.len() {
            if self.decided.is_some() {
                return;
            }
            let (used, taken) = self.splitter.take(&piece[at..]);
            self.decided = judge_cut(self.kind.kind(), &mut self.line_judge, taken).err();
            at += used;
        }
    }

    /// Returns the verdict as `finish` does, for a caller that only borrows the judge. Contracts state nothing about
    /// the judge after this call.
    pub fn verdict(&mut self) -> Verdict
        ensures { (limits : LimitsOf) (kind : FileKind) (b : List ℕ) → Judges limits kind self.old b
            → result ≡ verdict_of limits kind b }
    {
        if let Some(verdict) = self.decided {
            return verdict;
        }
        let last = self.splitter.finish();
        judge_last(self.kind.kind(), &mut self.line_judge, last)
    }

    /// Returns the verdict on all bytes passed so far, as the whole file. It reports the first line that is malformed
    /// or has a wrong case, or else the numbers of rows and cases. What it states of the file is true, and no other
    /// verdict would be (`theorems::verdict_theorem`). It allocates no memory and always succeeds.
    pub fn finish(mut self) -> Verdict
        ensures verdict { (limits : LimitsOf) (kind : FileKind) (b : List ℕ) → Judges limits kind self.entry b
            → result ≡ verdict_of limits kind b }
        ensures says { (limits : LimitsOf) (kind : FileKind) (b : List ℕ) → Judges limits kind self.entry b
            → SaysOf limits kind b result }
    {
        self.verdict()
    }
}
