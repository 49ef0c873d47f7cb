// Searches the bytes of a file for the row of a line.
ghost use Rattle.std.specs.Prelude.{◌≡◌, ◌≤◌, ◌<◌, ℕ, List, [], ◌++◌, IfOk, IsSome, OnOk, length};
ghost use Rattle.units.specs.LineReturns.{CutIsShort};
ghost use Rattle.bidtests.specs.declared.kind.Kind.{Kind as FileKind};
ghost use Rattle.bidtests.specs.declared.line_reader.TheConstants.{MOST_UNITS};
ghost use Rattle.explain.specs.Searching.{SearchComesTo, EndsLast, EndsWith, SaysOfCut, SearchesOn, PieceSettles, row_in};

use crate::chosen_row::ChosenRow;
use crate::row_fault::RowFault;
use crate::row_reader::RowReader;
use bidtests::kind::Kind;
use bidtests::line_reader::Asked;
use bidtests::verdict::Cause;
use std::alloc::Global;
use std::marker::Model;
use units::line_cut::{Cut, LineCut};
use units::memory::Memory;

/// A search for a row. It stores one line, the text of one row and the lists in force.
#[derive(Drop)]
pub struct RowSearch {
    splitter: LineCut,
    rows: RowReader,
}

impl Model for RowSearch {
    ghost use Rattle.explain.specs.Searching.{Searching};

    ghost Value = { Searching };

    ghost view = { λ s. record { cutting = s.splitter; rows = s.rows } };
}

/// Reads the line that ends at the cut, if one does.
fn take_cut(
    kind: Kind<'_>,
    rows: &mut RowReader,
    wanted: u64,
    cut: Cut<'_>,
) -> Result<Option<Asked>, RowFault>
    requires { CutIsShort cut }
    ensures says { SaysOfCut kind.entry wanted cut.entry rows.old rows.new result }
    ensures fits { IfOk result (λ row. IsSome row → length rows.new.reading.text ≤ MOST_UNITS) }
{
    match cut {
        Cut::More => Ok(None),
        Cut::Line { number, text } => rows.take_line(kind, wanted, number, text),
        Cut::TooLong { number } => Err(RowFault::Malformed {
            line: number,
            cause: Cause::LineTooLong,
        }),
    }
}

/// Returns the result of a search. `row` is the result of the last line of the file.
fn of_last(row: Result<Option<Asked>, RowFault>) -> Result<Asked, RowFault>
    ensures { EndsLast row result }
{
    match row {
        Ok(Some(asked)) => Ok(asked),
        Ok(None) => Err(RowFault::NoRow),
        Err(fault) => Err(fault),
    }
}

impl RowSearch {
    /// Creates a search before the first byte of a file.
    pub fn new(alloc: Global) -> Result<RowSearch, Memory>
        ensures { IfOk result (λ search. (kind : FileKind) (wanted : ℕ) → 0 < wanted
            → SearchesOn kind wanted search []) }
    {
        let rows = RowReader::new(alloc)?;
        Ok(RowSearch {
            splitter: LineCut::new(),
            rows,
        })
    }

    /// Takes the next bytes of a file of the given kind, at most through the end of a line. Returns how many it took,
    /// and what the wanted row asks for if that line is the row.
    fn take_next(
        &mut self,
        kind: Kind<'_>,
        wanted: u64,
        piece: &[u8],
    ) -> Result<(usize, Option<Asked>), RowFault>
        ensures used { IfOk result (λ taken. taken.0 ≤ length piece.now) }
        ensures some { IfOk result (λ taken. 0 < length piece.now → 0 < taken.0) }
        ensures comes { (b : List ℕ) → SearchesOn kind.entry wanted self.old b
            → PieceSettles kind.entry wanted self.new b piece.now result }
        ensures fits { IfOk result (λ taken. IsSome taken.1 → length self.new.rows.reading.text ≤ MOST_UNITS) }
    {
        let (used, cut) = self.splitter.take(piece);
        let row = take_cut(kind, &mut self.rows, wanted, cut)?;
        Ok((used, row))
    }

    /// Takes the next bytes of a file of the given kind, up to the wanted row. Returns what that row asks for if the
    /// bytes contain it. Fails if the row does not exist, or if it or an earlier line is malformed.
    pub fn take(
        &mut self,
        kind: Kind<'_>,
        wanted: u64,
        piece: &[u8],
    ) -> Result<Option<Asked>, RowFault>
        ensures comes { (b : List ℕ) → SearchesOn kind.entry wanted self.old b
            → SearchComesTo kind.entry wanted self.new (b ++ piece.now) result }
        ensures fits { IfOk result (λ row. IsSome row → length self.new.rows.reading.text ≤ MOST_UNITS) }
    {
        let mut rest = piece;
        while !rest.is_empty() {
            let (used, row) = self.take_next(kind, wanted, rest)?;
            if row.is_some() {
                return Ok(row);
            }
            rest = &rest[used..];
        }
        Ok(None)
    }

    /// Returns the row that ended the search. `asked` is what it asks for.
    pub fn found(self, asked: Asked) -> ChosenRow
        requires { length self.rows.reading.text ≤ MOST_UNITS }
        ensures { result ≡ row_in self.rows asked }
    {
        let RowSearch { rows, .. } = self;
        ChosenRow::new(rows, asked)
    }

    /// Takes the end of a file of the given kind. Returns what the wanted row asks for if the unfinished line is that
    /// row. Fails if the row does not exist, or if it or an earlier line is malformed.
    pub fn finish(&mut self, kind: Kind<'_>, wanted: u64) -> Result<Asked, RowFault>
        ensures ends { (b : List ℕ) → SearchesOn kind.entry wanted self.old b
            → EndsWith kind.entry wanted self.new b result }
        ensures fits { OnOk result (length self.new.rows.reading.text ≤ MOST_UNITS) }
    {
        match self.splitter.finish() {
            None => Err(RowFault::NoRow),
            Some((number, text)) => of_last(self.rows.take_line(kind, wanted, number, text)),
        }
    }
}
