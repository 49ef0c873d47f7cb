// Reads a source line by line into a table.
ghost use Rattle.std.specs.Prelude.{◌≡◌, ◌≢◌, ℕ, ◌<◌, ◌↔◌, List, [], ◌++◌, length, Option, Some, Err, take, IfErr};
ghost use Rattle.std.specs.Prelude.{OnOk};
ghost use Rattle.ucdfiles.specs.Faults.{over_long_line};
ghost use Rattle.units.specs.Text.{longest_line};
ghost use Rattle.ucdfiles.specs.Reading.{Reads, ReadsOn, TakesLine, IsLineError, EndsFaultless, EndsFaulty, IsCut};
ghost use Rattle.ucdfiles.specs.Reading.{IsCutError, RejectsBytes, IsOutcome, OfBytes};
ghost use Rattle.ucdfiles.specs.declared.fault.Fault.{Fault as FaultKind};

use crate::fault::TableFault;
use units::line_cut::{Cut, LineCut};
use units::source::ByteSource;

/// A table that is made from a file line by line.
pub trait LineTable {
    // The table is what these lines state.
    ghost represents: { Self → List (List ℕ) → Type 0 };

    // The fault of a line after these.
    ghost fault: { List (List ℕ) → List ℕ → Option FaultKind };

    /// Adds one more line, with its number, counted from 1. Fails with the line's fault, if it has one.
    fn add(&mut self, line: &[u8], number: u64) -> Result<(), TableFault>
        ensures ok { OnOk result (TakesLine (represents self.old) (represents self.new) fault line.now) }
        ensures err { IfErr result (IsLineError (represents self.old) fault number line.now) }
        ensures not_read { IfErr result (λ e. e ≢ TableFault.Read) };

    ghost over_long: { (lines : List (List ℕ)) (line : List ℕ) → longest_line < length line
        → fault lines line ≡ Some over_long_line };
}

fn take_cut<T: LineTable>(table: &mut T, taken: Cut<'_>) -> Result<(), TableFault>
    ensures ok { OnOk result (IsCut (T.represents table.old) (T.represents table.new) T.fault taken.entry) }
    ensures err { IfErr result (IsCutError (T.represents table.old) T.fault taken.entry) }
    ensures not_read { IfErr result (λ e. e ≢ TableFault.Read) }
{
    match taken {
        Cut::More => Ok(()),
        Cut::Line { number, text } => table.add(text, number),
        Cut::TooLong { number } => Err(TableFault::LineTooLong(number)),
    }
}

fn feed<T: LineTable>(table: &mut T, splitter: &mut LineCut, piece: &[u8]) -> Result<(), TableFault>
    ensures ok { OnOk result
        (ReadsOn (T.represents table.old) (T.represents table.new) T.fault splitter.old splitter.new
        piece.now) }
    ensures err { IfErr result (λ e. (b : List ℕ) → Reads (T.represents table.old) T.fault splitter.old b
        → RejectsBytes T.fault (b ++ piece.now) e) }
    ensures not_read { IfErr result (λ e. e ≢ TableFault.Read) }
{
    let mut at = 0;
    while at < piece.len() {
        let (used, taken) = splitter.take(&piece[at..]);
        take_cut(table, taken)?;
        at += used;
    }
    Ok(())
}

// Adds the line that the end of the bytes ends.
fn end<T: LineTable>(table: &mut T, splitter: &LineCut) -> Result<(), TableFault>
    ensures ok { OnOk result (EndsFaultless (T.represents table.old) (T.represents table.new) T.fault splitter.now) }
    ensures err { IfErr result (EndsFaulty (T.represents table.old) T.fault splitter.now) }
    ensures not_read { IfErr result (λ e. e ≢ TableFault.Read) }
{
    match splitter.finish() {
        None => Ok(()),
        Some((number, text)) => table.add(text, number),
    }
}

/// Reads the source to its end, or to the first faulty line.
pub fn read_lines<T: LineTable, S: ByteSource>(
    table: &mut T,
    source: &mut S,
) -> Result<(), TableFault>
    ensures read { (result ≡ Err TableFault.Read) ↔ (S.failures source.new ≡ 1) }
    ensures outcome { T.represents table.old [] → OfBytes (S.gives source.old) source.new
        (IsOutcome (T.represents table.new) T.fault (S.ended source.new) result) }
{
    let mut splitter = LineCut::new();
    let mut buf = [0; 4096];
    loop {
        match source.read(&mut buf) {
            Err(_) => return Err(TableFault::Read),
            Ok(0) => return end(table, &splitter),
            Ok(n) => feed(table, &mut splitter, &buf[..n])?,
        }
    }
}
