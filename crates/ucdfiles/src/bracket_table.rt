// The brackets that BidiBrackets.txt states.
ghost use Rattle.std.specs.Prelude.{◌≡◌, ◌↔◌, ℕ, List, Err, IfOk, IfErr};

use crate::fault::{Fault, TableFault};
use crate::keys::keyed;
use crate::pair_line::bracket_line;
use crate::reading::{LineTable, read_lines};
use crate::sided_bracket::SidedBracket;
use crate::span::Span;
use crate::statements::Statements;
use crate::two_stage::{BorrowedStages, TableStages, TwoStage};
use std::alloc::Global;
use std::borrow::CowSlice;
use std::marker::Model;
use units::bracket::Bracket;
use units::source::ByteSource;

impl LineTable for Statements<SidedBracket> {
    ghost use Rattle.ucdfiles.specs.PairFiles.{bracket_fault, bracket_in, pair_line_says};
    ghost use Rattle.ucdfiles.specs.Statements.{AreStatedBy};
    ghost use Rattle.ucdfiles.specs.LongLines.{pair_fault-long};

    ghost represents = { AreStatedBy (pair_line_says bracket_in) };

    ghost fault = { bracket_fault };

    ghost over_long = { pair_fault-long bracket_in };

    fn add(&mut self, line: &[u8], number: u64) -> Result<(), TableFault> {
        self.add_line(bracket_line(line), Fault::Twice, number)
    }
}

/// BD14 to BD16: the brackets of the characters, with their keys. Contracts see them through `bracket_by`.
#[derive(Drop)]
pub struct BracketTable {
    brackets: TableStages<'static, Bracket>,
    spans: CowSlice<'static, Span<Bracket>>,
}

impl Model for BracketTable {
    ghost use Rattle.std.specs.Cow.{cow_slice_items};
    ghost use Rattle.ucdfiles.specs.TableStages.{stages_of};
    ghost use Rattle.ucdfiles.specs.Stages.{Stages};
    ghost use Rattle.ucdfiles.specs.Tables.{IsTableOf};
    ghost use Rattle.units.specs.declared.bracket.Bracket.{Bracket as BracketOf};

    ghost Value = { Stages BracketOf };

    ghost view = { λ t. stages_of t.brackets };

    ghost invariant = { λ t. IsTableOf (cow_slice_items t.spans) (stages_of t.brackets) };
}

impl BracketTable {
    ghost use Rattle.ucdfiles.specs.PairFiles.{bracket_fault, StatesBrackets};
    ghost use Rattle.ucdfiles.specs.Reading.{IsFault, OfAllBytes};
    ghost use Rattle.ucdfiles.specs.Stages.{AreStages};
    ghost use Rattle.ucdfiles.specs.Tables.{bracket_by, IsTableOf};

    /// Reads the source to its end and returns the bracket table that its bytes state. Fails with the fault of the
    /// first faulty line. Fails with `Read` exactly if the source has failed; then no complete line is faulty, and no
    /// line that has begun is over-long. Fails with `Memory` only after a read that succeeded, so `Memory` hides no
    /// failure from before the call. After a fault, it is unspecified how far the source was read.
    pub fn read<S: ByteSource>(alloc: Global, source: &mut S) -> Result<BracketTable, TableFault>
        ensures read { (result ≡ Err TableFault.Read) ↔ (S.failures source.new ≡ 1) }
        ensures ok { IfOk result (λ table. OfAllBytes (S.gives source.old) S.ended source.new
            (λ given. StatesBrackets given (bracket_by table))) }
        ensures err { IfErr result (λ e. (given : List ℕ) × S.gives source.old given source.new
            × IsFault bracket_fault (S.ended source.new) given e) }
    {
        let mut lines = Statements::new(alloc);
        read_lines(&mut lines, source)?;
        let Ok(spans) = keyed(alloc, lines.data()) else {
            return Err(TableFault::Memory);
        };
        match TwoStage::new(alloc, &spans, &[], Bracket::No) {
            Ok(brackets) => Ok(BracketTable {
                brackets: TableStages::Made(brackets),
                spans: CowSlice::Owned(spans),
            }),
            Err(_) => Err(TableFault::Memory),
        }
    }

    /// Makes the table from constants: two stages, and the brackets in the order of their code points. Allocates
    /// nothing.
    pub fn of_constants(
        numbers: &'static [u16],
        values: &'static [Bracket],
        spans: &'static [Span<Bracket>],
    ) -> BracketTable
        requires stages { AreStages (record { numbers = numbers.now; values = values.now }) }
        requires spans { IsTableOf spans.now (record { numbers = numbers.now; values = values.now }) }
        ensures { result ≡ record { numbers = numbers.now; values = values.now } }
    {
        BracketTable {
            brackets: TableStages::Constant(BorrowedStages::new(numbers, values)),
            spans: CowSlice::Borrowed(spans),
        }
    }

    #[tactic(auto, unfolding(crate::specs::Tables::bracket_by))]
    /// Returns the bracket of a character: `No` without a line, else `Open` with the key of its second field or `Close`
    /// with the key of its first.
    pub fn bracket(&self, c: char) -> Bracket
        ensures { result ≡ bracket_by self.now c }
    {
        self.brackets.value(c)
    }
    /// Returns the brackets, in the order of their code points: a character has the bracket of the span that contains
    /// it, and no bracket if no span does.
    pub(crate) fn spans(&self) -> &[Span<Bracket>]
        ensures { IsTableOf result.now self.now }
    {
        self.spans.as_slice()
    }

    /// Borrows the stages.
    pub(crate) fn borrowed(&self) -> BorrowedStages<'_, Bracket>
        ensures { result ≡ self.now }
    {
        self.brackets.borrowed()
    }
}
