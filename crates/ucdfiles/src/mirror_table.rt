// The mirror images that BidiMirroring.txt states.
ghost use Rattle.std.specs.Prelude.{◌≡◌, ◌↔◌, ℕ, List, map, Some, Err, IfOk, IfErr};
ghost use Rattle.ucdfiles.specs.Spans.{IsRising, revalued};

use crate::fault::{Fault, TableFault};
use crate::pair_line::mirror_line;
use crate::reading::{LineTable, read_lines};
use crate::span::Span;
use crate::statements::Statements;
use crate::two_stage::{BorrowedStages, TableStages, TwoStage};
use std::alloc::{AllocError, Global};
use std::marker::Model;
use units::source::ByteSource;

impl LineTable for Statements<char> {
    ghost use Rattle.ucdfiles.specs.PairFiles.{mirror_fault, mirror_in, pair_line_says};
    ghost use Rattle.ucdfiles.specs.Statements.{AreStatedBy};
    ghost use Rattle.ucdfiles.specs.LongLines.{pair_fault-long};

    ghost represents = { AreStatedBy (pair_line_says mirror_in) };

    ghost fault = { mirror_fault };

    ghost over_long = { pair_fault-long mirror_in };

    fn add(&mut self, line: &[u8], number: u64) -> Result<(), TableFault> {
        self.add_line(mirror_line(line), Fault::Twice, number)
    }
}

// Returns the same code points, each with `Some` image.
fn images(alloc: Global, spans: &[Span<char>]) -> Result<Vec<Span<Option<char>>>, AllocError>
    requires { IsRising spans.now }
    ensures items { IfOk result (λ images. images.items ≡ map (revalued Some) spans.now) }
    ensures rising { IfOk result (λ images. IsRising images.items) }
{
    let mut images = Vec::new(alloc);
    for span in spans {
        images.push(Span {
            first: span.first,
            last: span.last,
            value: Some(span.value),
        })?;
    }
    Ok(images)
}

/// L4: the mirror images of the characters. Contracts see them through `mirror_by`.
#[derive(Drop)]
pub struct MirrorTable {
    mirrored: TableStages<'static, Option<char>>,
}

impl Model for MirrorTable {
    ghost use Rattle.std.specs.Prelude.{ℕ, Option};
    ghost use Rattle.ucdfiles.specs.TableStages.{stages_of};
    ghost use Rattle.ucdfiles.specs.Stages.{Stages};

    ghost Value = { Stages (Option ℕ) };

    ghost view = { λ t. stages_of t.mirrored };
}

impl MirrorTable {
    ghost use Rattle.ucdfiles.specs.PairFiles.{mirror_fault, StatesMirrors};
    ghost use Rattle.ucdfiles.specs.Reading.{IsFault, OfAllBytes};
    ghost use Rattle.ucdfiles.specs.Stages.{AreStages};
    ghost use Rattle.ucdfiles.specs.Tables.{mirror_by};

    /// Reads the source to its end and returns the mirror table that its bytes state. Fails with the fault of the
    /// first faulty line. Fails with `Read` exactly if the source has failed; then no complete line is faulty, and no
    /// line that has begun is over-long. Fails with `Memory` only after a read that succeeded, so `Memory` hides no
    /// failure from before the call. After a fault, it is unspecified how far the source was read.
    pub fn read<S: ByteSource>(alloc: Global, source: &mut S) -> Result<MirrorTable, TableFault>
        ensures read { (result ≡ Err TableFault.Read) ↔ (S.failures source.new ≡ 1) }
        ensures ok { IfOk result (λ table. OfAllBytes (S.gives source.old) S.ended source.new
            (λ given. StatesMirrors given (mirror_by table))) }
        ensures err { IfErr result (λ e. (given : List ℕ) × S.gives source.old given source.new
            × IsFault mirror_fault (S.ended source.new) given e) }
    {
        let mut lines = Statements::new(alloc);
        read_lines(&mut lines, source)?;
        let Ok(images) = images(alloc, lines.data()) else {
            return Err(TableFault::Memory);
        };
        match TwoStage::new(alloc, &images, &[], None) {
            Ok(mirrored) => Ok(MirrorTable {
                mirrored: TableStages::Made(mirrored),
            }),
            Err(_) => Err(TableFault::Memory),
        }
    }

    /// Makes the table from constants in two stages. Allocates nothing.
    pub fn of_constants(numbers: &'static [u16], values: &'static [Option<char>]) -> MirrorTable
        requires { AreStages (record { numbers = numbers.now; values = values.now }) }
        ensures { result ≡ record { numbers = numbers.now; values = values.now } }
    {
        MirrorTable {
            mirrored: TableStages::Constant(BorrowedStages::new(numbers, values)),
        }
    }

    #[tactic(auto, unfolding(crate::specs::Tables::mirror_by))]
    /// Returns the mirror image of a character, if it has one.
    pub fn glyph(&self, c: char) -> Option<char>
        ensures { result ≡ mirror_by self.now c }
    {
        self.mirrored.value(c)
    }
}
