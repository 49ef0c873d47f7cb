//! Judging of files as they are read.
ghost use Rattle.std.specs.Prelude.{◌≡◌, ◌↔◌, ℕ, List, IfOk, OnOk, IsErr};
ghost use Rattle.bidtests.specs.JudgedSoFar.{IsVerdictAfter};

use crate::judge::Judge;
use crate::verdict::Verdict;
use units::source::ByteSource;

/// The error if the source failed, so that there is no verdict.
#[derive(Clone, Copy, Debug, PartialEq, Eq)]
pub struct ReadFault;

/// Reads the source to its end and judges its bytes, after those that the judge was given before. It reads to the end
/// even if a line is malformed or wrong. It fails exactly if the source has failed, in this call or before it, so it
/// never returns a verdict on part of a file. It reads 4,096 bytes at a time and allocates no memory.
pub fn judge_reader<S: ByteSource>(
    mut judge: Judge<'_>,
    source: &mut S,
) -> Result<Verdict, ReadFault>
    ensures fault { IsErr result ↔ (S.failures source.new ≡ 1) }
    ensures whole { OnOk result (S.ended source.new) }
    ensures given { (given : List ℕ) × S.gives source.old given source.new }
    ensures verdict { IfOk result (λ verdict. (given : List ℕ) × S.gives source.old given source.new
        × IsVerdictAfter judge.entry given verdict) }
{
    let mut piece = [0; 4096];
    loop {
        match source.read(&mut piece) {
            Err(_) => return Err(ReadFault),
            Ok(0) => return Ok(judge.finish()),
            Ok(n) => judge.feed(&piece[..n]),
        }
    }
}
