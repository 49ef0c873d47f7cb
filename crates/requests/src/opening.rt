// Opens files and standard input.
ghost use Rattle.std.specs.Prelude.{◌≡◌, ◌≤◌, IfOk, IfErr};
ghost use Rattle.units.specs.declared.unread.Unread.{Unread};
ghost use Rattle.requests.specs.FaultText.{EndsOpening};
ghost use Rattle.requests.specs.ReadFiles.{origin_of, word_file};

use crate::fault::Fault;
use crate::files::{Files, OpenFault};
use printing::written::Written;
use std::alloc::Global;
use units::unread::Unread;

/// The maximum size of a conformance file or a table's file, in bytes.
pub const MOST_FILE_BYTES: u64 = 1_099_511_627_776;

/// The maximum size of a text, in bytes.
pub const MOST_TEXT_BYTES: u64 = 16_777_216;

/// The value of FILE that names standard input.
const STANDARD_INPUT: &str = "-";

/// Opens FILE as a source.
fn source_of<F: Files>(
    alloc: Global,
    files: &F,
    file: &str,
    most: u64,
) -> Result<F::Source, OpenFault>
    ensures opened { IfOk result (F.opens files.now (origin_of file.now) most) }
    ensures limit { IfOk result (λ source. F.Source.ByteSource.most_remaining source ≤ most) }
    ensures cannot { IfErr result (λ fault. (unread : Unread) → fault ≡ OpenFault.Cannot unread
        → (F.facts files.now).Rejects (origin_of file.now) most unread) }
{
    if file == STANDARD_INPUT {
        files.input(alloc, most)
    } else {
        files.file(alloc, file, most)
    }
}

/// Opens FILE: standard input if it is `-`, and otherwise the file of that name. A read after the first `most` bytes
/// fails. Fails with `CannotRead`, with the name, the limit and the reason, if it can't be opened, and with
/// `OutOfMemory` if an allocation fails.
pub fn open<'a, F: Files>(
    alloc: Global,
    files: &F,
    file: &'a str,
    most: u64,
) -> Result<F::Source, Fault<'a>>
    ensures opened { IfOk result (F.opens files.now (origin_of file.now) most) }
    ensures limit { IfOk result (λ source. F.Source.ByteSource.most_remaining source ≤ most) }
    ensures fault { IfErr result
        (EndsOpening ((F.facts files.now).Rejects (origin_of file.now) most) (word_file most file.now)) }
{
    match source_of(alloc, files, file, most) {
        Ok(source) => Ok(source),
        Err(OpenFault::Cannot(unread)) => Err(Fault::CannotRead {
            name: file,
            folder: None,
            most,
            unread,
            written: Written::Whole,
        }),
        Err(OpenFault::Memory) => Err(Fault::OutOfMemory),
    }
}
