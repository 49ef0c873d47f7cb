//! Finds the row of a line in a file.
ghost use Rattle.std.specs.Prelude.{◌≡◌, ◌≤◌, ◌<◌, ℕ, List, [], OnOk, length};
ghost use Rattle.bidtests.specs.declared.line_reader.TheConstants.{MOST_UNITS};
ghost use Rattle.explain.specs.Searching.{SearchesOn, row_or_fault};
ghost use Rattle.explain.specs.WantedRows.{Finds};

use crate::chosen_row::ChosenRow;
use crate::row_fault::SearchFault;
use crate::search::RowSearch;
use bidtests::kind::Kind;
use bidtests::line_reader::Asked;
use std::alloc::Global;
use std::num::NonZeroU64;
use units::source::ByteSource;

/// Reads the source up to the wanted row, and returns what that row asks for.
fn search_source<S: ByteSource>(
    search: &mut RowSearch,
    kind: Kind<'_>,
    number: u64,
    source: &mut S,
) -> Result<Asked, SearchFault>
    requires { SearchesOn kind number search.old [] }
    ensures found { (given : List ℕ) × S.gives source.old given source.new
        × Finds (S.failures source.new ≡ 1) (S.ended source.new) kind.entry number given
        (row_or_fault search.new.rows result) }
    ensures fits { OnOk result (length search.new.rows.reading.text ≤ MOST_UNITS) }
{
    let mut piece = [0; 4096];
    loop {
        match source.read(&mut piece) {
            Err(_) => return Err(SearchFault::Read),
            Ok(0) => return Ok(search.finish(kind, number)?),
            Ok(n) => {
                if let Some(asked) = search.take(kind, number, &piece[..n])? {
                    return Ok(asked);
                }
            }
        }
    }
}

/// Reads the source, as a file of the given kind, up to the given line, counted from 1, and returns its row. It reads
/// 4,096 bytes at a time, and stores one line.
///
/// Fails with `OfRow` if this line or an earlier one is malformed, which reports the first of them, or if the line is
/// not a row. Fails with `Read` if the source fails before that is known, and with `Memory` if an allocation fails.
pub fn find_row<S: ByteSource>(
    alloc: Global,
    kind: Kind<'_>,
    line: NonZeroU64,
    source: &mut S,
) -> Result<ChosenRow, SearchFault>
    ensures { (given : List ℕ) × S.gives source.old given source.new
        × Finds (S.failures source.new ≡ 1) (S.ended source.new) kind.entry line.value given result }
{
    let mut search = RowSearch::new(alloc)?;
    let asked = search_source(&mut search, kind, line.get(), source)?;
    Ok(search.found(asked))
}
