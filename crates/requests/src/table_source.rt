// The tables of a request: those of a folder, or the built-in ones.
ghost use Rattle.std.specs.Prelude.{IfOk, IfErr};
ghost use Rattle.requests.specs.Parts.{IsFirstFault, source_parts};
ghost use Rattle.requests.specs.TableSources.{AreTablesBy};

use crate::fault::Fault;
use crate::files::Files;
use crate::request::TableSource;
use crate::table_files::read_tables;
use std::alloc::Global;
use ucdfiles::tables::Tables;

#[tactic(auto, unfolding(crate::specs::TableSources::AreBuiltIn))]
/// Returns the tables of the folder, with the faults of `read_tables`, or the built-in ones, without a fault.
pub fn tables_by<'a, F: Files>(
    alloc: Global,
    files: &F,
    source: TableSource<'a>,
) -> Result<Tables, Fault<'a>>
    ensures tables { IfOk result (AreTablesBy (F.facts files.now) source.entry) }
    ensures fault { IfErr result (IsFirstFault (source_parts (F.facts files.now) source.entry)) }
{
    match source {
        TableSource::Folder(folder) => read_tables(alloc, files, folder),
        TableSource::BuiltIn => Ok(standard::tables()),
    }
}
