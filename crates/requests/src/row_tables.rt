// The tables for the rows of a conformance file.
ghost use Rattle.std.specs.Prelude.{IfOk, IfErr};
ghost use Rattle.requests.specs.FileRows.{AreRowsBy, HasRowTables};
ghost use Rattle.requests.specs.Parts.{IsFirstFault, row_table_parts};

use crate::fault::Fault;
use crate::files::Files;
use crate::request::{FileKind, TableSource};
use crate::table_source::tables_by;
use bidtests::kind::Kind;
use std::alloc::Global;
use ucdfiles::tables::Tables;

/// Returns the tables of the source if the rows of a file of this kind need tables. Fails with the faults of
/// `tables_by`. If tables are needed and no source is named, fails with `TablesNeeded` and opens nothing.
pub fn row_tables<'a, F: Files>(
    alloc: Global,
    files: &F,
    kind: FileKind,
    source: Option<TableSource<'a>>,
) -> Result<Option<Tables>, Fault<'a>>
    ensures tables { IfOk result (HasRowTables (F.facts files.now) kind source.entry) }
    ensures fault { IfErr result (IsFirstFault (row_table_parts (F.facts files.now) kind source.entry)) }
{
    match (kind, source) {
        (FileKind::Classes, _) => Ok(None),
        (FileKind::Characters, Some(source)) => Ok(Some(tables_by(alloc, files, source)?)),
        (FileKind::Characters, None) => Err(Fault::TablesNeeded),
    }
}

/// Returns the kind of the rows: characters with these tables, or classes if there are none.
pub fn rows_by(tables: &Option<Tables>) -> Kind<'_>
    ensures { AreRowsBy tables.now result }
{
    match tables {
        None => Kind::Classes,
        Some(tables) => Kind::Characters(tables),
    }
}
