//! Tables of the small files.
use std::alloc::Global;
use ucdfiles::bracket_table::BracketTable;
use ucdfiles::class_table::ClassTable;
use ucdfiles::fault::TableFault;
use ucdfiles::mirror_table::MirrorTable;
use ucdfiles::small::{BRACKETS, CLASSES, MIRRORS};
use ucdfiles::tables::Tables;
use units::slice_source::SliceSource;

/// Returns the tables of the small files.
pub fn tables(alloc: Global) -> Result<Tables, TableFault> {
    Ok(Tables::new(
        ClassTable::read(alloc, &mut SliceSource::new(CLASSES))?,
        BracketTable::read(alloc, &mut SliceSource::new(BRACKETS))?,
        MirrorTable::read(alloc, &mut SliceSource::new(MIRRORS))?,
    ))
}
