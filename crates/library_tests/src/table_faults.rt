//! The three readers of tables, with allocations that fail.
use std::alloc::Global;
use ucdfiles::bracket_table::BracketTable;
use ucdfiles::class_table::ClassTable;
use ucdfiles::fault::TableFault;
use ucdfiles::mirror_table::MirrorTable;
use ucdfiles::small::{BRACKETS, CLASSES, MIRRORS};
use units::cut_source::CutSource;
use units::slice_source::SliceSource;
use units::source::ByteSource;

/// Returns the error of each reader over its small file.
fn faults_of_small_files(alloc: Global) -> [Option<TableFault>; 3] {
    [
        ClassTable::read(alloc, &mut SliceSource::new(CLASSES)).err(),
        BracketTable::read(alloc, &mut SliceSource::new(BRACKETS)).err(),
        MirrorTable::read(alloc, &mut SliceSource::new(MIRRORS)).err(),
    ]
}

// Each allocation may fail. Then the error is that of memory, and no other.
#[test]
fn says_that_memory_was_refused(rt: HostRuntime) {
    for fault in faults_of_small_files(rt.alloc()) {
        assert!(rt; matches!(fault, None | Some(TableFault::Memory)));
    }
}

/// Returns the error of each reader over this source.
fn faults_of<S: ByteSource>(alloc: Global, source: &mut S) -> [Option<TableFault>; 3] {
    [
        ClassTable::read(alloc, source).err(),
        BracketTable::read(alloc, source).err(),
        MirrorTable::read(alloc, source).err(),
    ]
}

// Expects a read error from a source that failed before, even if an allocation fails.
#[test]
fn a_source_that_had_failed(rt: HostRuntime) {
    let mut source = CutSource::new(b"", 0);
    assert!(rt; source.read(&mut [0; 1]).is_err());
    for fault in faults_of(rt.alloc(), &mut source) {
        assert_eq!(rt; fault, Some(TableFault::Read));
    }
}
