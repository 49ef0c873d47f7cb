//! Refused memory: `tools/refused_growths.sh` runs this test with each growth refused in turn. A call then returns the
//! usual result or a `Memory` error, and no other.
use crate::small_tables::tables;
use printing::fault::PrintFault;
use printing::print::{print_levels, print_reorder};
use std::alloc::Global;
use std::num::NonZeroU16;
use std::process::Abort;
use ucdfiles::fault::TableFault;
use ucdfiles::tables::Tables;
use units::level::Direction;

/// Expects a `Memory` error, or that `expected` was written to the front of the bytes and `remaining` bytes remain.
fn written_or_out_of_memory(
    rt: &impl Abort,
    outcome: Result<(), PrintFault>,
    bytes: &[u8],
    remaining: usize,
    expected: &[u8],
) {
    match outcome {
        Ok(()) => {
            assert!(rt; bytes.starts_with(expected));
            assert_eq!(rt; remaining, bytes.len().saturating_sub(expected.len()));
        }
        Err(fault) => assert_eq!(rt; fault, PrintFault::Memory),
    }
}

const TEXT: [char; 3] = ['\u{5D0}', '<', 'a'];

/// Prints the levels of the text. Expects these or a `Memory` error.
fn levels_or_out_of_memory(rt: &impl Abort, alloc: Global, tables: &Tables) {
    let mut bytes = [0; 64];
    let mut out = bytes.as_mut_slice();
    let outcome = print_levels(alloc, &mut out, tables, &TEXT, Direction::Ltr);
    let remaining = out.len();
    let lines = b"paragraph 0 level 0\n0 05D0 R 1\n1 003C ON 0\n2 0061 L 0\n";
    written_or_out_of_memory(rt, outcome, &bytes, remaining, lines);
}

/// Prints the text as it is shown in lines of two columns. Expects these or a `Memory` error.
fn reorder_or_out_of_memory(rt: &impl Abort, alloc: Global, tables: &Tables) {
    let mut bytes = [0; 64];
    let mut out = bytes.as_mut_slice();
    let columns = NonZeroU16::new(2);
    let outcome = print_reorder(alloc, &mut out, tables, &TEXT, Direction::Rtl, columns);
    let remaining = out.len();
    written_or_out_of_memory(rt, outcome, &bytes, remaining, b">\xd7\x90\na\n");
}

#[test]
fn prints_or_says_that_memory_was_refused(rt: HostRuntime) {
    match tables(rt.alloc()) {
        Ok(tables) => {
            levels_or_out_of_memory(&rt, rt.alloc(), &tables);
            reorder_or_out_of_memory(&rt, rt.alloc(), &tables);
        }
        Err(fault) => assert_eq!(rt; fault, TableFault::Memory),
    }
}
