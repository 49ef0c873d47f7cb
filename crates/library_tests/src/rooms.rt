//! Buffers of each list that the crates below store, made while an allocation fails.
use explicit::isolates::IsolateMap;
use explicit::levels::Explicit;
use paragraph::resolver::Resolver;
use resolve::pairs::Pairs;
use sequences::sequences::Sequences;
use std::alloc::Global;
use units::memory::Memory;

/// Returns the errors of making each kind of buffer for `n` positions.
fn rejections(alloc: Global, n: usize) -> [Option<Memory>; 5] {
    [
        IsolateMap::with_room(alloc, n).err(),
        Explicit::with_room(alloc, n).err(),
        Sequences::with_room(alloc, n).err(),
        Pairs::with_room(alloc, n).err(),
        Resolver::with_room(alloc, n).err(),
    ]
}

// To be run with each growth refused in turn: a refused growth makes at most one call fail.
#[test]
fn says_that_memory_was_refused(rt: HostRuntime) {
    let rejected = rejections(rt.alloc(), 64).iter().flatten().count();
    assert!(rt; rejected <= 1, "{rejected}");
}
