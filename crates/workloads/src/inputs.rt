//! The inputs that a job has had, so that it gets none of them twice.

use crate::digest::Digest;
use std::alloc::Global;
use std::collections::HashSet;
use std::io;

/// The most draws of one input, until it differs from all earlier ones.
pub const MOST_DRAWS: u64 = 10_000;

/// The digests of the inputs that a job has had. Equal inputs have equal digests, so an input with a new digest differs
/// from all earlier ones.
#[derive(Drop)]
pub struct Inputs {
    digests: HashSet<(u64, u64)>,
}

impl Inputs {
    /// Returns the inputs of a job that has had none.
    pub fn new(alloc: Global) -> Inputs {
        Inputs {
            digests: HashSet::new(alloc),
        }
    }

    /// Adds an input by its digest. Returns whether no earlier input has this digest.
    pub fn add(&mut self, input: Digest) -> io::Result<bool> {
        let (_, first, second) = input.parts();
        match self.digests.insert((first, second)) {
            Ok(is_new) => Ok(is_new),
            Err(_) => Err(io::ErrorKind::OutOfMemory.into()),
        }
    }
}

/// Returns the error of a job whose input was an earlier one at each of its draws.
pub fn no_new_input() -> io::Error {
    io::ErrorKind::InvalidData.into()
}
