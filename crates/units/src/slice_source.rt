// A source over a slice, which never fails.
ghost use Rattle.std.specs.Prelude.{◌≡◌, ℕ, ◌++◌, List, [], length, refl};
ghost use Rattle.units.specs.Joined.{splits_joined};

use crate::source::{ByteSource, SourceFault};
use std::marker::Model;

/// A source of the bytes of a slice, which never fails. Contracts see the bytes that remain.
#[derive(Drop)]
pub struct SliceSource<'a> {
    rest: &'a [u8],
}

impl<'a> Model for SliceSource<'a> {
    ghost Value = { List ℕ };

    ghost view = { λ s. s.rest.now };
}

impl<'a> SliceSource<'a> {
    /// Makes a source of these bytes.
    pub fn new(bytes: &'a [u8]) -> Self
        ensures { result ≡ bytes.now }
    {
        SliceSource { rest: bytes }
    }
}

impl ByteSource for SliceSource<'_> {
    ghost gives = { λ s xs t. s ≡ xs ++ t };

    ghost ended = { λ s. s ≡ [] };

    ghost failures = { λ _. 0 };

    ghost most_remaining = { length };

    ghost gives_nothing = { λ s. refl };

    ghost gives_joined = { splits_joined };

    fn read(&mut self, buf: &mut [u8]) -> Result<usize, SourceFault> {
        let rest = self.rest;
        let n = rest.len().min(buf.len());
        let (now, later) = rest.split_at(n);
        buf[..n].copy_from_slice(now);
        self.rest = later;
        Ok(n)
    }

    fn failures(&self) -> u32 {
        0
    }

    fn most_remaining(&self) -> u64 {
        self.rest.len() as u64
    }
}
