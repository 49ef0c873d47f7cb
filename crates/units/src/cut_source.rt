// A source that fails after some bytes.
ghost use Rattle.std.specs.Prelude.{◌≡◌, ◌++◌, ◌≤◌, [], length, take, refl, false};
ghost use Rattle.units.specs.Joined.{splits_joined};
ghost use Rattle.units.specs.CutSources.{failures_when};

use crate::source::{ByteSource, SourceFault};
use std::marker::Model;

/// A source of the first bytes of a slice, which then fails, for tests. Contracts see the bytes that remain, and
/// whether the source has failed.
#[derive(Drop)]
pub struct CutSource<'a> {
    rest: &'a [u8],
    has_failed: bool,
}

impl<'a> Model for CutSource<'a> {
    ghost use Rattle.std.specs.Prelude.{◌≡◌, [], true};
    ghost use Rattle.units.specs.CutSources.{CutSource as CutView};

    ghost Value = { CutView };

    ghost view = { λ s. record { rest = s.rest.now; has_failed = s.has_failed } };

    ghost invariant = { λ s. s.has_failed ≡ true → s.rest.now ≡ [] };
}

impl<'a> CutSource<'a> {
    /// Makes a source of the first `count` bytes.
    pub fn new(bytes: &'a [u8], count: usize) -> Self
        requires { count ≤ length bytes.now }
        ensures rest { result.rest ≡ take count bytes.now }
        ensures sound { result.has_failed ≡ false }
    {
        CutSource {
            rest: &bytes[..count],
            has_failed: false,
        }
    }
}

impl ByteSource for CutSource<'_> {
    ghost gives = { λ s xs t. s.rest ≡ xs ++ t.rest };

    ghost ended = { λ _. ⊥ };

    ghost failures = { λ s. failures_when s.has_failed };

    ghost most_remaining = { λ s. length s.rest };

    ghost gives_nothing = { λ s. refl };

    ghost gives_joined = { λ s t u xs ys f g. splits_joined s.rest t.rest u.rest xs ys f g };

    fn read(&mut self, buf: &mut [u8]) -> Result<usize, SourceFault> {
        if self.has_failed || self.rest.is_empty() {
            self.has_failed = true;
            return Err(SourceFault);
        }
        let rest = self.rest;
        let n = rest.len().min(buf.len());
        let (now, later) = rest.split_at(n);
        buf[..n].copy_from_slice(now);
        self.rest = later;
        Ok(n)
    }

    fn failures(&self) -> u32 {
        if self.has_failed { 1 } else { 0 }
    }

    fn most_remaining(&self) -> u64 {
        self.rest.len() as u64
    }
}
