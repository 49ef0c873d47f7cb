//! Digests of inputs and of results.

use units::level::{Level, ParaLevel};

/// The amount that was added, and two sums over it. The second sum depends on the order.
#[derive(Clone, Copy)]
pub struct Digest {
    count: u64,
    first: u64,
    second: u64,
}

impl Digest {
    /// Returns the digest of nothing.
    pub fn new() -> Digest {
        Digest {
            count: 0,
            first: 0,
            second: 0,
        }
    }

    /// Returns the digest of bytes.
    pub fn of_bytes(bytes: &[u8]) -> Digest {
        let mut digest = Digest::new();
        digest.add_bytes(bytes);
        digest
    }

    /// Adds a number.
    pub fn add(&mut self, number: u64) {
        self.count = self.count.wrapping_add(1);
        self.first = self.first.wrapping_add(number).wrapping_add(1);
        self.second = self.second.wrapping_add(self.first);
    }

    /// Adds a size or a position.
    pub fn add_size(&mut self, size: usize) {
        self.add(size as u64);
    }

    /// Adds positions.
    pub fn add_sizes(&mut self, sizes: &[usize]) {
        let mut digest = *self;
        for size in sizes {
            digest.add_size(*size);
        }
        *self = digest;
    }

    /// Adds a level, or its absence.
    pub fn add_level(&mut self, level: Option<Level>) {
        match level {
            Some(level) => self.add(u64::from(level.get())),
            None => self.add(255),
        }
    }

    /// Adds levels.
    pub fn add_levels(&mut self, levels: &[Option<Level>]) {
        let mut digest = *self;
        for level in levels {
            digest.add_level(*level);
        }
        *self = digest;
    }

    /// Adds the levels of paragraphs.
    pub fn add_para_levels(&mut self, levels: &[ParaLevel]) {
        for level in levels {
            self.add_level(Some(level.level()));
        }
    }

    /// Adds code points.
    pub fn add_codes(&mut self, codes: &[u32]) {
        for code in codes {
            self.add(u64::from(*code));
        }
    }

    /// Adds bytes, eight at a time.
    pub fn add_bytes(&mut self, bytes: &[u8]) {
        let (words, rest) = bytes.as_chunks::<8>();
        let mut digest = *self;
        for word in words {
            digest.add(u64::from_le_bytes(*word));
        }
        *self = digest;
        for byte in rest {
            self.add(u64::from(*byte));
        }
    }

    /// Returns the amount that was added, and the sums.
    pub fn parts(&self) -> (u64, u64, u64) {
        (self.count, self.first, self.second)
    }
}
