//! The hash of the number of an edge.

ghost use Rattle.fb_obstacles.specs.EdgeHashes.{hash_after};

use std::hash::{BuildHasher, Hasher};

/// Hashes the number of an edge so that eight edges that follow one another are in one group of a table, each with a tag of
/// its own: looking them up reads one line of memory, and compares one key.
#[derive(Clone, Copy)]
pub struct EdgeHasher {
    state: u64,
}

impl EdgeHasher {
    /// A hasher that has read nothing.
    pub fn new() -> EdgeHasher {
        EdgeHasher { state: 0 }
    }
}

impl Hasher for EdgeHasher {
    ghost write = { λ h bytes. record { state = hash_after h.state bytes } };

    ghost finish = { λ h. h.state };

    #[inline(always)]
    fn finish(&self) -> u64 {
        self.state
    }

    #[inline(always)]
    fn write(&mut self, bytes: &[u8]) {
        if bytes.len() == 4 {
            let number = u32::from_le_bytes([bytes[0], bytes[1], bytes[2], bytes[3]]);
            self.state = u64::from(number / 8 + (number % 8 + 1) * 0x100_0000);
        }
    }
}

impl BuildHasher for EdgeHasher {
    type Hasher = EdgeHasher;

    ghost build_hasher = { λ h. h };

    #[inline(always)]
    fn build_hasher(&self) -> EdgeHasher {
        *self
    }
}
