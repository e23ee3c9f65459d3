//! How maps hash their keys.
use std::hash::{BuildHasher, FoldHasher, Hasher};

/// Hashing by a number. Who doesn't know it can't choose keys that meet in a map.
#[derive(Clone, Copy)]
pub struct Hashing {
    begun: FoldHasher,
}

impl Hashing {
    /// By this number.
    pub fn by(secret: u64) -> Hashing {
        let mut begun = FoldHasher::default();
        begun.write_u64(secret);
        Hashing { begun }
    }
}

impl BuildHasher for Hashing {
    type Hasher = FoldHasher;

    ghost build_hasher = { λ hashing. hashing.begun };

    #[inline(always)]
    fn build_hasher(&self) -> FoldHasher {
        self.begun
    }
}
