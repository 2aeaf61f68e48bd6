//! Seeds of hashes.
ghost use Rattle.svn_text.specs.SeededHasher.{hasher_of};

use crate::seeded_hasher::SeededHasher;
use std::hash::BuildHasher;
use std::random::RandomSource;

/// The two words with which the hashes begin by which a table finds its elements. No answer of a table depends on them,
/// but the time does: whoever knows the words can choose elements that all have one hash.
#[derive(Clone, Copy)]
pub struct Seed {
    state: u64,
    factor: u64,
}

impl Seed {
    /// Words that everybody knows: the first digits of π and of the golden ratio.
    pub fn fixed() -> Self {
        Seed {
            state: 0x243f_6a88_85a3_08d3,
            factor: 0x9e37_79b9_7f4a_7c15,
        }
    }

    /// Words that nobody can know beforehand, or the fixed ones where the system gives no random bytes.
    pub fn random(rt: &impl RandomSource) -> Self {
        let mut words = [0; 16];
        if rt.fill_bytes(&mut words).is_err() {
            return Seed::fixed();
        }
        let both = u128::from_le_bytes(words);
        Seed {
            state: (both & 0xFFFF_FFFF_FFFF_FFFF) as u64,
            factor: (both >> 64) as u64,
        }
    }
}

impl BuildHasher for Seed {
    type Hasher = SeededHasher;

    ghost build_hasher = { λ seed. hasher_of seed.state seed.factor };

    fn build_hasher(&self) -> SeededHasher {
        SeededHasher {
            state: self.state,
            factor: self.factor,
        }
    }
}
