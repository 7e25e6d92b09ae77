ghost use Rattle.std.specs.Prelude.{◌≡◌};
ghost use Rattle.keyed_hash.specs.KeyedHash.{hasher_of, secrets_of};

use crate::KeyedHasher;
use std::hash::{BuildHasher, RandomState};

/// The secrets by which keys are hashed.
#[derive(Clone, Copy)]
pub struct KeyedState {
    first: u64,
    factor: u64,
}

impl KeyedState {
    /// Those of a seed. The factor is odd, so that no bit of a word is lost when it is multiplied.
    pub fn of(seed: &RandomState) -> KeyedState
        ensures { result ≡ secrets_of seed.now }
    {
        KeyedState {
            first: seed.hash_one(0u64),
            factor: seed.hash_one(1u64) | 1,
        }
    }
}

impl BuildHasher for KeyedState {
    type Hasher = KeyedHasher;

    ghost build_hasher = { hasher_of };

    fn build_hasher(&self) -> KeyedHasher {
        KeyedHasher::of(self.first, self.factor)
    }
}
