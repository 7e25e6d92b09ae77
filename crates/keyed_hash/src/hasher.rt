ghost use Rattle.std.specs.Prelude.{◌≡◌};
ghost use Rattle.keyed_hash.specs.KeyedHash.{folded, mixed, written, finished};

use crate::word_at;
use std::hash::Hasher;

/// Hashes one key.
#[derive(Clone, Copy)]
pub struct KeyedHasher {
    state: u64,
    factor: u64,
}

// The halves of a product of 128 bits, joined.
fn folded(a: u64, b: u64) -> u64
    ensures { result ≡ folded a b }
{
    let product = a as u128 * b as u128;
    (product & 0xFFFF_FFFF_FFFF_FFFF) as u64 ^ (product >> 64) as u64
}

impl KeyedHasher {
    /// The hasher before the first word.
    #[inline(always)]
    pub(crate) fn of(state: u64, factor: u64) -> KeyedHasher
        ensures { result ≡ record { state = state; factor = factor } }
    {
        KeyedHasher { state, factor }
    }

    #[inline(always)]
    fn mix(&mut self, word: u64)
        ensures { self.new ≡ mixed self.old word }
    {
        self.state = folded(self.state ^ word, self.factor);
    }
}

impl Hasher for KeyedHasher {
    ghost write = { written };

    ghost finish = { finished };

    // Without this product, keys that differ in a digit at their ends would fill a table unevenly by some secrets.
    fn finish(&self) -> u64 {
        folded(self.state, self.factor)
    }

    // The last eight bytes are a word of their own, some of which may have stood in the word before. Less than eight bytes are hashed one by
    // one.
    #[inline(always)]
    fn write(&mut self, bytes: &[u8]) {
        let len = bytes.len();
        if len < 8 {
            'bytes: for byte in bytes {
                self.mix(u64::from(*byte));
            }
            return;
        }
        let mut at = 0;
        'words: while len - at > 8 {
            self.mix(word_at(bytes, at));
            at += 8;
        }
        self.mix(word_at(bytes, len - 8));
    }
}
