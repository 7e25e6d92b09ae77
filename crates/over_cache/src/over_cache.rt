ghost use Rattle.std.specs.Prelude.{◌≡◌, ℕ, List, [], ◌∷◌, false, length, Some, is_some, IfOk, IfSome, IsSome, IsOk, OnOk, OnErr};
ghost use Rattle.std.specs.Bool.{IsTrue};
ghost use Rattle.over_cache.specs.Entries.{is_key, known_of, asked, noted, AreEntries};
ghost use Rattle.over_cache.specs.declared.known.Known.{Known as KnownValue};
ghost use Rattle.over_cache.specs.Uses.{Use, Asked, Noted, Remembers};

use crate::Known;
use crate::key_bytes::{KeyBytes, SHORT, SoughtBytes};
use counter_cells::Spot;
use keyed_hash::KeyedState;
use lru::LruCache;
use rate_types::OutOfMemory;
use std::alloc::Global;
use std::collections::hash_map::Equivalent;
use std::hash::RandomState;
use std::marker::Model;
use std::num::NonZeroUsize;

/// How many keys are known at most.
pub const MOST_KNOWN: usize = 1_024;

/// What a pass knows of the counters that it used last. Contracts see it as `Entries`: the keys with what is known of them,
/// the key used last first.
#[derive(Drop)]
pub struct OverCache {
    alloc: Global,
    keys: LruCache<KeyBytes, Known, KeyedState>,
}

impl Model for OverCache {
    ghost use Rattle.std.specs.Prelude.{◌≡◌, map};
    ghost use Rattle.over_cache.specs.Entries.{Entries};
    ghost use Rattle.over_cache.specs.declared.over_cache.TheConstants.{MOST_KNOWN};

    ghost Value = { Entries };

    ghost view = { λ c. map (λ e. (e.0.bytes.items, e.1)) c.keys.entries };

    ghost invariant = { λ c. c.keys.cap ≡ MOST_KNOWN };
}

impl OverCache {
    /// Nothing is known. The hashes of the keys go by `seed`, so that nobody can choose keys that collide.
    pub fn make(alloc: Global, seed: RandomState) -> Result<OverCache, OutOfMemory>
        ensures none { IfOk result (λ c. c ≡ []) }
        ensures remembers { IfOk result (λ c. Remembers [] c) }
    {
        let most = NonZeroUsize::new(MOST_KNOWN).unwrap();
        let keys = LruCache::with_hasher(alloc, most, KeyedState::of(&seed))?;
        Ok(OverCache { alloc, keys })
    }

    /// How many keys are known: at most 1,024, which differ.
    pub fn len(&self) -> usize
        ensures len { result ≡ length self.now }
        ensures entries { AreEntries self.now }
    {
        self.keys.len()
    }

    /// What is known of the key, which is then the one used last. It takes no memory.
    pub fn known(&mut self, key: &[u8]) -> Option<Known>
        ensures known { result ≡ known_of key.now self.old }
        ensures order { self.new ≡ asked key.now self.old }
        ensures remembers { (uses : List Use) → Remembers uses self.old → Remembers (Asked key.now ∷ uses) self.new }
    {
        if let Some(known) = self.used_last(key) {
            return Some(known);
        }
        self.keys.get(SoughtBytes { bytes: key }).copied()
    }

    // What is known of the key, where it is the one used last: it is compared, and needs no hash. Keys begin alike and differ at their ends, so
    // most that differ cost a look at one byte.
    fn used_last(&self, key: &[u8]) -> Option<Known>
        ensures known { IfSome result (λ known. known_of key.now self.now ≡ Some known) }
        ensures order { IsSome result → asked key.now self.now ≡ self.now }
    {
        let (last, known) = self.keys.peek_mru()?;
        if last.ends_otherwise(key) {
            return None;
        }
        if (SoughtBytes { bytes: key }).equivalent(last) {
            Some(*known)
        } else {
            None
        }
    }

    /// Notes a spot and a value of a key as [`OverCache::note`] does, where the key is known. Else nothing changes. It takes no
    /// memory.
    pub fn note_known(&mut self, key: &[u8], spot: Spot, seen: u64) -> bool
        ensures known { result ≡ is_some (known_of key.now self.old) }
        ensures noted { IsTrue result → self.new ≡ noted key.now spot seen self.old }
        ensures others { (other : List ℕ) → is_key other key.now ≡ false → known_of other self.new ≡ known_of other self.old }
        ensures remembers { IsTrue result
            → (uses : List Use) → Remembers uses self.old → Remembers (Noted key.now spot seen ∷ uses) self.new }
        ensures unknown { result ≡ false → self.new ≡ self.old }
    {
        let _number = self.keys.len();
        let Some(known) = self.keys.get_mut(SoughtBytes { bytes: key }) else {
            return false;
        };
        *known = known.noted_over(spot, seen);
        true
    }

    /// Notes the spot of the key's counter and a value that was seen there: the greater value is known for an equal claim,
    /// else the new pair. The key is then the one used last, and of more than 1,024 the one used first goes.
    ///
    /// It takes no memory where the key is known. A refused note changes nothing.
    pub fn note(&mut self, key: &[u8], spot: Spot, seen: u64) -> Result<(), OutOfMemory>
        ensures noted { OnOk result (self.new ≡ noted key.now spot seen self.old) }
        ensures others { OnOk result ((other : List ℕ) (known : KnownValue) → is_key other key.now ≡ false
            → known_of other self.new ≡ Some known → known_of other self.old ≡ Some known) }
        ensures remembers { OnOk result
            ((uses : List Use) → Remembers uses self.old → Remembers (Noted key.now spot seen ∷ uses) self.new) }
        ensures refused { OnErr result (self.new ≡ self.old) }
        ensures known { IsSome (known_of key.now self.old) → IsOk result }
    {
        // The bytes of a long key take memory of their own, which a known key must not.
        if key.len() > SHORT && self.note_known(key, spot, seen) {
            return Ok(());
        }
        let _number = self.keys.len();
        let key = KeyBytes::of(self.alloc, key)?;
        let noted = self.keys.get_or_insert_mut(
            key,
            || -> Known
                ensures { result ≡ record { spot = spot; seen = seen } }
            { Known { spot, seen } },
        )?;
        *noted = noted.noted_over(spot, seen);
        Ok(())
    }
}
