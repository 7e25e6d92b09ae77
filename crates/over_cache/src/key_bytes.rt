// Keys in the map: their bytes.
ghost use Rattle.std.specs.Prelude.{◌≡◌, ◌≤◌, length, IfOk, IsOk};
ghost use Rattle.over_cache.specs.declared.key_bytes.TheConstants.{SHORT};

use rate_types::OutOfMemory;
use smallvec::SmallVec;
use std::alloc::Global;
use std::collections::hash_map::Equivalent;
use std::hash::{Hash, Hasher};

/// The most bytes of a key that stand in the value itself.
pub(crate) const SHORT: usize = 64;

/// The bytes of a key that is known. Those of a short one stand inline, so that they take no memory of their own.
#[derive(Drop)]
pub(crate) struct KeyBytes {
    bytes: SmallVec<u8, SHORT>,
}

impl KeyBytes {
    /// A copy of these bytes.
    pub(crate) fn of(alloc: Global, bytes: &[u8]) -> Result<KeyBytes, OutOfMemory>
        ensures same { IfOk result (λ k. k.bytes.items ≡ bytes.now) }
        ensures short { length bytes.now ≤ SHORT → IsOk result }
    {
        let bytes = SmallVec::from_slice(alloc, bytes)?;
        Ok(KeyBytes { bytes })
    }

    /// Whether the last byte isn't that of these bytes, so that they are another key.
    pub(crate) fn ends_otherwise(&self, bytes: &[u8]) -> bool {
        self.bytes.as_slice().last() != bytes.last()
    }
}

impl PartialEq for KeyBytes {
    ghost use Rattle.over_cache.specs.Entries.{is_key};
    ghost use Rattle.std.specs.Cmp.{on_per, partial_equiv_from_equiv};
    ghost use Rattle.std.specs.Cmp.Lexicographic.{nat_list_eq_equiv};

    ghost eq = { λ a b. is_key a.bytes.items b.bytes.items };

    ghost laws = { on_per (λ k. k.bytes.items) (partial_equiv_from_equiv nat_list_eq_equiv) };

    fn eq(&self, other: &KeyBytes) -> bool {
        self.bytes.as_slice() == other.bytes.as_slice()
    }
}

impl Eq for KeyBytes {
    ghost use Rattle.std.specs.Cmp.{on_equiv};
    ghost use Rattle.std.specs.Cmp.Lexicographic.{nat_list_eq_equiv};

    ghost laws = { on_equiv (λ k. k.bytes.items) nat_list_eq_equiv };
}

impl Hash for KeyBytes {
    ghost use Rattle.over_cache.specs.Hashed.{key_writes, same_writes};

    ghost hash_input = { λ k. key_writes k.bytes.items };

    ghost respects_eq = { same_writes (λ k. k.bytes.items) (λ k. k.bytes.items) };

    fn hash<H: Hasher>(&self, state: &mut H) {
        state.write(self.bytes.as_slice());
    }
}

/// The bytes of a key that is looked up.
#[derive(Clone, Copy)]
pub(crate) struct SoughtBytes<'a> {
    pub bytes: &'a [u8],
}

impl PartialEq for SoughtBytes<'_> {
    ghost use Rattle.over_cache.specs.Entries.{is_key};
    ghost use Rattle.std.specs.Cmp.{on_per, partial_equiv_from_equiv};
    ghost use Rattle.std.specs.Cmp.Lexicographic.{nat_list_eq_equiv};

    ghost eq = { λ a b. is_key a.bytes.now b.bytes.now };

    ghost laws = { on_per (λ k. k.bytes.now) (partial_equiv_from_equiv nat_list_eq_equiv) };

    fn eq(&self, other: &Self) -> bool {
        self.bytes == other.bytes
    }
}

impl Eq for SoughtBytes<'_> {
    ghost use Rattle.std.specs.Cmp.{on_equiv};
    ghost use Rattle.std.specs.Cmp.Lexicographic.{nat_list_eq_equiv};

    ghost laws = { on_equiv (λ k. k.bytes.now) nat_list_eq_equiv };
}

impl Hash for SoughtBytes<'_> {
    ghost use Rattle.over_cache.specs.Hashed.{key_writes, same_writes};

    ghost hash_input = { λ k. key_writes k.bytes.now };

    ghost respects_eq = { same_writes (λ k. k.bytes.now) (λ k. k.bytes.now) };

    fn hash<H: Hasher>(&self, state: &mut H) {
        state.write(self.bytes);
    }
}

impl Equivalent<KeyBytes> for SoughtBytes<'_> {
    ghost use Rattle.over_cache.specs.Entries.{is_key};
    ghost use Rattle.over_cache.specs.Hashed.{same_writes, same_each};

    ghost equivalent = { λ q k. is_key q.bytes.now k.bytes.items };

    ghost respects_hash = { same_writes (λ q. q.bytes.now) (λ k. k.bytes.items) };

    ghost respects_eq = { same_each (λ q. q.bytes.now) (λ k. k.bytes.items) };

    fn equivalent(&self, key: &KeyBytes) -> bool {
        self.bytes == key.bytes.as_slice()
    }
}
