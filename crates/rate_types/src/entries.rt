ghost use Rattle.std.proofs.Common.{rules};
ghost use Rattle.std.specs.Prelude.{◌≡◌, ◌<◌, ◌≤◌, ◌==◌, [], ◌∷◌, Ok, IfOk, IfSome, position, length};
ghost use Rattle.std.specs.Cmp.{partial_order_from_own_ties};
ghost use Rattle.std.specs.Cmp.Lexicographic.{lists_ties};
ghost use Rattle.std.specs.Cmp.Rules.{comparing};
ghost use Rattle.std.specs.Ordering.{as_partial_cmp};
ghost use Rattle.rate_types.specs.Counters.{entry_cmp, same_entry, entries_cmp, same_entries};
ghost use Rattle.rate_types.specs.Entries.{held_entries, entries_of};
ghost use Rattle.rate_types.specs.Hashes.{entry_writes, entry_alike, entries_writes, entries_alike};

use crate::limits::MOST_ENTRIES;
use crate::{OutOfMemory, Text};
use std::alloc::{AllocError, Global};
use std::cmp::Ordering;
use std::hash::{Hash, Hasher};
use std::marker::Model;
use std::slice;
use thiserror::Error;

/// A key with its value: one entry of a descriptor.
#[derive(Clone, Drop)]
pub struct Entry {
    pub key: Text,
    pub value: Text,
}

impl Entry {
    /// An equal entry.
    pub fn copy(&self) -> Result<Entry, OutOfMemory>
        ensures { IfOk result (λ e. e ≡ self.now) }
    {
        Ok(self.clone()?)
    }
}

impl PartialEq for Entry {
    ghost eq = { same_entry };

    ghost laws = { Prim.search (comparing, lists_ties, rules) depth 20 };

    fn eq(&self, other: &Entry) -> bool {
        self.key == other.key && self.value == other.value
    }
}

impl Eq for Entry {
    ghost laws = { Prim.search (comparing, lists_ties, rules) depth 20 };
}

impl Ord for Entry {
    ghost cmp = { entry_cmp };

    ghost total = { Prim.search (comparing, lists_ties, rules) depth 20 };

    ghost matches_partial_cmp = { Prim.search (comparing, lists_ties, rules) depth 20 };

    ghost matches_eq = { Prim.search (comparing, lists_ties, rules) depth 20 };

    fn cmp(&self, other: &Entry) -> Ordering {
        self.key.cmp(&other.key).then(self.value.cmp(&other.value))
    }
}

impl PartialOrd for Entry {
    ghost partial_cmp = { as_partial_cmp entry_cmp };

    ghost laws = { partial_order_from_own_ties
        (Prim.search (comparing, lists_ties, rules) depth 20)
        (Prim.search (comparing, lists_ties, rules) depth 20) };

    fn partial_cmp(&self, other: &Entry) -> Option<Ordering> {
        Some(self.cmp(other))
    }
}

/// Where the entries of a list lie: one entry in the value itself, so that it takes no memory of its own, or several apart.
#[derive(Drop)]
enum HeldEntries {
    One(Entry),
    Several(Vec<Entry>),
}

/// The entries of a descriptor: 1 to 32, in order, each with a key that isn't empty.
#[derive(Drop)]
pub struct Entries {
    held: HeldEntries,
}

impl Model for Entries {
    ghost use Rattle.std.specs.Prelude.{◌≡◌, ℕ, ◌≤◌, List, Ok, length};
    ghost use Rattle.rate_types.specs.declared.entries.Entry.{Entry};
    ghost use Rattle.rate_types.specs.Entries.{held_entries, entries_of};

    ghost Value = { List Entry };

    ghost view = { λ e. held_entries e.held };

    ghost invariant = { λ e. entries_of (held_entries e.held) ≡ Ok (held_entries e.held) };
}

/// Why a list isn't the entries of a descriptor. They are tried in this order.
#[derive(Clone, Copy, Debug, PartialEq, Eq, Error)]
pub enum EntriesFault {
    /// The list is empty.
    #[error("no entry")]
    NoEntries,
    /// The list has `count` entries, more than 32.
    #[error("{count} entries, more than {MOST_ENTRIES}")]
    TooMany { count: u64 },
    /// The entry at `index`, from 0, is the first with an empty key.
    #[error("entry {index} has an empty key")]
    EmptyKey { index: u32 },
}

impl Entries {
    /// The entries of this list. It takes no memory.
    #[tactic(auto, unfolding(crate::specs::Entries::entries_of))]
    pub fn build(items: Vec<Entry>) -> Result<Entries, EntriesFault>
        ensures { result ≡ entries_of items.items }
    {
        if items.is_empty() {
            return Err(EntriesFault::NoEntries);
        }
        if items.len() > MOST_ENTRIES {
            return Err(EntriesFault::TooMany {
                count: items.len() as u64,
            });
        }
        match first_empty_key(&items) {
            Some(index) => Err(EntriesFault::EmptyKey {
                index: index as u32,
            }),
            None => Ok(Entries {
                held: held_of(items),
            }),
        }
    }

    /// The entries of a list of this one. It takes no memory.
    #[inline(always)]
    #[tactic(auto, unfolding(crate::specs::Entries::entries_of))]
    pub fn one(entry: Entry) -> Result<Entries, EntriesFault>
        ensures { result ≡ entries_of (entry ∷ []) }
    {
        if entry.key.as_str().is_empty() {
            return Err(EntriesFault::EmptyKey { index: 0 });
        }
        Ok(Entries {
            held: HeldEntries::One(entry),
        })
    }

    /// Equal entries.
    pub fn copy(&self) -> Result<Entries, OutOfMemory>
        ensures { IfOk result (λ e. e ≡ self.now) }
    {
        Ok(self.clone()?)
    }

    /// The entries in order, 1 to 32.
    #[tactic(auto, unfolding(crate::specs::Entries::entries_of))]
    pub fn items(&self) -> &[Entry]
        ensures all { result.now ≡ self.now }
        ensures bounds { (1 ≤ length result.now) × (length result.now ≤ MOST_ENTRIES) }
        ensures lawful { entries_of result.now ≡ Ok result.now }
    {
        match &self.held {
            HeldEntries::One(entry) => slice::from_ref(entry),
            HeldEntries::Several(items) => items,
        }
    }
}

fn held_of(mut items: Vec<Entry>) -> HeldEntries
    ensures { held_entries result ≡ items.items }
{
    if items.len() != 1 {
        return HeldEntries::Several(items);
    }
    match items.pop() {
        Some(entry) => HeldEntries::One(entry),
        None => HeldEntries::Several(items),
    }
}

fn first_empty_key(items: &[Entry]) -> Option<usize>
    ensures place { result ≡ position (λ e. length e.key == 0) items.now }
    ensures within { IfSome result (λ index. index < length items.now) }
{
    items.iter().position(|entry| entry.key.as_str().is_empty())
}

impl Clone for Entries {
    ghost is_clone = { λ entries copy. copy ≡ entries };

    fn clone(&self) -> Result<Entries, AllocError> {
        let held = match &self.held {
            HeldEntries::One(entry) => HeldEntries::One(entry.clone()?),
            HeldEntries::Several(items) => HeldEntries::Several(items.clone()?),
        };
        Ok(Entries { held })
    }
}

impl PartialEq for Entries {
    ghost eq = { same_entries };

    ghost laws = { Prim.search (comparing, lists_ties, rules) depth 20 };

    fn eq(&self, other: &Entries) -> bool {
        self.items() == other.items()
    }
}

impl Eq for Entries {
    ghost laws = { Prim.search (comparing, lists_ties, rules) depth 20 };
}

impl Ord for Entries {
    ghost cmp = { entries_cmp };

    ghost total = { Prim.search (comparing, lists_ties, rules) depth 20 };

    ghost matches_partial_cmp = { Prim.search (comparing, lists_ties, rules) depth 20 };

    ghost matches_eq = { Prim.search (comparing, lists_ties, rules) depth 20 };

    fn cmp(&self, other: &Entries) -> Ordering {
        self.items().cmp(other.items())
    }
}

impl PartialOrd for Entries {
    ghost partial_cmp = { as_partial_cmp entries_cmp };

    ghost laws = { partial_order_from_own_ties
        (Prim.search (comparing, lists_ties, rules) depth 20)
        (Prim.search (comparing, lists_ties, rules) depth 20) };

    fn partial_cmp(&self, other: &Entries) -> Option<Ordering> {
        Some(self.cmp(other))
    }
}

impl Hash for Entry {
    ghost hash_input = { entry_writes };

    ghost respects_eq = { entry_alike.fed };

    fn hash<H: Hasher>(&self, state: &mut H) {
        self.key.hash(state);
        self.value.hash(state);
    }
}

impl Hash for Entries {
    ghost hash_input = { entries_writes };

    ghost respects_eq = { entries_alike.fed };

    fn hash<H: Hasher>(&self, state: &mut H) {
        self.items().hash(state);
    }
}
