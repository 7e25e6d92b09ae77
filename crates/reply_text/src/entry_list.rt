ghost use Rattle.std.specs.Prelude.{◌≡◌, ◌≢◌, ◌≤◌, ◌<◌, ◌==◌, [], length};
ghost use Rattle.std.specs.List.{All};

use rate_types::limits::MOST_ENTRIES;
use rate_types::{Entries, Entry};
use std::alloc::Global;
use std::marker::Model;

/// At most 32 entries, none of them with an empty key.
#[derive(Drop)]
pub struct EntryList {
    items: Vec<Entry>,
}

impl Model for EntryList {
    ghost use Rattle.std.specs.Prelude.{◌≢◌, ◌≤◌, List, [], length};
    ghost use Rattle.std.specs.List.{All};
    ghost use Rattle.rate_types.specs.declared.limits.TheConstants.{MOST_ENTRIES};
    ghost use Rattle.rate_types.specs.declared.entries.Entry.{Entry};

    ghost Value = { List Entry };

    ghost view = { λ e. e.items.items };

    ghost invariant = { λ e. (length e.items.items ≤ MOST_ENTRIES) × All (λ x. x.key ≢ []) e.items.items };
}

impl EntryList {
    /// No entries.
    pub fn none(alloc: Global) -> EntryList
        ensures { result ≡ [] }
    {
        EntryList {
            items: Vec::new(alloc),
        }
    }

    /// These entries.
    pub fn of(items: Vec<Entry>) -> EntryList
        requires few { length items.items ≤ MOST_ENTRIES }
        requires keyed { All (λ e. e.key ≢ []) items.items }
        ensures { result ≡ items.items }
    {
        EntryList { items }
    }

    /// There is none.
    pub fn is_empty(&self) -> bool
        ensures { result ≡ (length self.now == 0) }
    {
        self.items.is_empty()
    }

    /// The entries of a descriptor.
    #[tactic(auto, using(crate::proofs::Lawful::entries_lawful))]
    pub fn into_entries(self) -> Entries
        requires { 0 < length self }
        ensures { result ≡ self }
    {
        match Entries::build(self.items) {
            Ok(entries) => entries,
            Err(_) => unreachable!(),
        }
    }
}
