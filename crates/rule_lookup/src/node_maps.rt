ghost use Rattle.std.specs.Prelude.{◌≡◌, None, option_map, find, OnOk};
ghost use Rattle.rate_types.specs.Counters.{same_entry};
ghost use Rattle.rate_types.specs.declared.entries.Entry.{Entry};
ghost use Rattle.rule_lookup.specs.Rule.{is_wildcard, covers};
ghost use Rattle.rule_lookup.specs.Level.{fits, among, reached_by, Puts};

use crate::put::put;
use crate::reached::Reached;
use crate::wildcards::{covers, is_wildcard};
use indexmap::IndexMap;
use rate_types::{Entry, OutOfMemory, Text};
use std::alloc::Global;

/// A node whose value is a wildcard.
#[derive(Drop)]
pub struct Wildcard {
    entry: Entry,
    reached: Reached,
}

/// The nodes of a level with several, in three parts: those with a value that is no wildcard, the wildcards in the file's order, and
/// those without a value.
#[derive(Drop)]
pub struct NodeMaps {
    valued: IndexMap<Entry, Reached>,
    wildcards: Vec<Wildcard>,
    alone: IndexMap<Text, Reached>,
}

fn fits(wildcard: &Wildcard, entry: &Entry) -> bool
    ensures { result ≡ fits entry.now wildcard.now }
{
    wildcard.entry.key == entry.key && covers(&wildcard.entry.value, &entry.value)
}

impl NodeMaps {
    /// No node.
    pub fn new(alloc: Global) -> NodeMaps
        ensures { (entry : Entry) → ((among result).equal entry ≡ None) × ((among result).wildcard entry ≡ None)
            × ((among result).alone entry ≡ None) }
    {
        NodeMaps {
            valued: IndexMap::new(alloc),
            wildcards: Vec::new(alloc),
            alone: IndexMap::new(alloc),
        }
    }

    /// Puts a node behind those that are there.
    pub fn put(
        &mut self,
        key: Text,
        value: Option<Text>,
        reached: Reached,
    ) -> Result<(), OutOfMemory>
        ensures { OnOk result (Puts key value reached (among self.old) (among self.new)) }
    {
        let Some(value) = value else {
            return put(&mut self.alone, key, reached);
        };
        let entry = Entry { key, value };
        if !is_wildcard(&entry.value) {
            return put(&mut self.valued, entry, reached);
        }
        self.wildcards.push(Wildcard { entry, reached })?;
        Ok(())
    }

    // By a node with the entry's key and value.
    fn equal(&self, entry: &Entry) -> Option<Reached>
        ensures { result ≡ (among self.now).equal entry.now }
    {
        if !is_wildcard(&entry.value) {
            return self.valued.get(entry).copied();
        }
        self.equal_wildcard(entry)
    }

    fn equal_wildcard(&self, entry: &Entry) -> Option<Reached>
        ensures { result ≡ option_map (λ w. w.reached) (find (λ w. same_entry w.entry entry.now) self.now.wildcards.items) }
    {
        match self.wildcards.iter().find(|w| w.entry == *entry) {
            Some(wildcard) => Some(wildcard.reached),
            None => None,
        }
    }

    // By the first wildcard that fits.
    fn wildcard(&self, entry: &Entry) -> Option<Reached>
        ensures { result ≡ (among self.now).wildcard entry.now }
    {
        match self.wildcards.iter().find(|w| fits(w, entry)) {
            Some(wildcard) => Some(wildcard.reached),
            None => None,
        }
    }

    /// What is reached by the matching node of an entry.
    pub fn reached(&self, entry: &Entry) -> Option<Reached>
        ensures { result ≡ reached_by (among self.now) entry.now }
    {
        if let Some(reached) = self.equal(entry) {
            return Some(reached);
        }
        if let Some(reached) = self.wildcard(entry) {
            return Some(reached);
        }
        self.alone.get(&entry.key).copied()
    }
}
