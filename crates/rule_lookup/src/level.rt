ghost use Rattle.std.specs.Prelude.{◌≡◌, ◌||◌, IfOk, OnOk};
ghost use Rattle.rule_lookup.specs.Rule.{is_this, is_wildcard_for, is_absent};
ghost use Rattle.rule_lookup.specs.Level.{among, finding_of, lone, reached_by, reached_in, Puts};

use crate::node_maps::NodeMaps;
use crate::reached::Reached;
use crate::wildcards::{covers, is_wildcard};
use rate_types::{Entry, OutOfMemory, Text};
use std::alloc::Global;
use std::mem;

/// A node that is alone on its level.
#[derive(Drop)]
pub struct Lone {
    key: Text,
    value: Option<Text>,
    reached: Reached,
}

/// The nodes of a level. One alone lies beside those of the levels around it, so that a look-up through levels of one node
/// reads few lines of memory.
#[derive(Drop)]
pub enum Level {
    Empty,
    One(Lone),
    Several(Box<NodeMaps>),
}

// Whether a node of this value matches an entry of that one: by the same value, a wildcard that covers it, or no value.
fn matches(own: &Option<Text>, value: &Text) -> bool
    ensures { result ≡ is_this own.now value.now || (is_wildcard_for own.now value.now || is_absent own.now) }
{
    match own {
        None => true,
        Some(own) => own == value || (is_wildcard(own) && covers(own, value)),
    }
}

impl Lone {
    fn reached(&self, entry: &Entry) -> Option<Reached>
        ensures { result ≡ reached_by (lone self.now) entry.now }
    {
        if self.key == entry.key && matches(&self.value, &entry.value) {
            Some(self.reached)
        } else {
            None
        }
    }
}

// The maps of two nodes.
fn maps_of(alloc: Global, first: Lone, second: Lone) -> Result<NodeMaps, OutOfMemory>
    ensures { IfOk result (λ maps. Puts second.key second.value second.reached (lone first) (among maps)) }
{
    let mut maps = NodeMaps::new(alloc);
    maps.put(first.key, first.value, first.reached)?;
    maps.put(second.key, second.value, second.reached)?;
    Ok(maps)
}

impl Level {
    /// Puts a node behind those that the level holds. Where memory is wanting, the level is left without nodes.
    pub fn put(
        &mut self,
        alloc: Global,
        key: Text,
        value: Option<Text>,
        reached: Reached,
    ) -> Result<(), OutOfMemory>
        ensures { OnOk result (Puts key value reached (finding_of self.old) (finding_of self.new)) }
    {
        match mem::replace(self, Level::Empty) {
            Level::Empty => *self = Level::One(Lone {
                key,
                value,
                reached,
            }),
            Level::One(first) => {
                let maps = maps_of(
                    alloc,
                    first,
                    Lone {
                        key,
                        value,
                        reached,
                    },
                )?;
                *self = Level::Several(Box::new(alloc, maps)?);
            }
            Level::Several(mut maps) => {
                maps.put(key, value, reached)?;
                *self = Level::Several(maps);
            }
        }
        Ok(())
    }

    /// What is reached by the matching node of an entry.
    pub fn reached(&self, entry: &Entry) -> Option<Reached>
        ensures { result ≡ reached_in self.now entry.now }
    {
        match self {
            Level::Empty => None,
            Level::One(lone) => lone.reached(entry),
            Level::Several(maps) => maps.reached(entry),
        }
    }
}
