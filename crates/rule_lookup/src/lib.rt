//! Which rule of a configuration a descriptor has.
//!
//! `Index::make` indexes a configuration, each level of each tree by itself: the nodes with a value by key and value, the
//! wildcards in the file's order, the nodes without a value by key. `lookup` follows a descriptor's entries, one level an
//! entry, with one look-up for key and value, one for the key alone and the wildcards of the level between them; it takes
//! no memory, and its time doesn't grow with the number of nodes. A level of one node has no maps: its node lies in the list of
//! levels itself.
//!
//! The promise of `lookup` is the rule of `specs/Rule.antt`, whatever the configuration: contracts see an `Index` as its
//! configuration's list of trees. `Index::replaces` says whether a rule names another as one that it replaces, and `find_rules`
//! what each descriptor of a request finds, which is nothing where the rule of another one replaces its own
//! (`specs/Replaces.antt`).
//!
//! The look-ups hash with a fixed seed: what lies in a table are the configuration's names, and names that a client
//! chooses are only looked up.
#![tactic(auto)]

mod found;
mod index;
mod level;
mod levels;
mod names;
mod node_maps;
mod put;
mod reached;
mod roots;
mod rules;
mod wildcards;

pub use found::Found;
pub use index::{Index, lookup};
pub use rules::{Rules, find_rules, find_rules_into};
