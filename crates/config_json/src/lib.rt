//! Configuration files: what they spell, and how a configuration is printed.
//!
//! A file is the JSON of an envoyproxy/ratelimit configuration. `read_config` answers what the files spell, or their
//! first fault with its file, its place and its number (`specs/Reading.antt`); `specs/Trees.antt` and `specs/Rules.antt`
//! say what each object of a file says, field by field, both spellings of each. `print_config` prints a configuration,
//! one text a tree, in one canonical form (`specs/Printed.antt`); reading these texts gives the same configuration.
//!
//! Limits: those of `proto_json` and of a lawful configuration; a rule replaces at most 32 others.
#![tactic(auto)]

mod field_names;
mod file;
mod policy;
mod print;
mod print_tree;
mod read;
mod read_node;
mod read_replaced;
mod replaced;
mod rule;
mod unless_empty;

pub use file::tree_of;
pub use print_tree::print_config;
pub use read::read_config;
use rule::Rule;
