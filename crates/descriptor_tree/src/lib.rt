//! Configurations: for each domain a tree of nodes.
//!
//! `Config::build` checks the trees and makes a `Config` of them, or refuses them with their first fault, its number and
//! its place. A built `Config` is lawful by its type: domains and siblings differ, nothing is empty that has to be there,
//! and there are at most 32 levels and 65,536 nodes (`specs/Config.antt`). Checking takes about linear time.
//!
//! `specs/Trees.antt` says what the values here stand for, `specs/Nodes.antt` lists the nodes of a configuration in
//! preorder, which gives each node its number, and `specs/Faults.antt` lists all faults in order.
#![tactic(auto)]

mod check;
mod config;
mod fault;
mod node;
mod policy;
mod siblings;
mod texts;
mod tree;

pub use config::Config;
pub use fault::ConfigFault;
pub use node::{Forest, Node};
pub use policy::Policy;
pub use texts::Texts;
pub use tree::Tree;
