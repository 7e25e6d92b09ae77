ghost use Rattle.std.specs.Prelude.{◌≡◌, map};
ghost use Rattle.descriptor_tree.specs.Trees.{node_view, forest_view, branches_of};

use crate::{Policy, Texts};
use rate_types::Text;

/// A node of a tree: the rule for descriptors that end at its level, and the nodes of the next level.
#[derive(Drop)]
#[cycle(tree)]
pub struct Node {
    /// The entry's key. In a built configuration it isn't empty.
    pub key: Text,
    /// The entry's value; a value that ends in `*` is a wildcard. None stands for any value.
    pub value: Option<Text>,
    /// The rule, where there is one.
    pub policy: Option<Policy>,
    /// The rule's name, by which other rules replace it.
    pub name: Option<Text>,
    /// The names of the rules that this one replaces: at most 32.
    pub replaces: Texts,
    /// Whether the rule is evaluated without effect on the code of a reply (Envoy's `shadow_mode`).
    pub shadow: bool,
    /// The nodes of the next level.
    pub below: Forest,
}

/// A list of nodes of one level: siblings.
#[derive(Drop)]
#[cycle(tree)]
pub struct Forest {
    nodes: Vec<Node>,
}

impl Forest {
    /// The list of these nodes. It takes no memory.
    pub fn of(items: Vec<Node>) -> Forest
        ensures { forest_view result ≡ branches_of (map node_view items.items) }
    {
        Forest { nodes: items }
    }

    /// The nodes.
    pub fn items(&self) -> &[Node]
        ensures { forest_view self.now ≡ branches_of (map node_view result.now) }
    {
        &self.nodes
    }
}
