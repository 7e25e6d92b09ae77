// The labels of the rules of a configuration.
ghost use Rattle.std.specs.Prelude.{◌≡◌, ◌++◌, ◌∷◌, [], IfOk, OnOk, length, map, string_bytes};
ghost use Rattle.descriptor_tree.specs.Trees.{node_view, forest_view, fields_of, below_of, tree_view};
ghost use Rattle.descriptor_tree.specs.Nodes.{config_nodes};
ghost use Rattle.descriptor_tree.specs.Views.{config_view};
ghost use Rattle.prometheus_text.specs.Paths.{own_part, AreInOrder};
ghost use Rattle.prometheus_text.specs.Labels as spec;
ghost use Rattle.prometheus_text.specs.Walk.{level_labels, branch_labels, tree_labels};

use descriptor_tree::{Config, Forest, Node, Tree};
use rate_types::{OutOfMemory, Text, Word};
use std::alloc::Global;

/// The labels of a rule, by which its lines are told from those of other rules.
#[derive(Drop)]
pub struct Labels {
    /// The domain.
    pub domain: Text,
    /// The keys and values of the nodes from the top down to the rule's own, as `key_value.key_value`; where a node has no value, its key
    /// alone.
    pub path: Word,
}

// A node's own part of its path, behind what stands before it.
fn path_text(alloc: Global, before: &str, node: &Node) -> Result<String, OutOfMemory>
    ensures { IfOk result (λ path. string_bytes path ≡ before.now ++ own_part (fields_of (node_view node.now))) }
{
    let mut path = String::from_str(alloc, before)?;
    path.push_str(node.key.as_str())?;
    if let Some(value) = &node.value {
        path.push_str("_")?;
        path.push_str(value.as_str())?;
    }
    Ok(path)
}

// What stands before the paths of the nodes below a node with this path.
fn before_below(alloc: Global, path: &str) -> Result<String, OutOfMemory>
    ensures { IfOk result (λ before. string_bytes before ≡ path.now ++ 46 ∷ []) }
{
    let mut before = String::from_str(alloc, path)?;
    before.push_str(".")?;
    Ok(before)
}

// The nodes below a node.
fn below_of(node: &Node) -> &Forest
    ensures { forest_view result.now ≡ below_of (node_view node.now) }
{
    &node.below
}

// Adds the labels of the nodes of a level and of those below them. This stands before the paths of all.
#[cycle(add)]
fn add_level(
    alloc: Global,
    labels: &mut Vec<Labels>,
    domain: &Text,
    before: &str,
    forest: &Forest,
) -> Result<(), OutOfMemory>
    ensures { OnOk result (labels.new.items ≡ labels.old.items ++ level_labels domain.now before.now (forest_view forest.now)) }
{
    let nodes = forest.items();
    'nodes: for index in 0..nodes.len() {
        add_node(alloc, labels, domain, before, &nodes[index])?;
    }
    Ok(())
}

// Adds the labels of a node and of those below it.
#[cycle(add)]
fn add_node(
    alloc: Global,
    labels: &mut Vec<Labels>,
    domain: &Text,
    before: &str,
    node: &Node,
) -> Result<(), OutOfMemory>
    ensures { OnOk result (labels.new.items ≡ labels.old.items ++ branch_labels domain.now before.now (node_view node.now)) }
{
    let path = path_text(alloc, before, node)?;
    let inner = before_below(alloc, path.as_str())?;
    labels.push(Labels {
        domain: domain.copy()?,
        path: Word::of(path),
    })?;
    add_level(alloc, labels, domain, inner.as_str(), below_of(node))
}

// Adds the labels of the nodes of a tree.
fn add_tree(alloc: Global, labels: &mut Vec<Labels>, tree: &Tree) -> Result<(), OutOfMemory>
    ensures { OnOk result (labels.new.items ≡ labels.old.items ++ tree_labels (tree_view tree.now)) }
{
    add_level(alloc, labels, &tree.domain, "", &tree.forest)
}

/// The labels of all nodes of a configuration, each at the place of its number. One list serves as long as the configuration does.
pub fn labels_of(alloc: Global, config: &Config) -> Result<Vec<Labels>, OutOfMemory>
    ensures labels { IfOk result (λ labels. labels.items ≡ spec.labels_of (config_view config.now)) }
    ensures order { OnOk result (AreInOrder (config_view config.now)) }
    ensures count { IfOk result (λ labels. length labels.items ≡ length (config_nodes (config_view config.now))) }
{
    let trees = config.trees();
    let mut labels = Vec::new(alloc);
    'trees: for index in 0..trees.len() {
        add_tree(alloc, &mut labels, &trees[index])?;
    }
    Ok(labels)
}
