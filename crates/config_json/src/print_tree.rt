ghost use Rattle.std.specs.Prelude.{◌≡◌, IfOk, map, option_map, string_bytes, ◌≤◌, OnOk, Ok, Some};
ghost use Rattle.serde_json.specs.View.{view};
ghost use Rattle.serde_json.specs.Written.{compact_text};
ghost use Rattle.descriptor_tree.specs.Trees.{node_view, forest_view, tree_view};
ghost use Rattle.descriptor_tree.specs.Views.{config_view};
ghost use Rattle.serde_json.specs.Data.{depth};
ghost use Rattle.proto_json.specs.Said as said;
ghost use Rattle.descriptor_tree.specs.Config.{AreWellFormed};
ghost use Rattle.config_json.specs.Bounds.{IsBoundedBranch, AreBounded};
ghost use Rattle.config_json.specs.Printed as printed;
ghost use Rattle.config_json.specs.Reading.{reading_of};
ghost use Rattle.config_json.specs.Trees as trees;

use crate::print::{list_there, node_value, tree_value};
use descriptor_tree::{Config, Forest, Node, Tree};
use rate_types::OutOfMemory;
use serde_json::Value;
use std::alloc::Global;

// A node with the nodes below it.
#[cycle(print)]
fn print_node(alloc: Global, node: &Node) -> Result<Value, OutOfMemory>
    ensures value { IfOk result (λ v. view v ≡ printed.branch_json (node_view node.now)) }
    ensures bounded { OnOk result (IsBoundedBranch (node_view node.now)) }
{
    let below = print_forest(alloc, &node.below)?;
    let value = node_value(alloc, node, below)?;
    Ok(value)
}

// The nodes of a level, where there are any.
#[cycle(print)]
fn print_forest(alloc: Global, forest: &Forest) -> Result<Option<Value>, OutOfMemory>
    ensures value { IfOk result (λ o. option_map view o
        ≡ printed.list_there (printed.branches_json (forest_view forest.now))) }
    ensures bounded { OnOk result (AreBounded (forest_view forest.now)) }
{
    let nodes = forest.items();
    let mut items = Vec::new(alloc);
    'nodes: for index in 0..nodes.len() {
        let item = print_node(alloc, &nodes[index])?;
        items.push(item)?;
    }
    Ok(list_there(items))
}

// The text of a tree's file.
#[tactic(auto, using(crate::proofs::Plain::no_float), unfolding(crate::specs::Printed::tree_json))]
fn print_tree(alloc: Global, tree: &Tree) -> Result<String, OutOfMemory>
    requires formed { AreWellFormed (tree_view tree.now).forest }
    requires shallow { depth (printed.tree_json (tree_view tree.now)) ≤ 127 }
    ensures text { IfOk result
        (λ t. string_bytes t ≡ compact_text (printed.tree_json (tree_view tree.now))) }
    ensures reads_back { IfOk result
        (λ t. said.reading_of (trees.file (string_bytes t)) ≡ Ok (Some (tree_view tree.now))) }
{
    let below = print_forest(alloc, &tree.forest)?;
    let value = tree_value(alloc, below, tree.domain.as_str())?;
    let text = value.to_string(alloc)?;
    Ok(text)
}

/// Prints a configuration: one text a tree, in order, in its printed form (`specs/Printed.antt`). Reading these texts
/// gives the same configuration.
pub fn print_config(alloc: Global, config: &Config) -> Result<Vec<String>, OutOfMemory>
    ensures texts { IfOk result (λ texts. map string_bytes texts.items
        ≡ map (λ t. compact_text (printed.tree_json t)) (config_view config.now)) }
    ensures reads_back { IfOk result
        (λ texts. reading_of (map string_bytes texts.items) ≡ Ok (config_view config.now)) }
{
    let trees = config.trees();
    let mut texts = Vec::new(alloc);
    'trees: for index in 0..trees.len() {
        let text = print_tree(alloc, &trees[index])?;
        texts.push(text)?;
    }
    Ok(texts)
}
