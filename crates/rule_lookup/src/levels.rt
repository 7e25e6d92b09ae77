ghost use Rattle.std.specs.Prelude.{◌≡◌, ◌+◌, ◌++◌, ◌≤◌, [], length, IfOk, OnOk};
ghost use Rattle.std.specs.List.{slice_get};
ghost use Rattle.std.specs.Option.{option_and_then};
ghost use Rattle.rate_types.specs.declared.limits.TheConstants.{MOST_NODES};
ghost use Rattle.descriptor_tree.specs.Trees.{node_view, forest_view, fields_of, below_of};
ghost use Rattle.rule_lookup.specs.Rule.{policy_rule};
ghost use Rattle.rule_lookup.specs.Level.{finding_of, reached_in, walk, IsLevel, Extends, PutsNode, branch_names, level_names};

use crate::Found;
use crate::level::Level;
use crate::names::{RuleNames, copy_of};
use crate::reached::Reached;
use descriptor_tree::{Forest, Node, Policy};
use rate_types::{Entry, OutOfMemory, RuleId, Text};
use std::alloc::Global;

/// The levels of an index, each behind those below it, and the names of all nodes in preorder.
#[derive(Drop)]
pub struct Levels {
    pub levels: Vec<Level>,
    pub names: Vec<RuleNames>,
}

// What the node of this number says.
fn rule_at(node: &Node, number: u32) -> Found
    ensures { result ≡ policy_rule number (fields_of (node_view node.now)).shadow (fields_of (node_view node.now)).policy }
{
    let rule = RuleId(number);
    match node.policy {
        None => Found::NoRule,
        Some(Policy::Unlimited) => Found::Unlimited { rule },
        Some(Policy::Limited { limit, unit }) => Found::Limited {
            limit,
            unit,
            shadow: node.shadow,
            rule: Some(rule),
        },
    }
}

// A node's key, copied.
fn key_of(node: &Node) -> Result<Text, OutOfMemory>
    ensures { IfOk result (λ key. key ≡ (fields_of (node_view node.now)).key) }
{
    node.key.copy()
}

// A node's value, copied.
fn value_of(node: &Node) -> Result<Option<Text>, OutOfMemory>
    ensures { IfOk result (λ value. value ≡ (fields_of (node_view node.now)).value) }
{
    copy_of(&node.value)
}

// The nodes below a node.
fn below_of(node: &Node) -> &Forest
    ensures { forest_view result.now ≡ below_of (node_view node.now) }
{
    &node.below
}

impl Levels {
    /// No level.
    pub fn new(alloc: Global) -> Levels
        ensures { (result.levels.items ≡ []) × (result.names.items ≡ []) }
    {
        Levels {
            levels: Vec::new(alloc),
            names: Vec::new(alloc),
        }
    }

    /// Adds the nodes of a level and those below them, the first of them with the next number. The answer is the level's
    /// index.
    #[cycle(add)]
    pub fn add_level(&mut self, alloc: Global, forest: &Forest) -> Result<usize, OutOfMemory>
        requires { length self.old.names.items + length (level_names (forest_view forest.now)) ≤ MOST_NODES }
        ensures level { IfOk result (λ index. IsLevel self.new.levels.items index (length self.old.names.items) (forest_view forest.now)) }
        ensures grows { OnOk result (Extends self.old.levels.items self.new.levels.items) }
        ensures names { OnOk result (self.new.names.items ≡ self.old.names.items ++ level_names (forest_view forest.now)) }
    {
        let nodes = forest.items();
        let mut level = Level::Empty;
        'nodes: for index in 0..nodes.len() {
            self.add_node(alloc, &mut level, &nodes[index])?;
        }
        let index = self.levels.len();
        self.levels.push(level)?;
        Ok(index)
    }

    // Adds a node, with the next number, and those below it.
    #[cycle(add)]
    fn add_node(&mut self, alloc: Global, level: &mut Level, node: &Node) -> Result<(), OutOfMemory>
        requires { length self.old.names.items + length (branch_names (node_view node.now)) ≤ MOST_NODES }
        ensures puts { OnOk result (PutsNode self.new.levels.items (length self.old.names.items) (node_view node.now)
            (finding_of level.old) (finding_of level.new)) }
        ensures grows { OnOk result (Extends self.old.levels.items self.new.levels.items) }
        ensures names { OnOk result (self.new.names.items ≡ self.old.names.items ++ branch_names (node_view node.now)) }
    {
        let found = rule_at(node, self.names.len() as u32);
        self.names.push(RuleNames::of(alloc, node)?)?;
        let below = self.add_level(alloc, below_of(node))?;
        let key = key_of(node)?;
        let value = value_of(node)?;
        level.put(alloc, key, value, Reached { found, below })?;
        Ok(())
    }

    fn reached(&self, index: usize, entry: &Entry) -> Option<Reached>
        ensures { result ≡ option_and_then (λ level. reached_in level entry.now) (slice_get self.now.levels.items index) }
    {
        match self.levels.get(index) {
            Some(level) => level.reached(entry),
            None => None,
        }
    }

    /// What is found through some entries from a level on.
    pub fn walk(&self, entries: &[Entry], first: usize) -> Found
        ensures { result ≡ walk self.now.levels.items entries.now Found.NoRule first }
    {
        let mut found = Found::NoRule;
        let mut below = first;
        'entries: for index in 0..entries.len() {
            match self.reached(below, &entries[index]) {
                Some(reached) => {
                    found = reached.found;
                    below = reached.below;
                }
                None => return Found::NoRule,
            }
        }
        found
    }
}
