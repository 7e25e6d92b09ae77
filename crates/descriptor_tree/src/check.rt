ghost use Rattle.std.specs.Prelude.{◌≡◌, List, ◌≤◌, ◌+◌, [], IfOk, codes, map};
ghost use Rattle.std.specs.List.{slice_get, list_any};
ghost use Rattle.rate_types.specs.Places.{item};
ghost use Rattle.rate_types.specs.Places as places;
ghost use Rattle.rate_types.specs.declared.refused.At.{At};
ghost use Rattle.descriptor_tree.specs.Trees.{NodeFields, node_view, forest_view, fields_of, below_of, tree_view};
ghost use Rattle.descriptor_tree.specs.Nodes.{branch_nodes, forest_nodes, tree_nodes};
ghost use Rattle.rate_types.specs.Reading.{AnswersReading, first_or};
ghost use Rattle.descriptor_tree.specs.Faults.{in_file, is_empty, is_twin, node_numbers, domain_numbers, config_faults};
ghost use Rattle.descriptor_tree.specs.Numbering.{next_number};

use crate::siblings::name_of;
use crate::{ConfigFault, Forest, Node, Tree};
use rate_types::limits::{DEEPEST_LEVEL, MOST_NODES};
use rate_types::refusals::{
    EMPTY_DOMAIN, EMPTY_KEY, TOO_DEEP, TOO_MANY_NODES, TWO_DOMAINS, TWO_NODES,
};
use rate_types::{At, Fault, Place, Refused};
use std::alloc::Global;
use std::collections::HashSet;

// The number of a node's first fault.
fn first_number(node: &Node, twin: bool, level: u32, number: u64) -> Option<u32>
    ensures { result ≡ slice_get
        (node_numbers (is_empty (fields_of (node_view node.now)).key) twin level number) 0 }
{
    if node.key.as_str().is_empty() {
        Some(EMPTY_KEY)
    } else if twin {
        Some(TWO_NODES)
    } else if level > DEEPEST_LEVEL {
        Some(TOO_DEEP)
    } else if number >= u64::from(MOST_NODES) {
        Some(TOO_MANY_NODES)
    } else {
        None
    }
}

// A refusal of an item of the list at this place.
fn refused(alloc: Global, file: u64, place: &Place, index: u64, number: u32) -> ConfigFault
    ensures { (at : At) → result ≡ Fault.Refused at
        → at ≡ in_file file (record { at = item place.now index; number = number }) }
{
    match place.item(alloc, index) {
        Ok(at) => Fault::Refused(At {
            file,
            refused: Refused { at, number },
        }),
        Err(_) => Fault::OutOfMemory,
    }
}

/// Checks the nodes of a level, which stand at this place of this file, and those below them. The first of them has this
/// number; the answer is the number of the next node. A lone node takes no memory here.
#[cycle(check)]
pub fn check_forest(
    alloc: Global,
    file: u64,
    place: &Place,
    level: u32,
    forest: &Forest,
    number: u64,
) -> Result<u64, ConfigFault>
    requires level { level ≤ DEEPEST_LEVEL + 1 }
    requires number { number ≤ MOST_NODES }
    ensures first { AnswersReading (λ n. n) result
        (next_number file number (forest_nodes place.now level 0 [] (forest_view forest.now))) }
    ensures few { IfOk result (λ n. n ≤ MOST_NODES) }
{
    let nodes = forest.items();
    if nodes.len() == 1 {
        return check_node(alloc, file, place, 0, level, &nodes[0], false, number);
    }
    let mut names = HashSet::new(alloc);
    let mut number = number;
    'nodes: for index in 0..nodes.len() {
        let node = &nodes[index];
        let is_new = names.insert(name_of(node))?;
        match check_node(
            alloc,
            file,
            place,
            index as u64,
            level,
            node,
            !is_new,
            number,
        ) {
            Ok(next) => number = next,
            Err(fault) => return Err(fault),
        }
    }
    Ok(number)
}

// Checks an item of the list at this place, of which it is known whether an earlier one is its twin, and the nodes below it.
#[cycle(check)]
fn check_node(
    alloc: Global,
    file: u64,
    place: &Place,
    index: u64,
    level: u32,
    node: &Node,
    twin: bool,
    number: u64,
) -> Result<u64, ConfigFault>
    requires level { level ≤ DEEPEST_LEVEL + 1 }
    requires number { number ≤ MOST_NODES }
    ensures first { (earlier : List NodeFields) → twin ≡ list_any (λ e. is_twin e (fields_of (node_view node.now))) earlier
        → AnswersReading (λ n. n) result
        (next_number file number (branch_nodes (item place.now index) level earlier (node_view node.now))) }
    ensures few { IfOk result (λ n. n ≤ MOST_NODES) }
{
    if let Some(refusal) = first_number(node, twin, level, number) {
        return Err(refused(alloc, file, place, index, refusal));
    }
    check_below(alloc, file, place, index, level, node, number + 1)
}

// Checks the nodes below an item of the list at this place.
#[cycle(check)]
fn check_below(
    alloc: Global,
    file: u64,
    place: &Place,
    index: u64,
    level: u32,
    node: &Node,
    number: u64,
) -> Result<u64, ConfigFault>
    requires level { level ≤ DEEPEST_LEVEL }
    requires number { number ≤ MOST_NODES }
    ensures first { AnswersReading (λ n. n) result
        (next_number file number (forest_nodes (places.child (item place.now index) (codes "descriptors"))
        (level + 1) 0 [] (below_of (node_view node.now)))) }
    ensures few { IfOk result (λ n. n ≤ MOST_NODES) }
{
    if node.below.items().is_empty() {
        return Ok(number);
    }
    let at = place.item(alloc, index)?.child("descriptors")?;
    check_forest(alloc, file, &at, level + 1, &node.below, number)
}

// The number of a tree's own first fault.
fn first_domain_number(domain: &str, twin: bool) -> Option<u32>
    ensures { result ≡ slice_get (domain_numbers (is_empty domain.now) twin) 0 }
{
    if domain.is_empty() {
        Some(EMPTY_DOMAIN)
    } else if twin {
        Some(TWO_DOMAINS)
    } else {
        None
    }
}

// Checks the nodes of a tree.
fn check_tree(alloc: Global, file: u64, tree: &Tree, number: u64) -> Result<u64, ConfigFault>
    requires number { number ≤ MOST_NODES }
    ensures first { AnswersReading (λ n. n) result (next_number file number (tree_nodes (tree_view tree.now))) }
    ensures few { IfOk result (λ n. n ≤ MOST_NODES) }
{
    let at = Place::empty(alloc).child("descriptors")?;
    check_forest(alloc, file, &at, 1, &tree.forest, number)
}

// The refusal of a tree's domain.
fn refused_domain(alloc: Global, file: u64, number: u32) -> ConfigFault
    ensures { result ≡ Fault.Refused (in_file file (record { at = []; number = number })) }
{
    Fault::Refused(At {
        file,
        refused: Refused {
            at: Place::empty(alloc),
            number,
        },
    })
}

/// Checks the trees one after the other.
pub fn check_trees(alloc: Global, trees: &[Tree]) -> Result<(), ConfigFault>
    ensures { AnswersReading (λ u. u) result (first_or (config_faults (map tree_view trees.now)) tt) }
{
    let mut domains = HashSet::new(alloc);
    let mut number = 0;
    'trees: for file in 0..trees.len() {
        let tree = &trees[file];
        let domain = tree.domain.as_str();
        let is_new = domains.insert(domain)?;
        if let Some(refusal) = first_domain_number(domain, !is_new) {
            return Err(refused_domain(alloc, file as u64, refusal));
        }
        match check_tree(alloc, file as u64, tree, number) {
            Ok(next) => number = next,
            Err(fault) => return Err(fault),
        }
    }
    Ok(())
}
