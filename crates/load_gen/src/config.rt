// The configuration that a made-up load is run by.
ghost use Rattle.std.specs.Prelude.{◌≡◌, ◌≤◌, length, IfOk};
ghost use Rattle.rate_types.specs.declared.limits.TheConstants.{LONGEST_TEXT};
ghost use Rattle.descriptor_tree.specs.Trees.{branch, no_branches, node_view, tree_view};
ghost use Rattle.descriptor_tree.specs.Views.{config_view};
ghost use Rattle.load_gen.specs.Load as spec;

use crate::constants::{DOMAIN, KEY, LIMIT};
use descriptor_tree::{Config, ConfigFault, Forest, Node, Policy, Texts, Tree};
use rate_types::{OutOfMemory, Text, Unit};
use std::alloc::Global;

/// A text of a domain, a key or a value, which isn't too long.
pub(crate) fn short_text(alloc: Global, text: &str) -> Result<Text, OutOfMemory>
    requires { length text.now ≤ LONGEST_TEXT }
    ensures { IfOk result (λ t. t ≡ text.now) }
{
    match Text::new(alloc, text) {
        Ok(text) => Ok(text),
        Err(_) => Err(OutOfMemory),
    }
}

// The one node.
fn load_node(alloc: Global) -> Result<Node, OutOfMemory>
    ensures { IfOk result (λ n. node_view n ≡ branch spec.load_node no_branches) }
{
    let key = short_text(alloc, KEY)?;
    Ok(Node {
        key,
        value: None,
        policy: Some(Policy::Limited {
            limit: LIMIT,
            unit: Unit::Hour,
        }),
        name: None,
        replaces: Texts::new(alloc),
        shadow: false,
        below: Forest::of(Vec::new(alloc)),
    })
}

// The one tree.
fn load_tree(alloc: Global) -> Result<Tree, OutOfMemory>
    ensures { IfOk result (λ t. tree_view t ≡ spec.load_tree) }
{
    let domain = short_text(alloc, DOMAIN)?;
    let node = load_node(alloc)?;
    let mut nodes = Vec::with_capacity(alloc, 1)?;
    nodes.push_reserved(node);
    Ok(Tree {
        domain,
        forest: Forest::of(nodes),
    })
}

/// The configuration that a load is run by.
pub fn load_config(alloc: Global) -> Result<Config, OutOfMemory>
    ensures { IfOk result (λ c. config_view c ≡ spec.load_config) }
{
    let tree = load_tree(alloc)?;
    let mut trees = Vec::with_capacity(alloc, 1)?;
    trees.push_reserved(tree);
    match Config::build(alloc, trees) {
        Ok(config) => Ok(config),
        Err(ConfigFault::Refused(_)) => unreachable!(),
        Err(ConfigFault::OutOfMemory) => Err(OutOfMemory),
    }
}
