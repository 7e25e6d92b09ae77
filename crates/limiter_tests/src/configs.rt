// Configurations of one rule.
ghost use Rattle.std.specs.Prelude.{IfOk};
ghost use Rattle.descriptor_tree.specs.Trees.{node_view};
ghost use Rattle.descriptor_tree.specs.Config.{IsWellFormedBranch};

use descriptor_tree::{Config, Forest, Node, Policy, Texts, Tree};
use rate_types::{Text, Unit};
use std::alloc::Global;
use std::sync::Arc;
use std::test::Fail;

// The node that limits each value of key `k` to so many hits a minute.
fn node(alloc: Global, limit: u32) -> Result<Node, Fail>
    ensures { IfOk result (λ n. IsWellFormedBranch (node_view n)) }
{
    Ok(Node {
        key: Text::new(alloc, "k")?,
        value: None,
        policy: Some(Policy::Limited {
            limit,
            unit: Unit::Minute,
        }),
        name: None,
        replaces: Texts::new(alloc),
        shadow: false,
        below: Forest::of(Vec::new(alloc)),
    })
}

/// Domain `d` with this node.
pub fn config(alloc: Global, limit: u32) -> Result<Arc<Config>, Fail> {
    let mut nodes = Vec::new(alloc);
    nodes.push(node(alloc, limit)?)?;
    let mut trees = Vec::new(alloc);
    trees.push(Tree {
        domain: Text::new(alloc, "d")?,
        forest: Forest::of(nodes),
    })?;
    match Config::build(alloc, trees) {
        Ok(config) => Ok(Arc::new(alloc, config)?),
        Err(_) => Err(Fail::new("refused")),
    }
}
