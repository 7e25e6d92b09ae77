ghost use Rattle.std.specs.Prelude.{◌≡◌, ◌++◌, List, ℕ, IfOk};
ghost use Rattle.std.specs.List.{list_any};
ghost use Rattle.rate_types.specs.Counters.{same_text};
ghost use Rattle.descriptor_tree.specs.Trees.{node_view, fields_of};
ghost use Rattle.rule_lookup.specs.Level.{names_of};
ghost use Rattle.rule_lookup.specs.Replaces.{is_named_in};
ghost use Rattle.rule_lookup.specs.Index.{has_some};

use descriptor_tree::{Node, Texts};
use rate_types::{OutOfMemory, Text};
use std::alloc::Global;

/// The name of a node's rule, and the names of those that it replaces.
#[derive(Drop)]
pub struct RuleNames {
    name: Option<Text>,
    replaces: Texts,
}

// Equal texts.
fn copy_all(alloc: Global, texts: &[Text]) -> Result<Texts, OutOfMemory>
    ensures { IfOk result (λ copies. copies ≡ texts.now) }
{
    let mut copies = Vec::new(alloc);
    'texts: for text in texts {
        copies.push(text.copy()?)?;
    }
    Ok(Texts::of(copies))
}

/// An equal text, where there is one.
pub fn copy_of(text: &Option<Text>) -> Result<Option<Text>, OutOfMemory>
    ensures { IfOk result (λ copy. copy ≡ text.now) }
{
    match text {
        Some(text) => Ok(Some(text.copy()?)),
        None => Ok(None),
    }
}

impl RuleNames {
    /// Those of a node.
    pub fn of(alloc: Global, node: &Node) -> Result<RuleNames, OutOfMemory>
        ensures { IfOk result (λ n. n ≡ names_of (fields_of (node_view node.now))) }
    {
        Ok(RuleNames {
            name: copy_of(&node.name)?,
            replaces: copy_all(alloc, node.replaces.items())?,
        })
    }

    /// Whether the rule with the other names is among those that this one replaces.
    pub fn replace(&self, other: &RuleNames) -> bool
        ensures { result ≡ is_named_in self.now.replaces other.now.name }
    {
        match &other.name {
            Some(name) => self.replaces.items().contains(name),
            None => false,
        }
    }

    /// Whether the rule replaces any.
    pub fn replace_some(&self) -> bool
        ensures { result ≡ has_some self.now.replaces }
    {
        match self.replaces.items() {
            [] => false,
            [_, ..] => true,
        }
    }
}
