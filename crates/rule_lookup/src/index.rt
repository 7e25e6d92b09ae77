ghost use Rattle.std.specs.Prelude.{◌≡◌, IfOk, map, option_map, option_copied};
ghost use Rattle.std.specs.Arc.{arc_value};
ghost use Rattle.descriptor_tree.specs.Views.{config_view};
ghost use Rattle.rule_lookup.specs.Rule.{rule_of};
ghost use Rattle.rule_lookup.specs.Replaces.{replaces, node_at, node_found};
ghost use Rattle.rule_lookup.specs.Level.{names_of};

use crate::Found;
use crate::names::RuleNames;
use crate::roots::Roots;
use descriptor_tree::Config;
use rate_types::{Descriptor, OutOfMemory, RuleId, Text};
use std::alloc::Global;
use std::marker::Model;
use std::sync::Arc;

/// A configuration, indexed for look-ups. Contracts see its list of trees.
#[derive(Drop)]
pub struct Index {
    config: Arc<Config>,
    roots: Roots,
}

impl Model for Index {
    ghost use Rattle.std.specs.Prelude.{List};
    ghost use Rattle.std.specs.Arc.{arc_value};
    ghost use Rattle.descriptor_tree.specs.Trees.{DomainTree};
    ghost use Rattle.descriptor_tree.specs.Views.{config_view};
    ghost use Rattle.rule_lookup.specs.Index.{HoldsTrees};
    ghost use Rattle.rule_lookup.specs.Stored.{trees_code};

    ghost Value = { List DomainTree };

    ghost coded = { trees_code };

    ghost view = { λ i. config_view (arc_value i.config) };

    ghost invariant = { λ i. HoldsTrees i.roots (config_view (arc_value i.config)) };
}

impl Index {
    /// The index of a configuration, which it shares.
    pub fn make(alloc: Global, config: Arc<Config>) -> Result<Index, OutOfMemory>
        ensures { IfOk result (λ index. index ≡ config_view (arc_value config)) }
    {
        let roots = Roots::of(alloc, config.trees())?;
        Ok(Index { config, roots })
    }

    /// The configuration.
    pub fn config(&self) -> &Config
        ensures { config_view result.now ≡ self.now }
    {
        &*self.config
    }

    /// Whether the first rule replaces the second: the name of the second is among those that the first replaces. It takes
    /// no memory.
    pub fn replaces(&self, one: RuleId, other: RuleId) -> bool
        ensures { result ≡ replaces self.now one.0 other.0 }
    {
        self.roots.replaces(one.0 as usize, other.0 as usize)
    }

    /// The names of the node of a rule that was found.
    pub(crate) fn names_found(&self, found: Found) -> Option<&RuleNames>
        ensures { option_copied result ≡ option_map names_of (node_found self.now found) }
    {
        match found {
            Found::NoRule => None,
            Found::Limited { rule: None, .. } => None,
            Found::Unlimited { rule } => self.names(rule),
            Found::Limited {
                rule: Some(rule),
                ..
            } => self.names(rule),
        }
    }

    // The names of the node of this number.
    fn names(&self, rule: RuleId) -> Option<&RuleNames>
        ensures { option_copied result ≡ option_map names_of (node_at self.now rule.0) }
    {
        self.roots.names(rule.0 as usize)
    }
}

/// The rule of a descriptor in a domain. It takes no memory.
pub fn lookup(index: &Index, domain: &Text, descriptor: &Descriptor) -> Found
    ensures { result ≡ rule_of index.now domain.now descriptor.now }
{
    let Some(first) = index.roots.first_level(domain) else {
        return Found::NoRule;
    };
    match descriptor.own {
        Some(own) => Found::Limited {
            limit: own.limit,
            unit: own.unit,
            shadow: false,
            rule: None,
        },
        None => index.roots.walk(descriptor.entries.items(), first),
    }
}
