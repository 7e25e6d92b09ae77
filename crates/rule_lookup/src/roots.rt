ghost use Rattle.std.specs.Prelude.{◌≡◌, ◌≤◌, IfOk, map, length, option_copied};
ghost use Rattle.std.specs.List.{slice_get};
ghost use Rattle.indexmap.specs.IndexMap.{get};
ghost use Rattle.rate_types.specs.Counters.{same_text};
ghost use Rattle.rate_types.specs.declared.limits.TheConstants.{MOST_NODES};
ghost use Rattle.descriptor_tree.specs.Trees.{tree_view};
ghost use Rattle.rule_lookup.specs.Level.{walk, tree_names};
ghost use Rattle.rule_lookup.specs.Index.{HoldsTrees, replaces_names};

use crate::Found;
use crate::levels::Levels;
use crate::names::RuleNames;
use crate::put::put;
use descriptor_tree::Tree;
use indexmap::IndexMap;
use rate_types::{Entry, OutOfMemory, Text};
use std::alloc::Global;

/// The trees of a configuration: all their levels, and the first one of each domain.
#[derive(Drop)]
pub struct Roots {
    domains: IndexMap<Text, usize>,
    levels: Levels,
}

impl Roots {
    /// Those of a configuration's trees.
    pub fn of(alloc: Global, trees: &[Tree]) -> Result<Roots, OutOfMemory>
        requires { length (tree_names (map tree_view trees.now)) ≤ MOST_NODES }
        ensures { IfOk result (λ roots. HoldsTrees roots (map tree_view trees.now)) }
    {
        let mut domains = IndexMap::new(alloc);
        let mut levels = Levels::new(alloc);
        'trees: for index in 0..trees.len() {
            let tree = &trees[index];
            let first = levels.add_level(alloc, &tree.forest)?;
            put(&mut domains, tree.domain.copy()?, first)?;
        }
        Ok(Roots { domains, levels })
    }

    /// The first level of a domain. A domain that is alone is compared and not hashed.
    pub fn first_level(&self, domain: &Text) -> Option<usize>
        ensures { result ≡ get same_text self.now.domains domain.now }
    {
        if self.domains.len() != 1 {
            return self.domains.get(domain).copied();
        }
        let (only, first) = self.domains.get_index(0)?;
        if domain == only { Some(*first) } else { None }
    }

    /// What is found through some entries from a level on.
    pub fn walk(&self, entries: &[Entry], first: usize) -> Found
        ensures { result ≡ walk self.now.levels.levels.items entries.now Found.NoRule first }
    {
        self.levels.walk(entries, first)
    }

    /// Whether the node of the first number replaces the one of the second.
    pub fn replaces(&self, one: usize, other: usize) -> bool
        ensures { result ≡ replaces_names (slice_get self.now.levels.names.items one) (slice_get self.now.levels.names.items other) }
    {
        match (self.names(one), self.names(other)) {
            (Some(one), Some(other)) => one.replace(other),
            _ => false,
        }
    }

    /// The names of the node of a number.
    pub fn names(&self, number: usize) -> Option<&RuleNames>
        ensures { option_copied result ≡ slice_get self.now.levels.names.items number }
    {
        self.levels.names.get(number)
    }
}
