ghost use Rattle.std.specs.Prelude.{◌≡◌, [], map, OnOk, IfErr};
ghost use Rattle.descriptor_tree.specs.Trees.{tree_view};
ghost use Rattle.descriptor_tree.specs.Faults.{config_faults};
ghost use Rattle.descriptor_tree.specs.Config.{IsLawfulConfig};

use crate::check::check_trees;
use crate::{ConfigFault, Tree};
use rate_types::Fault;
use std::alloc::Global;

/// A lawful configuration: a list of trees. A node's number is its place among the nodes of all trees in preorder.
#[derive(Drop)]
pub struct Config {
    trees: Vec<Tree>,
    ghost lawful: { IsLawfulConfig (map tree_view trees.items) },
    ghost faultless: { config_faults (map tree_view trees.items) ≡ [] },
}

impl Config {
    ghost use Rattle.std.specs.List.{All};
    ghost use Rattle.rate_types.specs.Reading.{AnswersReading, first_or};
    ghost use Rattle.descriptor_tree.specs.Config.{AreWellFormed};
    ghost use Rattle.descriptor_tree.specs.Views.{config_view};

    /// Checks the trees, the first of them being that of file 0, and makes a configuration of them, which is done exactly
    /// where they are a lawful configuration, but for want of memory. They are refused with their first fault: for a tree
    /// `EMPTY_DOMAIN` or `TWO_DOMAINS` at the empty place, then for its nodes in preorder, each at its place, `EMPTY_KEY`,
    /// `TWO_NODES`, `TOO_DEEP` or `TOO_MANY_NODES`. Making takes no memory, checking does.
    #[tactic(auto, unfolding(crate::specs::Views::config_view))]
    pub fn build(alloc: Global, trees: Vec<Tree>) -> Result<Config, ConfigFault>
        requires { All (λ t. AreWellFormed t.forest) (map tree_view trees.items) }
        ensures first { let spelled = map tree_view trees.items in
            AnswersReading config_view result (first_or (config_faults spelled) spelled) }
        ensures lawful { OnOk result (IsLawfulConfig (map tree_view trees.items)) }
        ensures accepted { IsLawfulConfig (map tree_view trees.items) → IfErr result (λ e. e ≡ Fault.OutOfMemory) }
    {
        match check_trees(alloc, &trees) {
            Ok(()) => Ok(Config { trees }),
            Err(fault) => Err(fault),
        }
    }

    /// The trees, in order.
    #[tactic(auto, unfolding(crate::specs::Views::config_view))]
    pub fn trees(&self) -> &[Tree]
        ensures trees { map tree_view result.now ≡ config_view self.now }
        ensures lawful { IsLawfulConfig (config_view self.now) }
        ensures faultless { config_faults (config_view self.now) ≡ [] }
    {
        &self.trees
    }
}
