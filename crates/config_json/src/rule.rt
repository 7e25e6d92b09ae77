ghost use Rattle.std.specs.Prelude.{◌≢◌, [], Some};
ghost use Rattle.std.specs.List.{All};

use crate::replaced::Replaced;
use descriptor_tree::Policy;
use rate_types::Text;

/// A policy as a file spells it: what the rule does, its name, and the names of the rules that it replaces.
#[derive(Drop)]
pub struct Rule {
    pub policy: Policy,
    pub name: Option<Text>,
    pub replaces: Replaced,
    ghost name_not_empty: { name ≢ Some [] },
    ghost replaces_others: { All (λ r. name ≢ Some r) replaces },
}
