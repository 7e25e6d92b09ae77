/// The number of a node of a configuration, from 0: nodes are counted in preorder over all trees in order.
#[derive(Clone, Copy, Debug, PartialEq, Eq, PartialOrd, Ord, Hash)]
pub struct RuleId(pub u32);
