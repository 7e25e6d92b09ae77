use crate::Forest;
use rate_types::Text;

/// The tree of a domain.
#[derive(Drop)]
pub struct Tree {
    /// The domain. In a built configuration it isn't empty.
    pub domain: Text,
    /// The nodes of the first level.
    pub forest: Forest,
}
