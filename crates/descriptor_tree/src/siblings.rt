ghost use Rattle.std.specs.Prelude.{◌≡◌, option_map};
ghost use Rattle.descriptor_tree.specs.Trees.{node_view, fields_of};

use crate::Node;

/// A node among its siblings: its key, and its value where it has one.
pub type Name<'a> = (&'a str, Option<&'a str>);

/// What a node is called among its siblings.
pub fn name_of(node: &Node) -> Name<'_>
    ensures key { result.0.now ≡ (fields_of (node_view node.now)).key }
    ensures value { option_map (λ v. v.now) result.1 ≡ (fields_of (node_view node.now)).value }
{
    let value = match &node.value {
        Some(value) => Some(value.as_str()),
        None => None,
    };
    (node.key.as_str(), value)
}
