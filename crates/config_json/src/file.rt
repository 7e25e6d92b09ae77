ghost use Rattle.std.specs.Prelude.{◌≡◌, [], IfOk, Some};
ghost use Rattle.serde_json.specs.View.{view};
ghost use Rattle.proto_json.specs.Document.{document};
ghost use Rattle.proto_json.specs.Held.{object_of};
ghost use Rattle.rate_types.specs.Reading.{AnswersReading};
ghost use Rattle.proto_json.specs.Said.{reading_of};
ghost use Rattle.descriptor_tree.specs.Config.{AreWellFormed};
ghost use Rattle.descriptor_tree.specs.Trees.{tree_view};
ghost use Rattle.config_json.specs.Trees as trees;

use crate::field_names::{DOMAIN, NAME};
use crate::read_node::{or_none, take_below};
use descriptor_tree::Tree;
use proto_json::{Fields, FormFault, parse};
use rate_types::refusals::TEXT_TOO_LONG;
use rate_types::{Place, Text};
use serde_json::Value;
use std::alloc::Global;

// The tree of a file's fields.
#[tactic(auto, using(proto_json::specs::Laws::reading_then), unfolding(crate::specs::Trees::file_in))]
fn tree_in(alloc: Global, mut fields: Fields) -> Result<Tree, FormFault>
    ensures said { AnswersReading (λ t. Some (tree_view t)) result
        (reading_of (trees.file_in (object_of fields))) }
    ensures formed { IfOk result (λ t. AreWellFormed (tree_view t).forest) }
{
    let _ = fields.take_short_text(NAME, TEXT_TOO_LONG)?;
    let domain = fields.take_short_text(DOMAIN, TEXT_TOO_LONG)?;
    let below = take_below(alloc, &mut fields)?;
    let _ = fields.end()?;
    let domain = domain.unwrap_or(Text::empty(alloc));
    let forest = or_none(alloc, below);
    Ok(Tree { domain, forest })
}

/// Reads the object of a configuration file, which stands at this place. It answers the tree that the object spells, or
/// the first fault of reading it; the rules of a lawful configuration are checked by `Config::build`.
#[tactic(auto, using(proto_json::specs::Laws::reading_then), unfolding(crate::specs::Trees::file_at))]
pub fn tree_of(alloc: Global, value: Value, place: Place) -> Result<Tree, FormFault>
    ensures said { AnswersReading (λ t. Some (tree_view t)) result
        (reading_of (trees.file_at place (view value))) }
    ensures formed { IfOk result (λ t. AreWellFormed (tree_view t).forest) }
{
    let fields = Fields::of(value, place)?;
    let tree = tree_in(alloc, fields)?;
    Ok(tree)
}

/// Reads a configuration file.
#[tactic(auto, using(proto_json::specs::Laws::reading_then), unfolding(crate::specs::Trees::file))]
pub fn read_file(alloc: Global, bytes: &[u8]) -> Result<Tree, FormFault>
    ensures said { AnswersReading (λ t. Some (tree_view t)) result (reading_of (trees.file bytes.now)) }
    ensures formed { IfOk result (λ t. AreWellFormed (tree_view t).forest) }
{
    let value = parse(alloc, bytes)?;
    let tree = tree_of(alloc, value, Place::empty(alloc))?;
    Ok(tree)
}
