ghost use Rattle.std.specs.Prelude.{◌≡◌, [], IfOk, IfSome, Some, option_map, unwrap_or};
ghost use Rattle.serde_json.specs.View.{view};
ghost use Rattle.proto_json.specs.Held.{object_of, list_of, Takes};
ghost use Rattle.rate_types.specs.Reading.{AnswersReading};
ghost use Rattle.proto_json.specs.Said.{reading_of};
ghost use Rattle.descriptor_tree.specs.Config.{AreWellFormed, IsWellFormedBranch};
ghost use Rattle.descriptor_tree.specs.Trees.{node_view, forest_view, no_branches, branch};
ghost use Rattle.config_json.specs.FieldNames as names;
ghost use Rattle.config_json.specs.Rules as rules;
ghost use Rattle.config_json.specs.Trees as trees;
ghost use Rattle.config_json.specs.Views.{rule_view};

use crate::Rule;
use crate::field_names::{DESCRIPTORS, DETAILED_METRIC, KEY, SHADOW_MODE, VALUE};
use crate::policy::take_policy;
use crate::unless_empty::unless_empty;
use descriptor_tree::{Forest, Node, Texts};
use proto_json::{Fields, FormFault, List};
use rate_types::refusals::TEXT_TOO_LONG;
use rate_types::{Place, Text};
use serde_json::Value;
use std::alloc::Global;

/// The nodes of a list that may be absent.
pub fn or_none(alloc: Global, below: Option<Forest>) -> Forest
    requires { IfSome below (λ f. AreWellFormed (forest_view f)) }
    ensures same { forest_view result ≡ trees.or_none (option_map forest_view below) }
    ensures formed { AreWellFormed (forest_view result) }
{
    match below {
        Some(forest) => forest,
        None => Forest::of(Vec::new(alloc)),
    }
}

// The node of these fields, with a rule or without one.
fn node_with(
    alloc: Global,
    key: Text,
    value: Option<Text>,
    rule: Option<Rule>,
    shadow: bool,
    below: Forest,
) -> Node
    requires { AreWellFormed (forest_view below) }
    ensures node { node_view result
        ≡ branch (trees.fields_with key (rules.unless_empty value) (option_map rule_view rule) shadow)
        (forest_view below) }
    ensures formed { IsWellFormedBranch (node_view result) }
{
    let value = unless_empty(value);
    match rule {
        Some(rule) => Node {
            key,
            value,
            policy: Some(rule.policy),
            name: rule.name,
            replaces: rule.replaces.into_texts(),
            shadow,
            below,
        },
        None => Node {
            key,
            value,
            policy: None,
            name: None,
            replaces: Texts::of(Vec::new(alloc)),
            shadow,
            below,
        },
    }
}

// Reads a node.
#[cycle(read)]
#[tactic(auto, using(crate::proofs::Readings::node_at_reads))]
fn read_node(alloc: Global, value: Value, place: Place) -> Result<Node, FormFault>
    ensures said { AnswersReading (λ n. Some (node_view n)) result
        (reading_of (trees.node_at place (view value))) }
    ensures formed { IfOk result (λ n. IsWellFormedBranch (node_view n)) }
{
    let fields = Fields::of(value, place)?;
    let node = node_of(alloc, fields)?;
    Ok(node)
}

// The node of these fields.
#[cycle(read)]
#[tactic(auto, using(crate::proofs::Readings::node_reads))]
fn node_of(alloc: Global, mut fields: Fields) -> Result<Node, FormFault>
    ensures said { let o = object_of fields in AnswersReading (λ n. Some (node_view n)) result
        (reading_of (trees.node_in o (trees.below_in o.place o.members))) }
    ensures formed { IfOk result (λ n. IsWellFormedBranch (node_view n)) }
{
    let key = fields.take_short_text(KEY, TEXT_TOO_LONG)?;
    let value = fields.take_short_text(VALUE, TEXT_TOO_LONG)?;
    let rule = take_policy(alloc, &mut fields)?;
    let shadow = fields.take_bool(SHADOW_MODE)?;
    let _ = fields.take_bool(DETAILED_METRIC)?;
    let below = take_below(alloc, &mut fields)?;
    let _ = fields.end()?;
    let key = key.unwrap_or(Text::empty(alloc));
    let below = or_none(alloc, below);
    Ok(node_with(alloc, key, value, rule, shadow.unwrap_or(false), below))
}

/// Takes the nodes of a file, or those below a node.
#[cycle(read)]
#[tactic(auto, using(proto_json::specs::Laws::take_and_read))]
pub fn take_below(alloc: Global, fields: &mut Fields) -> Result<Option<Forest>, FormFault>
    ensures said { Takes (option_map forest_view) trees.nodes_kind names.descriptors
        (object_of fields.old) result (object_of fields.new) }
    ensures formed { IfOk result (λ o. IfSome o (λ f. AreWellFormed (forest_view f))) }
{
    match fields.take_list(DESCRIPTORS)? {
        Some(list) => {
            let forest = read_nodes(alloc, list)?;
            Ok(Some(forest))
        }
        None => Ok(None),
    }
}

// Reads the nodes of a list.
#[cycle(read)]
fn read_nodes(alloc: Global, list: List) -> Result<Forest, FormFault>
    ensures said { AnswersReading (λ f. Some (forest_view f)) result
        (reading_of (trees.nodes_in (list_of list))) }
    ensures formed { IfOk result (λ f. AreWellFormed (forest_view f)) }
{
    let mut nodes = Vec::new(alloc);
    let mut index = 0u64;
    'items: for value in list.items {
        let at = list.place.item(alloc, index)?;
        let node = match read_node(alloc, value, at) {
            Ok(node) => node,
            Err(fault) => return Err(fault),
        };
        nodes.push(node)?;
        index += 1;
    }
    Ok(Forest::of(nodes))
}
