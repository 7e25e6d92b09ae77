ghost use Rattle.rate_types.specs.declared.limits.TheConstants.{LONGEST_TEXT};
ghost use Rattle.std.specs.Prelude.{◌≡◌, IfOk, OnOk, Some, true, option_map, codes, ◌∷◌, [], map, string_bytes, ◌≤◌, length};
ghost use Rattle.serde_json.specs.Data.{string, boolean, object};
ghost use Rattle.serde_json.specs.View.{view, items_view, members_view};
ghost use Rattle.descriptor_tree.specs.Trees.{node_view, forest_view, fields_of, tree_view};
ghost use Rattle.config_json.specs.Printed as printed;
ghost use Rattle.std.specs.List.{All};
ghost use Rattle.config_json.specs.Bounds.{IsShort, IsSmall, IsBounded};
ghost use Rattle.config_json.specs.Put.{put_there};

use crate::field_names::{
    DESCRIPTORS, DOMAIN, KEY, NAME, RATE_LIMIT, REPLACES, REQUESTS_PER_UNIT, SHADOW_MODE, UNIT,
    UNLIMITED, VALUE,
};
use descriptor_tree::{Forest, Node, Policy, Texts, Tree};
use rate_types::{OutOfMemory, Text, Unit};
use serde_json::{Map, Number, Value};
use std::alloc::Global;

// Puts a member among others, where its value is there.
fn put(
    alloc: Global,
    members: &mut Map<String, Value>,
    name: &str,
    value: Option<Value>,
) -> Result<(), OutOfMemory>
    ensures { OnOk result (members_view members.new.entries
        ≡ put_there name.now (option_map view value) (members_view members.old.entries)) }
{
    match value {
        Some(value) => {
            let name = String::from_str(alloc, name)?;
            members.insert(name, value)?;
            Ok(())
        }
        None => Ok(()),
    }
}

fn text(alloc: Global, text: &str) -> Result<Value, OutOfMemory>
    ensures { IfOk result (λ v. view v ≡ string text.now) }
{
    Ok(Value::String(String::from_str(alloc, text)?))
}

// A text that isn't empty.
fn text_there(alloc: Global, value: &str) -> Result<Option<Value>, OutOfMemory>
    ensures { IfOk result (λ o. option_map view o ≡ printed.text_there value.now) }
{
    if value.is_empty() {
        return Ok(None);
    }
    let value = text(alloc, value)?;
    Ok(Some(value))
}

// A text where there is one.
fn text_of(alloc: Global, value: &Option<Text>) -> Result<Option<Value>, OutOfMemory>
    ensures value { IfOk result (λ o. option_map view o ≡ option_map string value.now) }
    ensures short { OnOk result (IsShort value.now) }
{
    match value {
        Some(value) => {
            let value = text(alloc, value.as_str())?;
            Ok(Some(value))
        }
        None => Ok(None),
    }
}

// A number that isn't 0.
fn number_there(value: u32) -> Option<Value>
    ensures { option_map view result ≡ printed.number_there value }
{
    if value == 0 {
        None
    } else {
        Some(Value::Number(Number::from(value)))
    }
}

fn true_there(value: bool) -> Option<Value>
    ensures { option_map view result ≡ printed.true_there value }
{
    if value { Some(Value::Bool(true)) } else { None }
}

/// The list as a JSON value where it isn't empty.
pub fn list_there(items: Vec<Value>) -> Option<Value>
    ensures { option_map view result ≡ printed.list_there (items_view items.items) }
{
    if items.is_empty() {
        None
    } else {
        Some(Value::Array(items))
    }
}

fn unit_text(alloc: Global, unit: Unit) -> Result<Value, OutOfMemory>
    ensures { IfOk result (λ v. view v ≡ printed.unit_json unit) }
{
    text(alloc, unit.name())
}

// An object `{"name":n}`.
#[tactic(auto, using(crate::proofs::Printing::put_name))]
fn named(alloc: Global, name: &str) -> Result<Value, OutOfMemory>
    ensures { IfOk result (λ v. view v
        ≡ object (printed.members_there ((codes "name", Some (string name.now)) ∷ []))) }
{
    let mut members = Map::new(alloc);
    let name = text(alloc, name)?;
    put(alloc, &mut members, NAME.0, Some(name))?;
    Ok(Value::Object(members))
}

// The names of the rules that a rule replaces, where there are any.
fn replaces(alloc: Global, names: &Texts) -> Result<Option<Value>, OutOfMemory>
    ensures value { IfOk result (λ o. option_map view o
        ≡ printed.list_there (printed.names_json names.now)) }
    ensures short { OnOk result (All (λ n. length n ≤ LONGEST_TEXT) names.now) }
{
    let names = names.items();
    let mut items = Vec::new(alloc);
    'names: for index in 0..names.len() {
        let item = named(alloc, names[index].as_str())?;
        items.push(item)?;
    }
    Ok(list_there(items))
}

// A rule with a limit.
#[tactic(auto, using(crate::proofs::Printing::put_limited))]
fn limited(
    alloc: Global,
    name: Option<Value>,
    replaces: Option<Value>,
    limit: u32,
    unit: Value,
) -> Result<Value, OutOfMemory>
    ensures { IfOk result (λ v. view v ≡ object (printed.members_there (
        (codes "name", option_map view name)
        ∷ (codes "replaces", option_map view replaces)
        ∷ (codes "requestsPerUnit", printed.number_there limit)
        ∷ (codes "unit", Some (view unit))
        ∷ []))) }
{
    let mut members = Map::new(alloc);
    put(alloc, &mut members, UNIT.0, Some(unit))?;
    put(
        alloc,
        &mut members,
        REQUESTS_PER_UNIT.0,
        number_there(limit),
    )?;
    put(alloc, &mut members, REPLACES.0, replaces)?;
    put(alloc, &mut members, NAME.0, name)?;
    Ok(Value::Object(members))
}

// A rule without a limit.
#[tactic(auto, using(crate::proofs::Printing::put_unlimited))]
fn unlimited(
    alloc: Global,
    name: Option<Value>,
    replaces: Option<Value>,
) -> Result<Value, OutOfMemory>
    ensures { IfOk result (λ v. view v ≡ object (printed.members_there (
        (codes "name", option_map view name)
        ∷ (codes "replaces", option_map view replaces)
        ∷ (codes "unlimited", Some (boolean true))
        ∷ []))) }
{
    let mut members = Map::new(alloc);
    put(alloc, &mut members, UNLIMITED.0, Some(Value::Bool(true)))?;
    put(alloc, &mut members, REPLACES.0, replaces)?;
    put(alloc, &mut members, NAME.0, name)?;
    Ok(Value::Object(members))
}

// A node's rule, where it has one.
fn rule_there(alloc: Global, node: &Node) -> Result<Option<Value>, OutOfMemory>
    ensures value { IfOk result
        (λ o. option_map view o ≡ printed.rule_there (fields_of (node_view node.now))) }
    ensures name { OnOk result (IsShort (fields_of (node_view node.now)).name) }
    ensures replaces { OnOk result
        (All (λ n. length n ≤ LONGEST_TEXT) (fields_of (node_view node.now)).replaces) }
    ensures limit { OnOk result (IsSmall (fields_of (node_view node.now)).policy) }
{
    let name = text_of(alloc, &node.name)?;
    let replaces = replaces(alloc, &node.replaces)?;
    let Some(policy) = node.policy else {
        return Ok(None);
    };
    let rule = match policy {
        Policy::Limited { limit, unit } => {
            let unit = unit_text(alloc, unit)?;
            limited(alloc, name, replaces, limit, unit)?
        }
        Policy::Unlimited => unlimited(alloc, name, replaces)?,
    };
    Ok(Some(rule))
}

/// A node's object, with the list of the nodes below it.
#[tactic(auto, using(crate::proofs::Printing::put_node))]
pub fn node_value(alloc: Global, node: &Node, below: Option<Value>) -> Result<Value, OutOfMemory>
    ensures value { IfOk result (λ v. view v ≡ object (printed.members_there
        (printed.node_members (fields_of (node_view node.now)) (option_map view below)))) }
    ensures bounded { OnOk result (IsBounded (fields_of (node_view node.now))) }
{
    let key = text_there(alloc, node.key.as_str())?;
    let rule = rule_there(alloc, node)?;
    let value = text_of(alloc, &node.value)?;
    let mut members = Map::new(alloc);
    put(alloc, &mut members, VALUE.0, value)?;
    put(alloc, &mut members, SHADOW_MODE.0, true_there(node.shadow))?;
    put(alloc, &mut members, RATE_LIMIT.0, rule)?;
    put(alloc, &mut members, KEY.0, key)?;
    put(alloc, &mut members, DESCRIPTORS.0, below)?;
    Ok(Value::Object(members))
}

/// A file's object, with the list of its nodes.
#[tactic(auto, using(crate::proofs::Printing::put_file))]
pub fn tree_value(alloc: Global, below: Option<Value>, domain: &str) -> Result<Value, OutOfMemory>
    ensures { IfOk result (λ v. view v ≡ object (printed.members_there (
        (codes "descriptors", option_map view below)
        ∷ (codes "domain", printed.text_there domain.now)
        ∷ []))) }
{
    let domain = text_there(alloc, domain)?;
    let mut members = Map::new(alloc);
    put(alloc, &mut members, DOMAIN.0, domain)?;
    put(alloc, &mut members, DESCRIPTORS.0, below)?;
    Ok(Value::Object(members))
}
