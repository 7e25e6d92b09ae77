// What descriptors find, as JSON.
ghost use Rattle.std.specs.Prelude.{◌≡◌, false, IfOk, map};
ghost use Rattle.serde_json.specs.Data.{array};
ghost use Rattle.serde_json.specs.View.{view, items_of};
ghost use Rattle.serde_json.specs.Written.{has_float};
ghost use Rattle.rule_lookup.specs.Rule.{rule_of};
ghost use Rattle.cli_lookup.specs.Lookup as texts;
ghost use Rattle.reply_text.specs.Texts as names;

use rate_types::{Request, RuleId};
use reply_text::array_value;
use rule_lookup::{Found, Index, lookup};
use serde_json::{Number, Value, json};
use std::alloc::{AllocError, Global};

fn rule_value(rule: Option<RuleId>) -> Value
    ensures value { view result ≡ texts.rule_data rule }
    ensures whole { has_float (view result) ≡ false }
{
    match rule {
        Some(RuleId(rule)) => Value::Number(Number::from(rule)),
        None => Value::Null,
    }
}

#[tactic(auto, unfolding(crate::specs::Lookup::unlimited_data))]
fn unlimited_value(alloc: Global, rule: u32) -> Result<Value, AllocError>
    ensures value { IfOk result (λ v. view v ≡ texts.unlimited_data rule) }
    ensures whole { IfOk result (λ v. has_float (view v) ≡ false) }
{
    json!(in alloc; {"rule": rule, "unlimited": true})
}

#[tactic(auto, unfolding(crate::specs::Lookup::limited_data))]
fn limited_value(
    alloc: Global,
    limit: u32,
    rule: Value,
    shadow: bool,
    unit: &str,
) -> Result<Value, AllocError>
    requires { has_float (view rule) ≡ false }
    ensures value { IfOk result (λ v. view v ≡ texts.limited_data limit (view rule) shadow unit.now) }
    ensures whole { IfOk result (λ v. has_float (view v) ≡ false) }
{
    json!(in alloc; {"limit": limit, "rule": rule, "shadow": shadow, "unit": unit})
}

fn found_value(alloc: Global, found: Found) -> Result<Value, AllocError>
    ensures value { IfOk result (λ v. view v ≡ texts.found_data found) }
    ensures whole { IfOk result (λ v. has_float (view v) ≡ false) }
{
    match found {
        Found::NoRule => Ok(Value::Null),
        Found::Unlimited { rule } => unlimited_value(alloc, rule.0),
        Found::Limited {
            limit,
            unit,
            shadow,
            rule,
        } => limited_value(alloc, limit, rule_value(rule), shadow, unit.name()),
    }
}

/// What each descriptor of a request finds, as a JSON value.
pub fn founds_value(alloc: Global, index: &Index, request: &Request) -> Result<Value, AllocError>
    ensures value { IfOk result (λ v. view v ≡ texts.founds_data index.now request.now) }
    ensures whole { IfOk result (λ v. has_float (view v) ≡ false) }
{
    let descriptors = request.descriptors();
    let mut values = Vec::new(alloc);
    'descriptors: for descriptor in descriptors {
        let found = lookup(index, request.domain(), descriptor);
        values.push(found_value(alloc, found)?)?;
    }
    let value = array_value(values);
    Ok(value)
}
