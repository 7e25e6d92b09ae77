ghost use Rattle.std.specs.Prelude.{◌≡◌, ◌≢◌, [], Some, option_map};
ghost use Rattle.std.specs.List.{list_any};
ghost use Rattle.std.specs.Str.{bytes_eq};
ghost use Rattle.proto_json.specs.Held.{object_of, Takes};
ghost use Rattle.rate_types.specs.Reading.{AnswersReading};
ghost use Rattle.proto_json.specs.Said.{reading_of};
ghost use Rattle.config_json.specs.FieldNames as names;
ghost use Rattle.config_json.specs.Rules as rules;
ghost use Rattle.config_json.specs.Views.{rule_view};

use crate::Rule;
use crate::field_names::{NAME, RATE_LIMIT, REQUESTS_PER_UNIT, UNIT, UNLIMITED};
use crate::read_replaced::take_replaced;
use crate::replaced::Replaced;
use crate::unless_empty::unless_empty;
use descriptor_tree::Policy;
use proto_json::{Fields, FormFault};
use rate_types::refusals::{SELF_REPLACE, TEXT_TOO_LONG, UNIT_MISSING, UNIT_WITH_UNLIMITED};
use rate_types::{Place, Refused, Text, Unit};
use std::alloc::Global;

// Whether a name is among these.
fn is_among(name: &str, names: &[Text]) -> bool
    ensures { result ≡ list_any (λ n. bytes_eq n name.now) names.now }
{
    names.iter().any(|n| n.as_str() == name)
}

// Whether a rule's name is among those that it replaces.
fn replaces_itself(name: &Option<Text>, replaces: &Replaced) -> bool
    ensures { result ≡ rules.replaces_itself name.now replaces.now }
{
    match name {
        Some(name) => is_among(name.as_str(), replaces.names()),
        None => false,
    }
}

// The rule with its names.
fn rule_named(
    at: Place,
    policy: Policy,
    name: Option<Text>,
    replaces: Replaced,
) -> Result<Rule, FormFault>
    requires { name ≢ Some [] }
    ensures { AnswersReading (λ r. Some (rule_view r)) result
        (reading_of (rules.rule_named at policy name replaces)) }
{
    if replaces_itself(&name, &replaces) {
        return Err(FormFault::Refused(Refused {
            at,
            number: SELF_REPLACE,
        }));
    }
    Ok(Rule {
        policy,
        name,
        replaces,
    })
}

// The rule of these fields.
#[tactic(auto, unfolding(crate::specs::Rules::policy_rules))]
fn policy_of(
    at: Place,
    unit: Option<Unit>,
    limit: u32,
    unlimited: bool,
    name: Option<Text>,
    replaces: Replaced,
) -> Result<Rule, FormFault>
    requires { name ≢ Some [] }
    ensures { AnswersReading (λ r. Some (rule_view r)) result
        (reading_of (rules.policy_rules at unit limit unlimited name replaces)) }
{
    match (unit, unlimited) {
        (Some(_), true) => Err(FormFault::Refused(Refused {
            at,
            number: UNIT_WITH_UNLIMITED,
        })),
        (None, false) => Err(FormFault::Refused(Refused {
            at,
            number: UNIT_MISSING,
        })),
        (None, true) => rule_named(at, Policy::Unlimited, name, replaces),
        (Some(unit), false) => rule_named(at, Policy::Limited { limit, unit }, name, replaces),
    }
}

// Reads a policy.
#[tactic(auto, using(proto_json::specs::Laws::reading_then), unfolding(crate::specs::Rules::policy))]
fn read_policy(alloc: Global, mut fields: Fields) -> Result<Rule, FormFault>
    ensures { AnswersReading (λ r. Some (rule_view r)) result (reading_of (rules.policy (object_of fields))) }
{
    let unit = fields.take_unit(UNIT)?;
    let limit = fields.take_u32(REQUESTS_PER_UNIT)?;
    let unlimited = fields.take_bool(UNLIMITED)?;
    let name = fields.take_short_text(NAME, TEXT_TOO_LONG)?;
    let replaces = take_replaced(alloc, &mut fields)?;
    let at = fields.end()?;
    let name = unless_empty(name);
    let replaces = replaces.unwrap_or(Replaced::none(alloc));
    let rule = policy_of(
        at,
        unit,
        limit.unwrap_or(0),
        unlimited.unwrap_or(false),
        name,
        replaces,
    )?;
    Ok(rule)
}

/// Takes a node's policy.
#[tactic(auto, using(proto_json::specs::Laws::take_and_read))]
pub fn take_policy(alloc: Global, fields: &mut Fields) -> Result<Option<Rule>, FormFault>
    ensures { Takes (option_map rule_view) rules.policy_kind names.rate_limit
        (object_of fields.old) result (object_of fields.new) }
{
    match fields.take_fields(RATE_LIMIT)? {
        Some(policy) => {
            let rule = read_policy(alloc, policy)?;
            Ok(Some(rule))
        }
        None => Ok(None),
    }
}
