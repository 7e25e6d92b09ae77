ghost use Rattle.std.specs.Prelude.{◌≡◌, Some, option_map, unwrap_or};
ghost use Rattle.serde_json.specs.View.{view};
ghost use Rattle.proto_json.specs.Held.{name_of, object_of, placed_of, Takes};
ghost use Rattle.rate_types.specs.Reading.{AnswersReading};
ghost use Rattle.proto_json.specs.Said.{reading_of};
ghost use Rattle.quota_settings_json.specs.FieldNames as names;
ghost use Rattle.quota_settings_json.specs.ReadStrategy as reading;

use crate::field_names::{
    BLANKET_RULE, FILL_INTERVAL, MAX_TOKENS, REQUESTS_PER_TIME_UNIT, TIME_UNIT, TOKEN_BUCKET,
    TOKENS_PER_FILL,
};
use proto_json::{FieldName, Fields, FormFault, Placed};
use quota_bucket::Strategy;
use rate_types::refusals::{
    FILL_ZERO, NO_FILL, NO_TOKENS, TWO_OF_ONE, UNIT_MISSING, UNKNOWN_NAME, WRONG_KIND,
};
use rate_types::{Millis, Place, Refused, Unit};
use serde_json::Value;

// The blanket rule of this name.
#[tactic(auto, unfolding(crate::specs::ReadStrategy::blanket_named))]
fn blanket_named(at: Place, name: Option<&str>) -> Result<Strategy, FormFault>
    ensures { AnswersReading (λ s. Some s) result
        (reading_of (reading.blanket_named at (option_map (λ n. n.now) name.entry))) }
{
    match name {
        Some("ALLOW_ALL") => Ok(Strategy::AllowAll),
        Some("DENY_ALL") => Ok(Strategy::DenyAll),
        Some(_) => Err(FormFault::Refused(Refused {
            at,
            number: UNKNOWN_NAME,
        })),
        None => Err(FormFault::Refused(Refused {
            at,
            number: WRONG_KIND,
        })),
    }
}

// The blanket rule of a value.
fn read_blanket(rule: Placed) -> Result<Strategy, FormFault>
    ensures { AnswersReading (λ s. Some s) result (reading_of (reading.blanket_in (placed_of rule))) }
{
    blanket_named(rule.place, rule.value.as_str())
}

// Takes a strategy's blanket rule.
#[tactic(auto, using(proto_json::specs::Laws::take_and_read))]
fn take_blanket_rule(fields: &mut Fields) -> Result<Option<Strategy>, FormFault>
    ensures { Takes (λ o. o) reading.blanket_rule names.blanket_rule
        (object_of fields.old) result (object_of fields.new) }
{
    match fields.take_value(BLANKET_RULE)? {
        Some(rule) => {
            let strategy = read_blanket(rule)?;
            Ok(Some(strategy))
        }
        None => Ok(None),
    }
}

// So many requests per unit.
fn per_unit_of(at: Place, count: u64, unit: Option<Unit>) -> Result<Strategy, FormFault>
    ensures { AnswersReading (λ s. Some s) result (reading_of (reading.per_unit_rules at count unit)) }
{
    match unit {
        Some(unit) => Ok(Strategy::PerUnit { count, unit }),
        None => Err(FormFault::Refused(Refused {
            at,
            number: UNIT_MISSING,
        })),
    }
}

// Reads a limit per unit.
#[tactic(auto, using(proto_json::specs::Laws::reading_then), unfolding(crate::specs::ReadStrategy::per_unit))]
fn read_per_unit(mut fields: Fields) -> Result<Strategy, FormFault>
    ensures { AnswersReading (λ s. Some s) result (reading_of (reading.per_unit (object_of fields))) }
{
    let count = fields.take_u64(REQUESTS_PER_TIME_UNIT)?;
    let unit = fields.take_unit(TIME_UNIT)?;
    let at = fields.end()?;
    let strategy = per_unit_of(at, count.unwrap_or(0), unit)?;
    Ok(strategy)
}

// Takes a strategy's limit per unit.
#[tactic(auto, using(proto_json::specs::Laws::take_and_read))]
fn take_per_unit(fields: &mut Fields) -> Result<Option<Strategy>, FormFault>
    ensures { Takes (λ o. o) reading.per_unit_kind names.requests_per_time_unit
        (object_of fields.old) result (object_of fields.new) }
{
    match fields.take_fields(REQUESTS_PER_TIME_UNIT)? {
        Some(limit) => {
            let strategy = read_per_unit(limit)?;
            Ok(Some(strategy))
        }
        None => Ok(None),
    }
}

// The token bucket of these numbers.
#[tactic(auto, using(proto_json::specs::Laws::reading_then), unfolding(crate::specs::ReadStrategy::token_rules, crate::specs::ReadStrategy::unless_zero))]
fn tokens_of(
    at: Place,
    max: u32,
    per_fill: u32,
    interval: Option<Millis>,
) -> Result<Strategy, FormFault>
    ensures { AnswersReading (λ s. Some s) result (reading_of (reading.token_rules at max per_fill (unwrap_or interval 0))) }
{
    if max == 0 {
        return Err(FormFault::Refused(Refused {
            at,
            number: NO_TOKENS,
        }));
    }
    if per_fill == 0 {
        return Err(FormFault::Refused(Refused {
            at,
            number: NO_FILL,
        }));
    }
    match interval {
        Some(interval) if interval.get() > 0 => Ok(Strategy::TokenBucket {
            max,
            per_fill,
            interval,
        }),
        _ => Err(FormFault::Refused(Refused {
            at,
            number: FILL_ZERO,
        })),
    }
}

// Reads a token bucket.
#[tactic(auto, using(proto_json::specs::Laws::reading_then), unfolding(crate::specs::ReadStrategy::token_bucket))]
fn read_tokens(mut fields: Fields) -> Result<Strategy, FormFault>
    ensures { AnswersReading (λ s. Some s) result (reading_of (reading.token_bucket (object_of fields))) }
{
    let max = fields.take_u32(MAX_TOKENS)?;
    let per_fill = fields.take_u32(TOKENS_PER_FILL)?;
    let interval = fields.take_duration(FILL_INTERVAL)?;
    let at = fields.end()?;
    let strategy = tokens_of(at, max.unwrap_or(0), per_fill.unwrap_or(1), interval)?;
    Ok(strategy)
}

// Takes a strategy's token bucket.
#[tactic(auto, using(proto_json::specs::Laws::take_and_read))]
fn take_tokens(fields: &mut Fields) -> Result<Option<Strategy>, FormFault>
    ensures { Takes (λ o. o) reading.token_kind names.token_bucket
        (object_of fields.old) result (object_of fields.new) }
{
    match fields.take_fields(TOKEN_BUCKET)? {
        Some(tokens) => {
            let strategy = read_tokens(tokens)?;
            Ok(Some(strategy))
        }
        None => Ok(None),
    }
}

// The one strategy of three that is there.
fn one_of(
    at: Place,
    blanket: Option<Strategy>,
    per_unit: Option<Strategy>,
    tokens: Option<Strategy>,
) -> Result<Strategy, FormFault>
    ensures { AnswersReading (λ s. Some s) result (reading_of (reading.one_of at blanket per_unit tokens)) }
{
    match (blanket, per_unit, tokens) {
        (None, None, None) => Ok(Strategy::AllowAll),
        (Some(strategy), None, None) => Ok(strategy),
        (None, Some(strategy), None) => Ok(strategy),
        (None, None, Some(strategy)) => Ok(strategy),
        _ => Err(FormFault::Refused(Refused {
            at,
            number: TWO_OF_ONE,
        })),
    }
}

// The strategy of an object's fields.
#[tactic(auto, using(proto_json::specs::Laws::reading_then), unfolding(crate::specs::ReadStrategy::strategy_in))]
fn strategy_of(mut fields: Fields) -> Result<Strategy, FormFault>
    ensures { AnswersReading (λ s. Some s) result (reading_of (reading.strategy_in (object_of fields))) }
{
    let blanket = take_blanket_rule(&mut fields)?;
    let per_unit = take_per_unit(&mut fields)?;
    let tokens = take_tokens(&mut fields)?;
    let at = fields.end()?;
    let strategy = one_of(at, blanket, per_unit, tokens)?;
    Ok(strategy)
}

/// Reads a strategy, Envoy's `RateLimitStrategy`, which stands at this place. It answers the strategy, or the first fault
/// of reading it: 34 TwoOfOne where more than one of its three fields is there, 14 UnitMissing for a limit without a unit,
/// 44 NoTokens, 45 NoFill or 46 FillZero for a token bucket that has no token, no fill or no interval, and those of every
/// message. A strategy without any field allows all.
#[tactic(auto, using(proto_json::specs::Laws::reading_then), unfolding(proto_json::specs::Kinds::and_read))]
pub fn read_strategy(value: Value, place: Place) -> Result<Strategy, FormFault>
    ensures { AnswersReading (λ s. Some s) result (reading_of (reading.strategy place (view value))) }
{
    let fields = Fields::of(value, place)?;
    let strategy = strategy_of(fields)?;
    Ok(strategy)
}

/// Takes a field that is a strategy, refused as `read_strategy` says.
#[tactic(auto, using(proto_json::specs::Laws::take_and_read))]
pub fn take_strategy(fields: &mut Fields, field: FieldName) -> Result<Option<Strategy>, FormFault>
    ensures { Takes (λ o. o) reading.strategy (name_of field.entry.0.now field.entry.1.now)
        (object_of fields.old) result (object_of fields.new) }
{
    match fields.take_fields(field)? {
        Some(object) => {
            let strategy = strategy_of(object)?;
            Ok(Some(strategy))
        }
        None => Ok(None),
    }
}
