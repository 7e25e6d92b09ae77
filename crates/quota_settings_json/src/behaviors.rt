ghost use Rattle.std.specs.Prelude.{◌≡◌, Some};
ghost use Rattle.proto_json.specs.Held.{name_of, object_of, Takes};
ghost use Rattle.rate_types.specs.Reading.{AnswersReading};
ghost use Rattle.proto_json.specs.Said.{reading_of};
ghost use Rattle.quota_settings_json.specs.FieldNames as names;
ghost use Rattle.quota_settings_json.specs.ReadBehaviors as reading;

use crate::expiry::Expiry;
use crate::field_names::{
    EXPIRED_ASSIGNMENT_BEHAVIOR, EXPIRED_TIMEOUT, FALLBACK_RATE_LIMIT, NO_ASSIGNMENT_BEHAVIOR,
    REUSE_LAST_ASSIGNMENT,
};
use crate::strategies::take_strategy;
use proto_json::{FieldName, Fields, FormFault};
use quota_bucket::{AtExpiry, Strategy};
use rate_types::refusals::{TIMEOUT_ZERO, TWO_OF_ONE};
use rate_types::{Millis, Place, Refused};

// The strategy before the first assignment.
#[tactic(auto, using(proto_json::specs::Laws::reading_then), unfolding(crate::specs::ReadBehaviors::unassigned_in))]
fn unassigned_in(mut fields: Fields) -> Result<Strategy, FormFault>
    ensures { AnswersReading (λ s. Some s) result (reading_of (reading.unassigned_in (object_of fields))) }
{
    let fallback = take_strategy(&mut fields, FALLBACK_RATE_LIMIT)?;
    let _ = fields.end()?;
    Ok(fallback.unwrap_or(Strategy::AllowAll))
}

/// Takes the strategy before the first assignment.
#[tactic(auto, using(proto_json::specs::Laws::take_and_read))]
pub fn take_unassigned(fields: &mut Fields) -> Result<Option<Strategy>, FormFault>
    ensures { Takes (λ o. o) reading.unassigned names.no_assignment_behavior
        (object_of fields.old) result (object_of fields.new) }
{
    match fields.take_fields(NO_ASSIGNMENT_BEHAVIOR)? {
        Some(behavior) => {
            let strategy = unassigned_in(behavior)?;
            Ok(Some(strategy))
        }
        None => Ok(None),
    }
}

// The place of an object without fields.
#[tactic(auto, using(proto_json::specs::Laws::reading_then), unfolding(crate::specs::ReadBehaviors::empty_in))]
fn read_empty(fields: Fields) -> Result<Place, FormFault>
    ensures { AnswersReading (λ p. Some p) result (reading_of (reading.empty_in (object_of fields))) }
{
    let place = fields.end()?;
    Ok(place)
}

/// Takes a field that is an object without fields: its place. Another value than an object is refused with 2 NotObject,
/// a field in it with 3 UnknownField.
#[tactic(auto, using(proto_json::specs::Laws::take_and_read))]
pub fn take_empty(fields: &mut Fields, field: FieldName) -> Result<Option<Place>, FormFault>
    ensures { Takes (λ o. o) reading.empty (name_of field.entry.0.now field.entry.1.now)
        (object_of fields.old) result (object_of fields.new) }
{
    match fields.take_fields(field)? {
        Some(object) => {
            let place = read_empty(object)?;
            Ok(Some(place))
        }
        None => Ok(None),
    }
}

// What happens at expiry. None where both are there.
fn at_expiry(fallback: Option<Strategy>, reuse: Option<Place>) -> Option<AtExpiry>
    ensures { result ≡ reading.at_expiry fallback reuse }
{
    match (fallback, reuse) {
        (None, None) => Some(AtExpiry::Abandon),
        (Some(fallback), None) => Some(AtExpiry::Fallback(fallback)),
        (None, Some(_)) => Some(AtExpiry::Reuse),
        (Some(_), Some(_)) => None,
    }
}

fn is_zero(timeout: &Option<Millis>) -> bool
    ensures { result ≡ reading.is_zero timeout.now }
{
    match timeout {
        Some(millis) => millis.get() == 0,
        None => false,
    }
}

// What these fields ask for after an assignment expired.
#[tactic(auto, using(proto_json::specs::Laws::reading_then), unfolding(crate::specs::ReadBehaviors::expiry_rules, crate::specs::ReadBehaviors::timeout_rule))]
fn expiry_of(
    at: Place,
    timeout: Option<Millis>,
    fallback: Option<Strategy>,
    reuse: Option<Place>,
) -> Result<Expiry, FormFault>
    ensures { AnswersReading (λ e. Some e) result
        (reading_of (reading.expiry_rules at timeout fallback reuse)) }
{
    let Some(behavior) = at_expiry(fallback, reuse) else {
        return Err(FormFault::Refused(Refused {
            at,
            number: TWO_OF_ONE,
        }));
    };
    if is_zero(&timeout) {
        return Err(FormFault::Refused(Refused {
            at,
            number: TIMEOUT_ZERO,
        }));
    }
    Ok(Expiry { behavior, timeout })
}

// What a bucket does after its assignment expired, of the behaviour's fields.
#[tactic(auto, using(proto_json::specs::Laws::reading_then), unfolding(crate::specs::ReadBehaviors::expiry_in))]
fn expiry_in(mut fields: Fields) -> Result<Expiry, FormFault>
    ensures { AnswersReading (λ e. Some e) result (reading_of (reading.expiry_in (object_of fields))) }
{
    let timeout = fields.take_duration(EXPIRED_TIMEOUT)?;
    let fallback = take_strategy(&mut fields, FALLBACK_RATE_LIMIT)?;
    let reuse = take_empty(&mut fields, REUSE_LAST_ASSIGNMENT)?;
    let at = fields.end()?;
    let expiry = expiry_of(at, timeout, fallback, reuse)?;
    Ok(expiry)
}

/// Takes what a bucket does after its assignment expired.
#[tactic(auto, using(proto_json::specs::Laws::take_and_read))]
pub fn take_expiry(fields: &mut Fields) -> Result<Option<Expiry>, FormFault>
    ensures { Takes (λ o. o) reading.expiry names.expired_assignment_behavior
        (object_of fields.old) result (object_of fields.new) }
{
    match fields.take_fields(EXPIRED_ASSIGNMENT_BEHAVIOR)? {
        Some(behavior) => {
            let expiry = expiry_in(behavior)?;
            Ok(Some(expiry))
        }
        None => Ok(None),
    }
}
