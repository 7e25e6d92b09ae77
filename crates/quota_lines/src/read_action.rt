ghost use Rattle.std.specs.Prelude.{◌≡◌, ◌<◌, Some, length, unwrap_or};
ghost use Rattle.serde_json.specs.View.{view};
ghost use Rattle.proto_json.specs.Held.{object_of, Takes};
ghost use Rattle.rate_types.specs.Reading.{AnswersReading};
ghost use Rattle.proto_json.specs.Said.{reading_of};
ghost use Rattle.quota_lines.specs.FieldNames as names;
ghost use Rattle.quota_lines.specs.ReadAction as reading;
ghost use Rattle.quota_lines.specs.ReadBucketId.{few_names};

use crate::bucket_action::BucketAction;
use crate::bucket_ids::take_bucket_id;
use crate::field_names::{
    ABANDON_ACTION, ASSIGNMENT_TIME_TO_LIVE, QUOTA_ASSIGNMENT_ACTION, RATE_LIMIT_STRATEGY,
};
use crate::quota_action::QuotaAction;
use proto_json::{Fields, FormFault, Kind};
use quota_bucket::Strategy;
use quota_settings::{Attributes, BucketId};
use quota_settings_json::{take_empty, take_strategy};
use rate_types::refusals::{NO_ACTION, NO_BUCKET_ID, TOO_MANY_PARTS, TWO_OF_ONE};
use rate_types::{Place, Refused};
use serde_json::Value;
use std::alloc::Global;

// The assignment of its fields.
#[tactic(auto, using(proto_json::specs::Laws::reading_then), unfolding(crate::specs::ReadAction::assignment_in))]
fn assignment_in(mut fields: Fields) -> Result<QuotaAction, FormFault>
    ensures { AnswersReading (λ a. Some a) result (reading_of (reading.assignment_in (object_of fields))) }
{
    let lifetime = fields.take_duration(ASSIGNMENT_TIME_TO_LIVE)?;
    let strategy = take_strategy(&mut fields, RATE_LIMIT_STRATEGY)?;
    let _ = fields.end()?;
    let strategy = strategy.unwrap_or(Strategy::AllowAll);
    Ok(QuotaAction::Assign { lifetime, strategy })
}

// Takes an assignment.
#[tactic(auto, using(proto_json::specs::Laws::take_and_read))]
fn take_assignment(fields: &mut Fields) -> Result<Option<QuotaAction>, FormFault>
    ensures { Takes (λ o. o) reading.assignment names.quota_assignment_action
        (object_of fields.old) result (object_of fields.new) }
{
    match fields.take_fields(QUOTA_ASSIGNMENT_ACTION)? {
        Some(assignment) => {
            let action = assignment_in(assignment)?;
            Ok(Some(action))
        }
        None => Ok(None),
    }
}

// The one of an assignment and an abandonment that is there, or the refusal.
#[tactic(auto, unfolding(crate::specs::ReadAction::one_action))]
fn one_action(assigned: Option<QuotaAction>, abandoned: Option<Place>) -> Result<QuotaAction, u32>
    ensures { result ≡ reading.one_action assigned abandoned }
{
    match (assigned, abandoned) {
        (Some(action), None) => Ok(action),
        (None, Some(_)) => Ok(QuotaAction::Abandon),
        (Some(_), Some(_)) => Err(TWO_OF_ONE),
        (None, None) => Err(NO_ACTION),
    }
}

// The id of these names, of which there is one.
#[tactic(auto, unfolding(crate::specs::ReadBucketId::few_names))]
fn id_of(at: Place, pairs: Attributes) -> Result<BucketId, FormFault>
    requires { 0 < length pairs }
    ensures { AnswersReading (λ id. Some id) result (reading_of (few_names at pairs)) }
{
    match BucketId::of(pairs) {
        Some(id) => Ok(id),
        None => Err(FormFault::Refused(Refused {
            at,
            number: TOO_MANY_PARTS,
        })),
    }
}

// The action of these values.
#[tactic(auto, using(proto_json::specs::Laws::reading_then), unfolding(crate::specs::ReadAction::action_rules, quota_settings_json::specs::ReadStrategy::unless_zero))]
fn action_of(
    at: Place,
    pairs: Attributes,
    assigned: Option<QuotaAction>,
    abandoned: Option<Place>,
) -> Result<BucketAction, FormFault>
    ensures { AnswersReading (λ a. Some a) result
        (reading_of (reading.action_rules at pairs assigned abandoned)) }
{
    if pairs.items().is_empty() {
        return Err(FormFault::Refused(Refused {
            at,
            number: NO_BUCKET_ID,
        }));
    }
    let action = match one_action(assigned, abandoned) {
        Ok(action) => action,
        Err(number) => return Err(FormFault::Refused(Refused { at, number })),
    };
    let id = id_of(at, pairs)?;
    Ok(BucketAction::of(id, action))
}

// The action of its fields.
#[tactic(auto, using(proto_json::specs::Laws::reading_then), unfolding(crate::specs::ReadAction::action_in))]
fn action_in(alloc: Global, mut fields: Fields) -> Result<BucketAction, FormFault>
    ensures { AnswersReading (λ a. Some a) result (reading_of (reading.action_in (object_of fields))) }
{
    let pairs = take_bucket_id(alloc, &mut fields)?;
    let assigned = take_assignment(&mut fields)?;
    let abandoned = take_empty(&mut fields, ABANDON_ACTION)?;
    let at = fields.end()?;
    let pairs = pairs.unwrap_or(Attributes::sorted(Vec::new(alloc)));
    let action = action_of(at, pairs, assigned, abandoned)?;
    Ok(action)
}

// Reads an action.
#[tactic(auto, using(proto_json::specs::Laws::reading_then), unfolding(proto_json::specs::Kinds::and_read))]
fn read_action(alloc: Global, value: Value, at: Place) -> Result<BucketAction, FormFault>
    ensures { AnswersReading (λ a. Some a) result (reading_of (reading.action at (view value))) }
{
    let fields = Fields::of(value, at)?;
    let action = action_in(alloc, fields)?;
    Ok(action)
}

/// The kind of the quota server's actions.
pub struct ActionKind;

impl Kind for ActionKind {
    ghost use Rattle.quota_lines.specs.ReadAction.{action};

    type Read = BucketAction;

    ghost says = { action };

    fn read(alloc: Global, value: Value, place: Place) -> Result<BucketAction, FormFault> {
        read_action(alloc, value, place)
    }
}
