ghost use Rattle.std.specs.Prelude.{◌≡◌, Some, option_map, unwrap_or};
ghost use Rattle.serde_json.specs.View.{view};
ghost use Rattle.proto_json.specs.Held.{object_of, Takes};
ghost use Rattle.rate_types.specs.Reading.{AnswersReading};
ghost use Rattle.proto_json.specs.Said.{reading_of};
ghost use Rattle.quota_pools.specs.FieldNames as names;
ghost use Rattle.quota_pools.specs.ReadReport as reading;

use crate::field_names::{
    BUCKET_QUOTA_USAGES, NUM_REQUESTS_ALLOWED, NUM_REQUESTS_DENIED, TIME_ELAPSED,
};
use proto_json::{Fields, FormFault, Kind, read_items};
use quota_lines::take_bucket_id;
use quota_settings::{Attributes, BucketId};
use rate_types::refusals::{NO_BUCKET_ID, TOO_MANY_PARTS};
use rate_types::{Place, Refused};
use serde_json::Value;
use std::alloc::Global;

// The bucket of these names, where the own rules of a usage hold.
#[tactic(auto, using(proto_json::specs::Laws::reading_then), unfolding(crate::specs::ReadReport::usage_rules, quota_settings_json::specs::ReadStrategy::unless_zero, quota_lines::specs::ReadBucketId::few_names))]
fn usage_of(at: Place, pairs: Attributes) -> Result<BucketId, FormFault>
    ensures { AnswersReading (λ id. Some id) result (reading_of (reading.usage_rules at pairs)) }
{
    if pairs.items().is_empty() {
        return Err(FormFault::Refused(Refused {
            at,
            number: NO_BUCKET_ID,
        }));
    }
    match BucketId::of(pairs) {
        Some(id) => Ok(id),
        None => Err(FormFault::Refused(Refused {
            at,
            number: TOO_MANY_PARTS,
        })),
    }
}

// The usage of its fields.
#[tactic(auto, using(proto_json::specs::Laws::reading_then), unfolding(crate::specs::ReadReport::usage_in))]
fn usage_in(alloc: Global, mut fields: Fields) -> Result<BucketId, FormFault>
    ensures { AnswersReading (λ id. Some id) result (reading_of (reading.usage_in (object_of fields))) }
{
    let pairs = take_bucket_id(alloc, &mut fields)?;
    let _ = fields.take_duration(TIME_ELAPSED)?;
    let _ = fields.take_u64(NUM_REQUESTS_ALLOWED)?;
    let _ = fields.take_u64(NUM_REQUESTS_DENIED)?;
    let at = fields.end()?;
    let pairs = pairs.unwrap_or(Attributes::sorted(Vec::new(alloc)));
    let id = usage_of(at, pairs)?;
    Ok(id)
}

// Reads a usage.
#[tactic(auto, using(proto_json::specs::Laws::reading_then), unfolding(proto_json::specs::Kinds::and_read))]
fn read_usage(alloc: Global, value: Value, at: Place) -> Result<BucketId, FormFault>
    ensures { AnswersReading (λ id. Some id) result (reading_of (reading.usage at (view value))) }
{
    let fields = Fields::of(value, at)?;
    let id = usage_in(alloc, fields)?;
    Ok(id)
}

/// The kind of usages, of which their buckets are kept.
struct UsageKind;

impl Kind for UsageKind {
    ghost use Rattle.quota_pools.specs.ReadReport.{usage};

    type Read = BucketId;

    ghost says = { usage };

    fn read(alloc: Global, value: Value, place: Place) -> Result<BucketId, FormFault> {
        read_usage(alloc, value, place)
    }
}

/// Takes the list of usages.
#[tactic(auto, using(proto_json::specs::Laws::take_and_read))]
pub fn take_usages(alloc: Global, fields: &mut Fields) -> Result<Option<Vec<BucketId>>, FormFault>
    ensures { Takes (option_map (λ v. v.items)) reading.usages names.bucket_quota_usages
        (object_of fields.old) result (object_of fields.new) }
{
    match fields.take_list(BUCKET_QUOTA_USAGES)? {
        Some(list) => {
            let usages = read_items::<UsageKind>(alloc, list)?;
            Ok(Some(usages))
        }
        None => Ok(None),
    }
}
