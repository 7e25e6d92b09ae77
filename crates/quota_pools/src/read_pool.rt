ghost use Rattle.std.specs.Prelude.{◌≡◌, Some, IfOk, false, unwrap_or};
ghost use Rattle.serde_json.specs.View.{view};
ghost use Rattle.proto_json.specs.Held.{object_of};
ghost use Rattle.rate_types.specs.Reading.{AnswersReading};
ghost use Rattle.proto_json.specs.Said.{reading_of};
ghost use Rattle.quota_pools.specs.Pools.{has_pool};
ghost use Rattle.quota_pools.specs.ReadPools as reading;

use crate::field_names::{ASSIGNMENT_TIME_TO_LIVE, REQUESTS_PER_TIME_UNIT, TIME_UNIT};
use crate::pool::Pool;
use crate::pools::PoolList;
use proto_json::{Fields, FormFault};
use quota_lines::take_bucket_id;
use quota_settings::{Attributes, BucketId};
use rate_types::refusals::{NO_BUCKET_ID, NO_LIFETIME, TOO_MANY_PARTS, TWO_POOLS, UNIT_MISSING};
use rate_types::{Millis, Place, Refused, Unit};
use serde_json::Value;
use std::alloc::Global;

// The pool of these values, or the number of its first refusal.
#[tactic(auto, unfolding(crate::specs::ReadPools::checked_pool))]
fn checked_pool(
    earlier: &PoolList,
    pairs: Attributes,
    count: u64,
    unit: Option<Unit>,
    lifetime: Option<Millis>,
) -> Result<Pool, u32>
    ensures pool { result ≡ reading.checked_pool earlier.now pairs count unit (unwrap_or lifetime 0) }
    ensures another { IfOk result (λ p. has_pool earlier.now p.bucket ≡ false) }
{
    let Some(unit) = unit else {
        return Err(UNIT_MISSING);
    };
    if pairs.items().is_empty() {
        return Err(NO_BUCKET_ID);
    }
    let Some(bucket) = BucketId::of(pairs) else {
        return Err(TOO_MANY_PARTS);
    };
    if earlier.has(&bucket) {
        return Err(TWO_POOLS);
    }
    match lifetime {
        Some(lifetime) if lifetime.get() > 0 => Ok(Pool::of(bucket, count, unit, lifetime)),
        _ => Err(NO_LIFETIME),
    }
}

// The pool of its fields.
#[tactic(auto, using(proto_json::specs::Laws::reading_then), unfolding(crate::specs::ReadPools::pool_in))]
fn pool_in(alloc: Global, earlier: &PoolList, mut fields: Fields) -> Result<Pool, FormFault>
    ensures pool { AnswersReading (λ p. Some p) result (reading_of (reading.pool_in earlier.now (object_of fields))) }
    ensures another { IfOk result (λ p. has_pool earlier.now p.bucket ≡ false) }
{
    let pairs = take_bucket_id(alloc, &mut fields)?;
    let count = fields.take_u64(REQUESTS_PER_TIME_UNIT)?;
    let unit = fields.take_unit(TIME_UNIT)?;
    let lifetime = fields.take_duration(ASSIGNMENT_TIME_TO_LIVE)?;
    let at = fields.end()?;
    let pairs = pairs.unwrap_or(Attributes::sorted(Vec::new(alloc)));
    let count = count.unwrap_or(0);
    match checked_pool(earlier, pairs, count, unit, lifetime) {
        Ok(pool) => Ok(pool),
        Err(number) => Err(FormFault::Refused(Refused { at, number })),
    }
}

/// Reads a pool that stands at this place behind the earlier ones.
#[tactic(auto, using(proto_json::specs::Laws::reading_then), unfolding(crate::specs::ReadPools::pool))]
pub fn read_pool(
    alloc: Global,
    earlier: &PoolList,
    value: Value,
    at: Place,
) -> Result<Pool, FormFault>
    ensures pool { AnswersReading (λ p. Some p) result (reading_of (reading.pool earlier.now at (view value))) }
    ensures another { IfOk result (λ p. has_pool earlier.now p.bucket ≡ false) }
{
    let fields = Fields::of(value, at)?;
    let pool = pool_in(alloc, earlier, fields)?;
    Ok(pool)
}
