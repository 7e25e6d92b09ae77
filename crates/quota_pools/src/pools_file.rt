ghost use Rattle.std.specs.Prelude.{◌≡◌, [], Some, option_map, unwrap_or};
ghost use Rattle.serde_json.specs.View.{view};
ghost use Rattle.proto_json.specs.Document.{document};
ghost use Rattle.proto_json.specs.Held.{list_of, object_of, Takes};
ghost use Rattle.rate_types.specs.Reading.{AnswersReading};
ghost use Rattle.proto_json.specs.Said.{reading_of};
ghost use Rattle.quota_pools.specs.FieldNames as names;
ghost use Rattle.quota_pools.specs.ReadPools as reading;

use crate::field_names::{DOMAIN, POOLS};
use crate::pools::{PoolList, Pools};
use crate::read_pool::read_pool;
use proto_json::{Fields, FormFault, List, parse};
use rate_types::refusals::{EMPTY_DOMAIN, TEXT_TOO_LONG};
use rate_types::{Place, Refused, Text};
use serde_json::Value;
use std::alloc::Global;

// Reads the pools of a list, one after the other.
fn read_list(alloc: Global, list: List) -> Result<PoolList, FormFault>
    ensures { AnswersReading (λ ps. Some ps) result (reading_of (reading.each_pool (list_of list))) }
{
    let mut pools = PoolList::new(alloc);
    let mut index = 0u64;
    'items: for value in list.items {
        let at = list.place.item(alloc, index)?;
        let pool = match read_pool(alloc, &pools, value, at) {
            Ok(pool) => pool,
            Err(fault) => return Err(fault),
        };
        pools.push(alloc, pool)?;
        index += 1;
    }
    Ok(pools)
}

// Takes the list of pools.
#[tactic(auto, using(proto_json::specs::Laws::take_and_read))]
fn take_pools(alloc: Global, fields: &mut Fields) -> Result<Option<PoolList>, FormFault>
    ensures { Takes (λ o. o) reading.pools_kind names.pools
        (object_of fields.old) result (object_of fields.new) }
{
    match fields.take_list(POOLS)? {
        Some(list) => {
            let pools = read_list(alloc, list)?;
            Ok(Some(pools))
        }
        None => Ok(None),
    }
}

// The pools of a domain that isn't empty.
fn pools_of(at: Place, domain: Text, pools: PoolList) -> Result<Pools, FormFault>
    ensures { AnswersReading (λ p. Some p) result (reading_of (reading.pools_rules at domain pools)) }
{
    if domain.as_str().is_empty() {
        return Err(FormFault::Refused(Refused {
            at,
            number: EMPTY_DOMAIN,
        }));
    }
    Ok(Pools::of(domain, pools))
}

// The pools of their fields.
#[tactic(auto, using(proto_json::specs::Laws::reading_then), unfolding(crate::specs::ReadPools::pools_in))]
fn pools_in(alloc: Global, mut fields: Fields) -> Result<Pools, FormFault>
    ensures { AnswersReading (λ p. Some p) result (reading_of (reading.pools_in (object_of fields))) }
{
    let domain = fields.take_short_text(DOMAIN, TEXT_TOO_LONG)?;
    let pools = take_pools(alloc, &mut fields)?;
    let at = fields.end()?;
    let domain = domain.unwrap_or(Text::empty(alloc));
    let pools = pools.unwrap_or(PoolList::new(alloc));
    let pools = pools_of(at, domain, pools)?;
    Ok(pools)
}

// The pools of an object at this place.
#[tactic(auto, using(proto_json::specs::Laws::reading_then), unfolding(crate::specs::ReadPools::pools_at))]
fn pools_at(alloc: Global, value: Value, place: Place) -> Result<Pools, FormFault>
    ensures { AnswersReading (λ p. Some p) result (reading_of (reading.pools_at place (view value))) }
{
    let fields = Fields::of(value, place)?;
    let pools = pools_in(alloc, fields)?;
    Ok(pools)
}

/// Reads a pools file. It answers the pools that the file spells, or its first fault: 1 BadJson where the bytes are no JSON,
/// 10 EmptyDomain at the empty place, at a pool 14 UnitMissing, 32 NoBucketId where its bucket has no name, 37 TooManyParts where
/// it has over 32, 48 TwoPools where an earlier pool has the same bucket, 49 NoLifetime where the lifetime of its assignments is
/// absent or 0, and those of attributes and every message.
#[tactic(auto, using(proto_json::specs::Laws::reading_then), unfolding(crate::specs::ReadPools::pools))]
pub fn read_pools(alloc: Global, bytes: &[u8]) -> Result<Pools, FormFault>
    ensures { AnswersReading (λ p. Some p) result (reading_of (reading.pools bytes.now)) }
{
    let value = parse(alloc, bytes)?;
    let pools = pools_at(alloc, value, Place::empty(alloc))?;
    Ok(pools)
}
