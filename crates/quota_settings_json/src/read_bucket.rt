ghost use Rattle.std.specs.Prelude.{◌≡◌, [], Some, unwrap_or};
ghost use Rattle.serde_json.specs.View.{view};
ghost use Rattle.proto_json.specs.Held.{object_of};
ghost use Rattle.rate_types.specs.Reading.{AnswersReading};
ghost use Rattle.proto_json.specs.Said.{reading_of};
ghost use Rattle.quota_settings_json.specs.ReadSettings as reading;

use crate::attributes::take_attributes;
use crate::behaviors::{take_expiry, take_unassigned};
use crate::expiry::Expiry;
use crate::field_names::{MATCHES, REPORTING_INTERVAL};
use crate::part_list::PartList;
use crate::read_parts::take_builder;
use proto_json::{Fields, FormFault, Kind};
use quota_bucket::{AtExpiry, BucketRules, Strategy};
use quota_settings::{Attributes, BucketSettings};
use rate_types::limits::MOST_PARTS;
use rate_types::refusals::{INTERVAL_ZERO, NO_BUCKET_ID, TOO_MANY_PARTS};
use rate_types::{Millis, Place, Refused};
use serde_json::Value;
use std::alloc::Global;
use std::num::NonZeroU64;
use std::sync::Arc;

// The milliseconds of an interval that isn't absent or 0.
fn positive(interval: Option<Millis>) -> Option<NonZeroU64>
    ensures { result ≡ reading.positive (unwrap_or interval 0) }
{
    match interval {
        Some(millis) => NonZeroU64::new(millis.get()),
        None => None,
    }
}

// The settings of these values.
#[tactic(auto, using(proto_json::specs::Laws::reading_then), unfolding(crate::specs::ReadSettings::bucket_rules, crate::specs::ReadSettings::few_parts, crate::specs::ReadStrategy::unless_zero))]
fn bucket_of(
    alloc: Global,
    at: Place,
    matches: Attributes,
    parts: PartList,
    interval: Option<Millis>,
    unassigned: Strategy,
    expiry: Expiry,
) -> Result<BucketSettings, FormFault>
    ensures { AnswersReading (λ s. Some s) result
        (reading_of (reading.bucket_rules at matches parts (unwrap_or interval 0) unassigned expiry)) }
{
    let Some(reporting) = positive(interval) else {
        return Err(FormFault::Refused(Refused {
            at,
            number: INTERVAL_ZERO,
        }));
    };
    if parts.len() == 0 {
        return Err(FormFault::Refused(Refused {
            at,
            number: NO_BUCKET_ID,
        }));
    }
    if parts.len() > MOST_PARTS {
        return Err(FormFault::Refused(Refused {
            at,
            number: TOO_MANY_PARTS,
        }));
    }
    let rules = BucketRules {
        reporting,
        unassigned,
        expired: expiry.behavior,
        timeout: expiry.timeout,
    };
    let rules = Arc::new(alloc, rules)?;
    Ok(BucketSettings::of(matches, parts.into_parts(), rules))
}

// The settings of one kind of bucket, of their fields.
#[tactic(auto, using(proto_json::specs::Laws::reading_then), unfolding(crate::specs::ReadSettings::bucket_in))]
fn bucket_in(alloc: Global, mut fields: Fields) -> Result<BucketSettings, FormFault>
    ensures { AnswersReading (λ s. Some s) result (reading_of (reading.bucket_in (object_of fields))) }
{
    let matches = take_attributes(alloc, &mut fields, MATCHES)?;
    let parts = take_builder(alloc, &mut fields)?;
    let interval = fields.take_duration(REPORTING_INTERVAL)?;
    let unassigned = take_unassigned(&mut fields)?;
    let expiry = take_expiry(&mut fields)?;
    let at = fields.end()?;
    let matches = matches.unwrap_or(Attributes::sorted(Vec::new(alloc)));
    let parts = parts.unwrap_or(PartList::none(alloc));
    let unassigned = unassigned.unwrap_or(Strategy::AllowAll);
    let expiry = expiry.unwrap_or(Expiry {
        behavior: AtExpiry::Abandon,
        timeout: None,
    });
    let bucket = bucket_of(alloc, at, matches, parts, interval, unassigned, expiry)?;
    Ok(bucket)
}

// Reads the settings of one kind of bucket.
#[tactic(auto, using(proto_json::specs::Laws::reading_then), unfolding(proto_json::specs::Kinds::and_read))]
fn read_bucket(alloc: Global, value: Value, at: Place) -> Result<BucketSettings, FormFault>
    ensures { AnswersReading (λ s. Some s) result (reading_of (reading.bucket at (view value))) }
{
    let fields = Fields::of(value, at)?;
    let bucket = bucket_in(alloc, fields)?;
    Ok(bucket)
}

/// The kind of the settings of one kind of bucket.
pub struct BucketKind;

impl Kind for BucketKind {
    ghost use Rattle.quota_settings_json.specs.ReadSettings.{bucket};

    type Read = BucketSettings;

    ghost says = { bucket };

    fn read(alloc: Global, value: Value, place: Place) -> Result<BucketSettings, FormFault> {
        read_bucket(alloc, value, place)
    }
}
