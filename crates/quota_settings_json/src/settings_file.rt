ghost use Rattle.std.specs.Prelude.{◌≡◌, [], Some, option_map, unwrap_or};
ghost use Rattle.serde_json.specs.View.{view};
ghost use Rattle.proto_json.specs.Document.{document};
ghost use Rattle.proto_json.specs.Held.{object_of, Takes};
ghost use Rattle.rate_types.specs.Reading.{AnswersReading};
ghost use Rattle.proto_json.specs.Said.{reading_of};
ghost use Rattle.quota_settings_json.specs.FieldNames as names;
ghost use Rattle.quota_settings_json.specs.ReadSettings as reading;

use crate::field_names::{BUCKETS, DOMAIN};
use crate::read_bucket::BucketKind;
use proto_json::{Fields, FormFault, parse, read_items};
use quota_settings::{BucketSettings, Settings};
use rate_types::refusals::{EMPTY_DOMAIN, TEXT_TOO_LONG};
use rate_types::{Place, Refused, Text};
use serde_json::Value;
use std::alloc::Global;

// Takes the list of settings.
#[tactic(auto, using(proto_json::specs::Laws::take_and_read))]
fn take_buckets(
    alloc: Global,
    fields: &mut Fields,
) -> Result<Option<Vec<BucketSettings>>, FormFault>
    ensures { Takes (option_map (λ v. v.items)) reading.buckets_kind names.buckets
        (object_of fields.old) result (object_of fields.new) }
{
    match fields.take_list(BUCKETS)? {
        Some(list) => {
            let buckets = read_items::<BucketKind>(alloc, list)?;
            Ok(Some(buckets))
        }
        None => Ok(None),
    }
}

// The settings of a domain that isn't empty.
fn settings_of(at: Place, domain: Text, buckets: Vec<BucketSettings>) -> Result<Settings, FormFault>
    ensures { AnswersReading (λ s. Some s) result
        (reading_of (reading.settings_rules at domain buckets.items)) }
{
    if domain.as_str().is_empty() {
        return Err(FormFault::Refused(Refused {
            at,
            number: EMPTY_DOMAIN,
        }));
    }
    Ok(Settings::of(domain, buckets))
}

// The settings of their fields.
#[tactic(auto, using(proto_json::specs::Laws::reading_then), unfolding(crate::specs::ReadSettings::settings_in))]
fn settings_in(alloc: Global, mut fields: Fields) -> Result<Settings, FormFault>
    ensures { AnswersReading (λ s. Some s) result (reading_of (reading.settings_in (object_of fields))) }
{
    let domain = fields.take_short_text(DOMAIN, TEXT_TOO_LONG)?;
    let buckets = take_buckets(alloc, &mut fields)?;
    let at = fields.end()?;
    let domain = domain.unwrap_or(Text::empty(alloc));
    let buckets = buckets.unwrap_or(Vec::new(alloc));
    let settings = settings_of(at, domain, buckets)?;
    Ok(settings)
}

// The settings of an object at this place.
#[tactic(auto, using(proto_json::specs::Laws::reading_then), unfolding(crate::specs::ReadSettings::settings_at))]
fn settings_at(alloc: Global, value: Value, place: Place) -> Result<Settings, FormFault>
    ensures { AnswersReading (λ s. Some s) result (reading_of (reading.settings_at place (view value))) }
{
    let fields = Fields::of(value, place)?;
    let settings = settings_in(alloc, fields)?;
    Ok(settings)
}

/// Reads a settings file. It answers the settings that the file spells, or its first fault: 1 BadJson where the bytes are
/// no JSON, 10 EmptyDomain at the empty place, at a bucket 31 IntervalZero where its reporting interval is absent or 0,
/// 32 NoBucketId where its name has no part, 37 TooManyParts where it has over 32, 33 PartKind at a part that hasn't
/// exactly one of its two fields, 34 TwoOfOne at an expired behaviour with a fallback and reuse, 47 TimeoutZero at one
/// with a timeout of 0, and those of attributes, strategies and every message.
#[tactic(auto, using(proto_json::specs::Laws::reading_then), unfolding(crate::specs::ReadSettings::settings))]
pub fn read_settings(alloc: Global, bytes: &[u8]) -> Result<Settings, FormFault>
    ensures { AnswersReading (λ s. Some s) result (reading_of (reading.settings bytes.now)) }
{
    let value = parse(alloc, bytes)?;
    let settings = settings_at(alloc, value, Place::empty(alloc))?;
    Ok(settings)
}
