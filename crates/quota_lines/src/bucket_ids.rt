ghost use Rattle.std.specs.Prelude.{◌≡◌, Some};
ghost use Rattle.proto_json.specs.Held.{object_of, Takes};
ghost use Rattle.rate_types.specs.Reading.{AnswersReading};
ghost use Rattle.proto_json.specs.Said.{reading_of};
ghost use Rattle.quota_lines.specs.FieldNames as names;
ghost use Rattle.quota_lines.specs.ReadBucketId as reading;

use crate::field_names::{BUCKET, BUCKET_ID};
use proto_json::{Fields, FormFault};
use quota_settings::Attributes;
use quota_settings_json::take_attributes;
use std::alloc::Global;

// The names of an id with their values.
#[tactic(auto, using(proto_json::specs::Laws::reading_then), unfolding(crate::specs::ReadBucketId::bucket_id_in))]
fn bucket_id_in(alloc: Global, mut fields: Fields) -> Result<Attributes, FormFault>
    ensures { AnswersReading (λ pairs. Some pairs) result (reading_of (reading.bucket_id_in (object_of fields))) }
{
    let pairs = take_attributes(alloc, &mut fields, BUCKET)?;
    let _ = fields.end()?;
    Ok(pairs.unwrap_or(Attributes::sorted(Vec::new(alloc))))
}

/// Takes the field with the id of a bucket: its names with their values, of which there are none where they are absent.
/// They are refused as attributes are.
#[tactic(auto, using(proto_json::specs::Laws::take_and_read))]
pub fn take_bucket_id(alloc: Global, fields: &mut Fields) -> Result<Option<Attributes>, FormFault>
    ensures { Takes (λ o. o) reading.bucket_id names.bucket_id
        (object_of fields.old) result (object_of fields.new) }
{
    match fields.take_fields(BUCKET_ID)? {
        Some(id) => {
            let pairs = bucket_id_in(alloc, id)?;
            Ok(Some(pairs))
        }
        None => Ok(None),
    }
}
