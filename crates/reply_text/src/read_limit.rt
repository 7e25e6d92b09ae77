ghost use Rattle.std.specs.Prelude.{◌≡◌, Some};
ghost use Rattle.rate_types.specs.Reading.{AnswersReading};
ghost use Rattle.proto_json.specs.Said.{reading_of};
ghost use Rattle.proto_json.specs.Held.{object_of, Takes};
ghost use Rattle.reply_text.specs.FieldNames as names;
ghost use Rattle.reply_text.specs.ReadRequest as reading;

use crate::field_names::{LIMIT, REQUESTS_PER_UNIT, UNIT};
use proto_json::{Fields, FormFault};
use rate_types::refusals::UNIT_MISSING;
use rate_types::{OwnLimit, Place, Refused, Unit};

// The limit of this number and this unit.
fn limit_of(at: Place, limit: u32, unit: Option<Unit>) -> Result<OwnLimit, FormFault>
    ensures { AnswersReading (λ l. Some l) result (reading_of (reading.limit_rules at limit unit)) }
{
    match unit {
        Some(unit) => Ok(OwnLimit { limit, unit }),
        None => Err(FormFault::Refused(Refused {
            at,
            number: UNIT_MISSING,
        })),
    }
}

// The limit of its fields.
#[tactic(auto, using(proto_json::specs::Laws::reading_then), unfolding(crate::specs::ReadRequest::limit_in))]
fn limit_in(mut fields: Fields) -> Result<OwnLimit, FormFault>
    ensures { AnswersReading (λ l. Some l) result (reading_of (reading.limit_in (object_of fields))) }
{
    let limit = fields.take_u32(REQUESTS_PER_UNIT)?;
    let unit = fields.take_unit(UNIT)?;
    let at = fields.end()?;
    let limit = limit_of(at, limit.unwrap_or(0), unit)?;
    Ok(limit)
}

/// Takes a descriptor's own limit.
#[tactic(auto, using(proto_json::specs::Laws::take_and_read))]
pub fn take_limit(fields: &mut Fields) -> Result<Option<OwnLimit>, FormFault>
    ensures { Takes (λ o. o) reading.limit_kind names.limit
        (object_of fields.old) result (object_of fields.new) }
{
    match fields.take_fields(LIMIT)? {
        Some(limit) => {
            let limit = limit_in(limit)?;
            Ok(Some(limit))
        }
        None => Ok(None),
    }
}
