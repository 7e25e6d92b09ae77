ghost use Rattle.std.specs.Prelude.{Some, string_bytes};
ghost use Rattle.serde_json.specs.View.{view};
ghost use Rattle.rate_types.specs.Reading.{AnswersReading};
ghost use Rattle.proto_json.specs.Said.{reading_of};
ghost use Rattle.proto_json.specs.Kinds as kinds;

use crate::{FormFault, Kind};
use rate_types::refusals::{TEXT_TOO_LONG, WRONG_KIND};
use rate_types::{Place, Refused, Text};
use serde_json::Value;
use std::alloc::Global;

// This text, or 18 TextTooLong at its place.
fn short_text(text: String, at: Place) -> Result<Text, FormFault>
    ensures { AnswersReading (λ t. Some t) result
        (reading_of (kinds.if_short TEXT_TOO_LONG at (Some (string_bytes text)))) }
{
    match Text::of(text) {
        Some(text) => Ok(text),
        None => Err(FormFault::Refused(Refused {
            at,
            number: TEXT_TOO_LONG,
        })),
    }
}

/// A value that is a text of at most 1,024 bytes. A longer one is refused with 18 TextTooLong at its place, another value
/// with 5 WrongKind.
#[tactic(auto, unfolding(crate::specs::Kinds::short_text))]
pub fn read_text(value: Value, at: Place) -> Result<Text, FormFault>
    ensures { AnswersReading (λ t. Some t) result (reading_of (kinds.short_text TEXT_TOO_LONG at (view value))) }
{
    match value {
        Value::String(text) => short_text(text, at),
        _ => Err(FormFault::Refused(Refused {
            at,
            number: WRONG_KIND,
        })),
    }
}

/// The kind of texts of at most 1,024 bytes.
pub struct ShortText;

impl Kind for ShortText {
    ghost use Rattle.std.specs.Prelude.{Some};
    ghost use Rattle.rate_types.specs.declared.refusals.TheConstants.{TEXT_TOO_LONG};
    ghost use Rattle.proto_json.specs.Kinds.{short_text};

    type Read = Text;

    ghost says = { short_text TEXT_TOO_LONG };

    fn read(_: Global, value: Value, place: Place) -> Result<Text, FormFault> {
        read_text(value, place)
    }
}
