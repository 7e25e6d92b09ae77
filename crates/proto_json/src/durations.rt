ghost use Rattle.std.specs.Prelude.{Some};
ghost use Rattle.serde_json.specs.View.{view};
ghost use Rattle.rate_types.specs.Reading.{AnswersReading};
ghost use Rattle.proto_json.specs.Said.{reading_of};
ghost use Rattle.proto_json.specs.Kinds as kinds;

use crate::FormFault;
use crate::kinds::{duration_refusal, into_text};
use rate_types::refusals::WRONG_KIND;
use rate_types::{Millis, Place, Refused};
use serde_json::Value;

/// The milliseconds of a value that is a duration, as `34s` or `1.500s`. Another text is refused at its place with 40
/// BadDuration, 42 DurationTooLong or 41 TooFine, tried in this order, a value that is no text with 5 WrongKind.
#[tactic(auto, unfolding(crate::specs::Kinds::duration))]
pub fn read_duration(value: Value, at: Place) -> Result<Millis, FormFault>
    ensures { AnswersReading (λ m. Some m) result (reading_of (kinds.duration at (view value))) }
{
    let Some(text) = into_text(value) else {
        return Err(FormFault::Refused(Refused {
            at,
            number: WRONG_KIND,
        }));
    };
    match rate_types::read_duration(&text) {
        Ok(millis) => Ok(millis),
        Err(fault) => Err(FormFault::Refused(Refused {
            at,
            number: duration_refusal(fault),
        })),
    }
}
