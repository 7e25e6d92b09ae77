ghost use Rattle.std.specs.Prelude.{◌≤◌, Some, IfOk};
ghost use Rattle.serde_json.specs.View.{view};
ghost use Rattle.rate_types.specs.Reading.{AnswersReading};
ghost use Rattle.proto_json.specs.Said.{reading_of};
ghost use Rattle.proto_json.specs.Kinds as kinds;

use crate::FormFault;
use crate::kinds::whole_of;
use rate_types::{Place, Refused};
use serde_json::Value;

/// The whole number of at most the greatest that a value is, as a JSON number or a text of 1 to 20 digits. Another value is
/// refused at its place with 5 WrongKind, another number or text with 6 NumberForm, a whole number below 0 or above the
/// greatest with 7 NumberRange.
#[tactic(auto, unfolding(crate::specs::Kinds::whole))]
pub fn read_whole(value: Value, at: Place, greatest: u64) -> Result<u64, FormFault>
    ensures said { AnswersReading (λ n. Some n) result (reading_of (kinds.whole greatest at (view value))) }
    ensures bound { IfOk result (λ n. n ≤ greatest) }
{
    match whole_of(&value, greatest) {
        Ok(n) => Ok(n),
        Err(number) => Err(FormFault::Refused(Refused { at, number })),
    }
}
