ghost use Rattle.std.specs.Prelude.{Some};
ghost use Rattle.serde_json.specs.View.{view};
ghost use Rattle.rate_types.specs.Reading.{AnswersReading};
ghost use Rattle.proto_json.specs.Said.{reading_of};
ghost use Rattle.proto_json.specs.Document.{document};

use crate::FormFault;
use rate_types::refusals::BAD_JSON;
use rate_types::{Place, Refused};
use serde_json::Value;
use std::alloc::Global;

/// The JSON value that the bytes are (RFC 8259, as `serde_json` reads it). Bytes that are no JSON are refused with 1
/// BadJson at the empty place.
#[tactic(auto, unfolding(crate::specs::Document::document))]
pub fn parse(alloc: Global, bytes: &[u8]) -> Result<Value, FormFault>
    ensures { AnswersReading (λ v. Some (view v)) result (reading_of (document bytes.now)) }
{
    match Value::from_slice(alloc, bytes) {
        Ok(value) => Ok(value),
        Err(error) => {
            if error.is_memory() {
                Err(FormFault::OutOfMemory)
            } else {
                Err(FormFault::Refused(Refused {
                    at: Place::empty(alloc),
                    number: BAD_JSON,
                }))
            }
        }
    }
}
