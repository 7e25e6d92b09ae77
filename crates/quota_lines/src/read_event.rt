ghost use Rattle.std.specs.Prelude.{◌≡◌, Some, option_map};
ghost use Rattle.serde_json.specs.View.{view};
ghost use Rattle.proto_json.specs.Held.{object_of, Takes};
ghost use Rattle.rate_types.specs.Reading.{AnswersReading};
ghost use Rattle.proto_json.specs.Said.{reading_of};
ghost use Rattle.quota_lines.specs.FieldNames as names;
ghost use Rattle.quota_lines.specs.ReadEvent as reading;

use crate::bucket_action::{BucketAction, BucketActions};
use crate::field_names::{ATTRIBUTES, BUCKET_ACTION};
use crate::read_action::ActionKind;
use crate::stream_line::{Connection, StreamEvent};
use proto_json::{Fields, FormFault, Placed, read_items};
use quota_settings::Attributes;
use quota_settings_json::take_attributes;
use rate_types::refusals::{UNKNOWN_NAME, WRONG_KIND};
use rate_types::{Place, Refused};
use std::alloc::Global;

// The request of its fields.
#[tactic(auto, using(proto_json::specs::Laws::reading_then), unfolding(crate::specs::ReadEvent::request_in))]
fn request_in(alloc: Global, mut fields: Fields) -> Result<StreamEvent, FormFault>
    ensures { AnswersReading (λ e. Some e) result (reading_of (reading.request_in (object_of fields))) }
{
    let attributes = take_attributes(alloc, &mut fields, ATTRIBUTES)?;
    let _ = fields.end()?;
    let attributes = attributes.unwrap_or(Attributes::sorted(Vec::new(alloc)));
    Ok(StreamEvent::Request(attributes))
}

/// Reads a request.
#[tactic(auto, using(proto_json::specs::Laws::reading_then), unfolding(proto_json::specs::Kinds::and_read))]
pub fn read_request(alloc: Global, request: Placed) -> Result<StreamEvent, FormFault>
    ensures { AnswersReading (λ e. Some e) result (reading_of (reading.request request.place (view request.value))) }
{
    let fields = Fields::of(request.value, request.place)?;
    let event = request_in(alloc, fields)?;
    Ok(event)
}

// Takes the list of actions.
#[tactic(auto, using(proto_json::specs::Laws::take_and_read))]
fn take_actions(alloc: Global, fields: &mut Fields) -> Result<Option<Vec<BucketAction>>, FormFault>
    ensures { Takes (option_map (λ v. v.items)) reading.actions names.bucket_action
        (object_of fields.old) result (object_of fields.new) }
{
    match fields.take_list(BUCKET_ACTION)? {
        Some(list) => {
            let actions = read_items::<ActionKind>(alloc, list)?;
            Ok(Some(actions))
        }
        None => Ok(None),
    }
}

// The server's message of its fields.
#[tactic(auto, using(proto_json::specs::Laws::reading_then), unfolding(crate::specs::ReadEvent::response_in))]
fn response_in(alloc: Global, mut fields: Fields) -> Result<StreamEvent, FormFault>
    ensures { AnswersReading (λ e. Some e) result (reading_of (reading.response_in (object_of fields))) }
{
    let actions = take_actions(alloc, &mut fields)?;
    let _ = fields.end()?;
    let actions = actions.unwrap_or(Vec::new(alloc));
    Ok(StreamEvent::Response(BucketActions::of(actions)))
}

/// Reads a message of the quota server.
#[tactic(auto, using(proto_json::specs::Laws::reading_then), unfolding(proto_json::specs::Kinds::and_read))]
pub fn read_response(alloc: Global, response: Placed) -> Result<StreamEvent, FormFault>
    ensures { AnswersReading (λ e. Some e) result (reading_of (reading.response response.place (view response.value))) }
{
    let fields = Fields::of(response.value, response.place)?;
    let event = response_in(alloc, fields)?;
    Ok(event)
}

// What happened to the stream, by its name.
#[tactic(auto, unfolding(crate::specs::ReadEvent::connection_named))]
fn connection_named(at: Place, name: Option<&str>) -> Result<StreamEvent, FormFault>
    ensures { AnswersReading (λ e. Some e) result
        (reading_of (reading.connection_named at (option_map (λ n. n.now) name.entry))) }
{
    match name {
        Some("LOST") => Ok(StreamEvent::Connection(Connection::Lost)),
        Some("UP") => Ok(StreamEvent::Connection(Connection::Up)),
        Some(_) => Err(FormFault::Refused(Refused {
            at,
            number: UNKNOWN_NAME,
        })),
        None => Err(FormFault::Refused(Refused {
            at,
            number: WRONG_KIND,
        })),
    }
}

/// Reads what happened to the stream.
pub fn read_connection(connection: Placed) -> Result<StreamEvent, FormFault>
    ensures { AnswersReading (λ e. Some e) result
        (reading_of (reading.connection connection.place (view connection.value))) }
{
    connection_named(connection.place, connection.value.as_str())
}
