ghost use Rattle.std.specs.Prelude.{◌≡◌, Some, option_map};
ghost use Rattle.serde_json.specs.View.{view};
ghost use Rattle.proto_json.specs.Held.{object_of, placed_of};
ghost use Rattle.rate_types.specs.Reading.{AnswersReading};
ghost use Rattle.proto_json.specs.Said.{reading_of};
ghost use Rattle.proto_json.specs.Kinds as kinds;
ghost use Rattle.quota_lines.specs.Line as reading;
ghost use Rattle.quota_lines.specs.EventFields.{fields_of};

use crate::event_fields::EventFields;
use crate::field_names::{AT, CONNECTION, REQUEST, RESPONSE};
use crate::read_event::{read_connection, read_request, read_response};
use crate::stream_line::{StreamEvent, StreamLine};
use proto_json::{Fields, FormFault, Placed, parse, read_duration};
use rate_types::refusals::{NO_TIME, TWO_EVENTS};
use rate_types::{Place, Refused};
use serde_json::Value;
use std::alloc::Global;

// Whether more than one of the three events is there.
#[tactic(auto, unfolding(crate::specs::Line::has_two_events))]
fn has_two_events(events: &EventFields) -> bool
    ensures { result ≡ reading.has_two_events (fields_of events.now) }
{
    !matches!(
        (&events.request, &events.response, &events.connection),
        (None, None, _) | (Some(_), None, None) | (None, Some(_), None)
    )
}

// The value of the moment, which has to be there.
fn moment_of(place: Place, at: Option<Placed>) -> Result<Placed, FormFault>
    ensures { AnswersReading (λ v. Some (placed_of v)) result
        (reading_of (kinds.wanted NO_TIME place (option_map placed_of at))) }
{
    match at {
        Some(at) => Ok(at),
        None => Err(FormFault::Refused(Refused {
            at: place,
            number: NO_TIME,
        })),
    }
}

// The event that is there, of the values of the three.
#[tactic(auto, unfolding(crate::specs::Line::event_in))]
fn event_of(alloc: Global, events: EventFields) -> Result<StreamEvent, FormFault>
    ensures { AnswersReading (λ e. Some e) result (reading_of (reading.event_in (fields_of events))) }
{
    match (events.request, events.response, events.connection) {
        (Some(request), _, _) => read_request(alloc, request),
        (None, Some(response), _) => read_response(alloc, response),
        (None, None, Some(connection)) => read_connection(connection),
        (None, None, None) => Ok(StreamEvent::Passes),
    }
}

// The line of its fields' values.
#[tactic(auto, using(proto_json::specs::Laws::reading_then), unfolding(crate::specs::Line::line_of))]
fn line_of(alloc: Global, at: Placed, events: EventFields) -> Result<StreamLine, FormFault>
    ensures { AnswersReading (λ l. Some l) result (reading_of (reading.line_of (Some (placed_of at)) (fields_of events))) }
{
    let at = read_duration(at.value, at.place)?;
    let event = event_of(alloc, events)?;
    Ok(StreamLine { at, event })
}

// The line of its fields' values, where its own rules hold.
#[tactic(auto, using(proto_json::specs::Laws::reading_then), unfolding(crate::specs::Line::line_rules, crate::specs::Line::one_event))]
fn lawful_line(
    alloc: Global,
    place: Place,
    at: Option<Placed>,
    events: EventFields,
) -> Result<StreamLine, FormFault>
    ensures { AnswersReading (λ l. Some l) result
        (reading_of (reading.line_rules place (option_map placed_of at) (fields_of events))) }
{
    if has_two_events(&events) {
        return Err(FormFault::Refused(Refused {
            at: place,
            number: TWO_EVENTS,
        }));
    }
    let at = moment_of(place, at)?;
    let line = line_of(alloc, at, events)?;
    Ok(line)
}

// Takes the three events, unread.
#[tactic(auto, using(proto_json::specs::Laws::reading_then), unfolding(crate::specs::Line::take_events))]
fn take_events(fields: &mut Fields) -> Result<EventFields, FormFault>
    ensures { AnswersReading (λ e. (fields_of e, object_of fields.new)) result
        (reading_of (reading.take_events (object_of fields.old))) }
{
    let request = fields.take_value(REQUEST)?;
    let response = fields.take_value(RESPONSE)?;
    let connection = fields.take_value(CONNECTION)?;
    Ok(EventFields {
        request,
        response,
        connection,
    })
}

// The line of this moment and of the other fields.
#[tactic(auto, using(proto_json::specs::Laws::reading_then), unfolding(crate::specs::Line::after_moment))]
fn after_moment(
    alloc: Global,
    at: Option<Placed>,
    mut fields: Fields,
) -> Result<StreamLine, FormFault>
    ensures { AnswersReading (λ l. Some l) result
        (reading_of (reading.after_moment (option_map placed_of at) (object_of fields))) }
{
    let events = take_events(&mut fields)?;
    let place = fields.end()?;
    let line = lawful_line(alloc, place, at, events)?;
    Ok(line)
}

// The line of its fields.
#[tactic(auto, using(proto_json::specs::Laws::reading_then), unfolding(crate::specs::Line::line_in))]
fn line_in(alloc: Global, mut fields: Fields) -> Result<StreamLine, FormFault>
    ensures { AnswersReading (λ l. Some l) result (reading_of (reading.line_in (object_of fields))) }
{
    let at = fields.take_value(AT)?;
    let line = after_moment(alloc, at, fields)?;
    Ok(line)
}

// The line of an object at this place.
#[tactic(auto, using(proto_json::specs::Laws::reading_then), unfolding(crate::specs::Line::line_said))]
fn line_at(alloc: Global, value: Value, place: Place) -> Result<StreamLine, FormFault>
    ensures { AnswersReading (λ l. Some l) result (reading_of (reading.line_said place (view value))) }
{
    let fields = Fields::of(value, place)?;
    let line = line_in(alloc, fields)?;
    Ok(line)
}

/// Reads a line of a stream. It answers the line that the bytes spell, or its first fault: 1 BadJson where they are no
/// JSON, 2 NotObject, 3 UnknownField at a name that no line has, 28 TwoEvents where more than one event is there, 36 NoTime
/// where the moment is absent, and then those of the fields. At an action these are 32 NoBucketId where its bucket has no
/// name, 34 TwoOfOne where it is an assignment and an abandonment, 35 NoAction where it is neither, 37 TooManyParts where its
/// bucket has over 32 names; at a connection 8 UnknownName where it is neither LOST nor UP; and those of durations,
/// attributes, strategies and every message.
#[tactic(auto, using(proto_json::specs::Laws::reading_then), unfolding(crate::specs::Line::line))]
pub fn read_stream_line(alloc: Global, bytes: &[u8]) -> Result<StreamLine, FormFault>
    ensures { AnswersReading (λ l. Some l) result (reading_of (reading.line bytes.now)) }
{
    let value = parse(alloc, bytes)?;
    let line = line_at(alloc, value, Place::empty(alloc))?;
    Ok(line)
}
