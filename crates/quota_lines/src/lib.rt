//! Recorded streams between a client and its quota server: what each line of them reads as.
//!
//! A stream is lines of JSON, each with its moment and at most one event: a request, a message of the quota server, or the
//! loss or return of the stream. `read_stream_line` answers the line that the bytes spell, or the first of all its faults
//! with its place and its number. `specs/Line.antt`, `ReadEvent.antt` and `ReadAction.antt` say what a line says, field by
//! field, both spellings of each.
//!
//! Limits: those of `proto_json`; a moment and a lifetime are at most 1,000,000,000 seconds. That moments don't fall from
//! line to line is no matter of one line.
#![tactic(auto)]

mod bucket_action;
mod bucket_ids;
mod event_fields;
mod field_names;
mod quota_action;
mod read_action;
mod read_event;
mod read_line;
mod stream_line;

pub use bucket_action::{BucketAction, BucketActions};
pub use bucket_ids::take_bucket_id;
pub use quota_action::QuotaAction;
pub use read_line::read_stream_line;
pub use stream_line::{Connection, StreamEvent, StreamLine};
