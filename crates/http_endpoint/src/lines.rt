// The lines that serving prints, each without its line feed.
ghost use Rattle.std.specs.Prelude.{◌≡◌, false, IfOk, string_bytes};
ghost use Rattle.serde_json.specs.View.{view};
ghost use Rattle.serde_json.specs.Written.{has_float};
ghost use Rattle.http_endpoint.specs.ServeLines as lines;

use crate::{LinkCause, LinkEnd};
use rate_types::OutOfMemory;
use serde_json::{Value, json};
use std::alloc::{AllocError, Global};

// The name of a cause.
fn cause_name(cause: LinkCause) -> &'static str
    ensures { result.now ≡ lines.cause_name cause }
{
    match cause {
        LinkCause::Closed => "CLOSED",
        LinkCause::Ended => "ENDED",
        LinkCause::CutShort => "CUT_SHORT",
        LinkCause::ReadFault => "READ_FAULT",
        LinkCause::WriteFault => "WRITE_FAULT",
    }
}

#[tactic(auto, unfolding(crate::specs::ServeLines::listening_data))]
fn listening_value(alloc: Global, port: u16) -> Result<Value, AllocError>
    ensures value { IfOk result (λ v. view v ≡ lines.listening_data port) }
    ensures whole { IfOk result (λ v. has_float (view v) ≡ false) }
{
    json!(in alloc; {"listening": port})
}

#[tactic(auto, unfolding(crate::specs::ServeLines::link_end_data))]
fn link_end_value(
    alloc: Global,
    answers: u32,
    connection: u32,
    cause: &str,
) -> Result<Value, AllocError>
    ensures value { IfOk result (λ v. view v ≡ lines.link_end_data answers connection cause.now) }
    ensures whole { IfOk result (λ v. has_float (view v) ≡ false) }
{
    json!(in alloc; {"answers": answers, "connection": connection, "end": cause})
}

/// The line that says at which port connections are taken.
pub fn listening_line(alloc: Global, port: u16) -> Result<String, OutOfMemory>
    ensures { IfOk result (λ t. string_bytes t ≡ lines.listening_line port) }
{
    let value = listening_value(alloc, port)?;
    let text = value.to_string(alloc)?;
    Ok(text)
}

/// The line that says how a connection ended, with its number from 0.
pub fn link_end_line(
    alloc: Global,
    connection: u32,
    link_end: LinkEnd,
) -> Result<String, OutOfMemory>
    ensures { IfOk result (λ t. string_bytes t ≡ lines.link_end_line connection link_end) }
{
    let cause = cause_name(link_end.cause);
    let value = link_end_value(alloc, link_end.answers, connection, cause)?;
    let text = value.to_string(alloc)?;
    Ok(text)
}
