mod limits;
mod meanings;
mod refusals;

use proto_json::FormFault;
use quota_bucket::Strategy;
use quota_lines::{
    BucketAction, Connection, QuotaAction, StreamEvent, StreamLine, read_stream_line,
};
use quota_settings::Pair;
use rate_types::{Millis, Unit};
use std::alloc::Global;
use std::test::Fail;

// A table is a text. Each of its lines is what is read, an arrow, and what that reads as.

// A fault's number and place.
fn fault_text(alloc: Global, fault: FormFault) -> Result<String, Fail> {
    match fault {
        FormFault::Refused(refused) => Ok(format!(in alloc;
            "{} at \"{}\"",
            refused.number,
            refused.at.as_str()
        )?),
        FormFault::OutOfMemory => Ok(String::from_str(alloc, "out of memory")?),
    }
}

// Pairs, each before a blank.
fn pairs_text(alloc: Global, pairs: &[Pair]) -> Result<String, Fail> {
    let mut text = String::new(alloc);
    for pair in pairs {
        let pair = format!(in alloc; " {}={}", pair.name.as_str(), pair.value.as_str())?;
        text.push_str(&pair)?;
    }
    Ok(text)
}

// A unit's name.
fn unit_text(unit: Unit) -> &'static str {
    match unit {
        Unit::Second => "second",
        Unit::Minute => "minute",
        Unit::Hour => "hour",
        Unit::Day => "day",
    }
}

// A strategy in words.
fn strategy_text(alloc: Global, strategy: &Strategy) -> Result<String, Fail> {
    match strategy {
        Strategy::AllowAll => Ok(String::from_str(alloc, "all")?),
        Strategy::DenyAll => Ok(String::from_str(alloc, "none")?),
        Strategy::PerUnit { count, unit } => {
            Ok(format!(in alloc; "{count} a {}", unit_text(*unit))?)
        }
        Strategy::TokenBucket {
            max,
            per_fill,
            interval,
        } => Ok(format!(in alloc; "{max} tokens, {per_fill} each {} ms", interval.get())?),
    }
}

// A lifetime in words.
fn lifetime_text(alloc: Global, lifetime: Option<Millis>) -> Result<String, Fail> {
    match lifetime {
        Some(lifetime) => Ok(format!(in alloc; "for {} ms", lifetime.get())?),
        None => Ok(String::from_str(alloc, "for ever")?),
    }
}

// An action in words.
fn action_text(alloc: Global, action: &BucketAction) -> Result<String, Fail> {
    let bucket = pairs_text(alloc, action.bucket().items())?;
    match action.action() {
        QuotaAction::Abandon => Ok(format!(in alloc; "{bucket} abandoned;")?),
        QuotaAction::Assign { lifetime, strategy } => {
            let lifetime = lifetime_text(alloc, lifetime)?;
            let strategy = strategy_text(alloc, &strategy)?;
            Ok(format!(in alloc; "{bucket} assigned {strategy} {lifetime};")?)
        }
    }
}

// Actions in words.
fn actions_text(alloc: Global, actions: &[BucketAction]) -> Result<String, Fail> {
    let mut text = String::new(alloc);
    for action in actions {
        let action = action_text(alloc, action)?;
        text.push_str(&action)?;
    }
    Ok(text)
}

// An event in words.
fn event_text(alloc: Global, event: &StreamEvent) -> Result<String, Fail> {
    match event {
        StreamEvent::Request(attributes) => {
            let pairs = pairs_text(alloc, attributes.items())?;
            Ok(format!(in alloc; "request{pairs}")?)
        }
        StreamEvent::Response(actions) => {
            let actions = actions_text(alloc, actions.items())?;
            Ok(format!(in alloc; "response{actions}")?)
        }
        StreamEvent::Connection(Connection::Lost) => Ok(String::from_str(alloc, "lost")?),
        StreamEvent::Connection(Connection::Up) => Ok(String::from_str(alloc, "up")?),
        StreamEvent::Passes => Ok(String::from_str(alloc, "no event")?),
    }
}

// A line in words.
fn line_text(alloc: Global, line: &StreamLine) -> Result<String, Fail> {
    let event = event_text(alloc, &line.event)?;
    Ok(format!(in alloc; "{} ms: {event}", line.at.get())?)
}

// What a line reads as, in words, or its first fault.
fn line_said(alloc: Global, text: &str) -> Result<String, Fail> {
    match read_stream_line(alloc, text.as_bytes()) {
        Ok(line) => line_text(alloc, &line),
        Err(fault) => fault_text(alloc, fault),
    }
}

// What a line with this event reads as.
fn event_said(alloc: Global, event: &str) -> Result<String, Fail> {
    let text = format!(in alloc; r#"{{"at":"0s",{event}}}"#)?;
    line_said(alloc, &text)
}

// What a message of the quota server with this one action reads as; a fault's place is that within the action.
fn action_said(alloc: Global, action: &str) -> Result<String, Fail> {
    let event = format!(in alloc; r#""response":{{"bucketAction":[{action}]}}"#)?;
    let said = event_said(alloc, &event)?;
    Ok(said.replacen(alloc, "/response/bucketAction/0", "", 1)?)
}
