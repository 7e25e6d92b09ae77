mod limits;
mod meanings;
mod refusals;
mod sharing;

use proto_json::{FormFault, parse};
use quota_bucket::Strategy;
use quota_settings_json::{read_settings, read_strategy};
use rate_types::{Place, Unit};
use std::alloc::Global;
use std::test::Fail;

// A table is a text. Each of its lines is what is read, an arrow, and what that reads as.

// A fault's number and place.
fn fault_text(alloc: Global, fault: FormFault) -> Result<String, Fail> {
    match fault {
        FormFault::Refused(refused) => Ok(format!(in alloc;
            "{} at \"{}\"",
            refused.number,
            refused.at.as_str()
        )?),
        FormFault::OutOfMemory => Ok(String::from_str(alloc, "out of memory")?),
    }
}

// What a settings file reads as: its domain, or its first fault.
fn settings_said(alloc: Global, text: &str) -> Result<String, Fail> {
    match read_settings(alloc, text.as_bytes()) {
        Ok(settings) => Ok(String::from_str(alloc, settings.domain().as_str())?),
        Err(fault) => fault_text(alloc, fault),
    }
}

// What settings with one bucket of these fields read as.
fn bucket_said(alloc: Global, fields: &str) -> Result<String, Fail> {
    let text = format!(in alloc; r#"{{"domain":"q","buckets":[{{{fields}}}]}}"#)?;
    settings_said(alloc, &text)
}

// A unit's name.
fn unit_text(unit: Unit) -> &'static str {
    match unit {
        Unit::Second => "second",
        Unit::Minute => "minute",
        Unit::Hour => "hour",
        Unit::Day => "day",
    }
}

// A strategy in words.
fn strategy_text(alloc: Global, strategy: &Strategy) -> Result<String, Fail> {
    match strategy {
        Strategy::AllowAll => Ok(String::from_str(alloc, "all")?),
        Strategy::DenyAll => Ok(String::from_str(alloc, "none")?),
        Strategy::PerUnit { count, unit } => {
            Ok(format!(in alloc; "{count} a {}", unit_text(*unit))?)
        }
        Strategy::TokenBucket {
            max,
            per_fill,
            interval,
        } => Ok(format!(in alloc; "{max} tokens, {per_fill} each {} ms", interval.get())?),
    }
}

// What a strategy at `/s` reads as.
fn strategy_in(alloc: Global, text: &str) -> Result<Strategy, FormFault> {
    let value = parse(alloc, text.as_bytes())?;
    read_strategy(value, Place::empty(alloc).child("s")?)
}

// What a strategy at `/s` reads as, in words, or its first fault.
fn strategy_said(alloc: Global, text: &str) -> Result<String, Fail> {
    match strategy_in(alloc, text) {
        Ok(strategy) => strategy_text(alloc, &strategy),
        Err(fault) => fault_text(alloc, fault),
    }
}
