use crate::settings::{strategy_said, strategy_text};
use proto_json::{FormFault, parse};
use quota_bucket::{AtExpiry, BucketRules};
use quota_settings::{Attributes, BucketId, Settings};
use quota_settings_json::{read_attributes, read_settings};
use rate_types::{Millis, Place};
use std::alloc::Global;
use std::test::Fail;

const STRATEGIES: &str = r#"{} => all
{"blanketRule":"ALLOW_ALL"} => all
{"blanketRule":"DENY_ALL","tokenBucket":null} => none
{"requestsPerTimeUnit":{"requestsPerTimeUnit":"18446744073709551615","timeUnit":"hour"}} => 18446744073709551615 a hour
{"requests_per_time_unit":{"time_unit":"DAY"}} => 0 a day
{"tokenBucket":{"maxTokens":2,"fillInterval":"1.500s"}} => 2 tokens, 1 each 1500 ms
{"token_bucket":{"max_tokens":"3","tokens_per_fill":5,"fill_interval":"1.5s"}} => 3 tokens, 5 each 1500 ms"#;

#[test]
fn strategies_are_what_they_spell(rt: HostRuntime) -> Result<(), Fail> {
    for row in STRATEGIES.lines() {
        let (text, want) = row.split_once(" => ").ok_or("a row")?;
        let found = strategy_said(rt.alloc(), text)?;
        assert_eq!(rt; found.as_str(), want, "at {text}");
    }
    Ok(())
}

// The attributes of a text.
fn attributes_in(alloc: Global, text: &str) -> Result<Attributes, FormFault> {
    let value = parse(alloc, text.as_bytes())?;
    read_attributes(alloc, value, Place::empty(alloc))
}

// A bucket's name as a text.
fn name_text(alloc: Global, id: &BucketId) -> Result<String, Fail> {
    let mut text = String::new(alloc);
    for pair in id.items() {
        let pair = format!(in alloc; "{}={}; ", pair.name.as_str(), pair.value.as_str())?;
        text.push_str(&pair)?;
    }
    Ok(text)
}

// What happens at expiry, in words.
fn expiry_text(alloc: Global, expired: &AtExpiry) -> Result<String, Fail> {
    match expired {
        AtExpiry::Abandon => Ok(String::from_str(alloc, "erased")?),
        AtExpiry::Reuse => Ok(String::from_str(alloc, "the same")?),
        AtExpiry::Fallback(strategy) => strategy_text(alloc, strategy),
    }
}

// The end of an expired behaviour, in words.
fn timeout_text(alloc: Global, timeout: Option<Millis>) -> Result<String, Fail> {
    match timeout {
        Some(timeout) => Ok(format!(in alloc; "for {} ms", timeout.get())?),
        None => Ok(String::from_str(alloc, "without end")?),
    }
}

// A bucket's rules in words.
fn rules_text(alloc: Global, rules: &BucketRules) -> Result<String, Fail> {
    let first = strategy_text(alloc, &rules.unassigned)?;
    let then = expiry_text(alloc, &rules.expired)?;
    let end = timeout_text(alloc, rules.timeout)?;
    let each = rules.reporting.get();
    Ok(format!(in alloc; "each {each} ms, {first}, {then} {end}")?)
}

// A bucket's name and rules.
fn bucket_text(alloc: Global, id: &BucketId, rules: &BucketRules) -> Result<String, Fail> {
    let name = name_text(alloc, id)?;
    let rules = rules_text(alloc, rules)?;
    Ok(format!(in alloc; "{name}{rules}")?)
}

// The bucket that settings give these attributes, if they give one.
fn covered(alloc: Global, settings: &Settings, attributes: &str) -> Result<String, Fail> {
    let Ok(attributes) = attributes_in(alloc, attributes) else {
        return Ok(String::from_str(alloc, "no attributes")?);
    };
    match settings.covering(&attributes) {
        Some(bucket) => match bucket.id_of(alloc, &attributes) {
            Ok(id) => bucket_text(alloc, &id, bucket.rules()),
            Err(_) => Ok(String::from_str(alloc, "out of memory")?),
        },
        None => Ok(String::from_str(alloc, "no bucket")?),
    }
}

const WHOLE: &str = r#"{"domain":"q","buckets":[
{"match":{"team":"a","env":"prod"},
 "bucketIdBuilder":{"bucketIdBuilder":{"name":{"stringValue":"b"},"env":{"attribute":"env"}}},
 "reportingInterval":"5s",
 "noAssignmentBehavior":{"fallbackRateLimit":{"requestsPerTimeUnit":{"requestsPerTimeUnit":"2","timeUnit":"minute"}}},
 "expiredAssignmentBehavior":{"expiredAssignmentBehaviorTimeout":"3s","reuseLastAssignment":{}}},
{"match":{"env":"test"},
 "bucket_id_builder":{"bucket_id_builder":{"name":{"string_value":"t"}}},
 "reporting_interval":"1.500s",
 "no_assignment_behavior":{"fallback_rate_limit":{"blanket_rule":"DENY_ALL"}},
 "expired_assignment_behavior":{"fallback_rate_limit":{}}},
{"bucketIdBuilder":{"bucketIdBuilder":{"name":{"stringValue":"rest"},"user":{"attribute":"user"}}},
 "reportingInterval":"0.001s"}]}"#;

const COVERED: &str =
    r#"{"env":"prod","team":"a","x":"y"} => env=prod; name=b; each 5000 ms, 2 a minute, the same for 3000 ms
{"env":"test"} => name=t; each 1500 ms, none, all without end
{"env":"prod","user":"u"} => name=rest; user=u; each 1 ms, all, erased without end
{} => no bucket"#;

#[test]
fn settings_are_what_they_spell(rt: HostRuntime) -> Result<(), Fail> {
    let alloc = rt.alloc();
    let settings = read_settings(alloc, WHOLE.as_bytes())
        .ok()
        .ok_or("settings")?;
    assert_eq!(rt; settings.domain().as_str(), "q");
    for row in COVERED.lines() {
        let (attributes, want) = row.split_once(" => ").ok_or("a row")?;
        let found = covered(alloc, &settings, attributes)?;
        assert_eq!(rt; found.as_str(), want, "at {attributes}");
    }
    Ok(())
}

#[test]
fn a_copy_of_settings_is_equal(rt: HostRuntime) -> Result<(), Fail> {
    let alloc = rt.alloc();
    let settings = read_settings(alloc, WHOLE.as_bytes())
        .ok()
        .ok_or("settings")?;
    let copy = settings.copy(alloc).ok().ok_or("memory")?;
    assert_eq!(rt; copy.domain().as_str(), "q");
    for row in COVERED.lines() {
        let (attributes, want) = row.split_once(" => ").ok_or("a row")?;
        let found = covered(alloc, &copy, attributes)?;
        assert_eq!(rt; found.as_str(), want, "at {attributes}");
    }
    Ok(())
}
