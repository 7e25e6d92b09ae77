use crate::settings::{bucket_said, settings_said, strategy_said};
use std::alloc::Global;
use std::test::Fail;

const SETTINGS: &str = r#" => 1 at ""
[] => 2 at ""
{} => 10 at ""
{"domain":""} => 10 at ""
{"domain":5} => 5 at "/domain"
{"domain":"q"} => q
{"domain":"q","buckets":null} => q
{"domain":"q","buckets":{}} => 5 at "/buckets"
{"domain":"q","buckets":[null]} => 2 at "/buckets/0"
{"y":1,"x":1} => 3 at "/x"
{"domain":"q","buckets":[{"bucketIdBuilder":{"bucketIdBuilder":{"name":{"stringValue":"b"}}}}]} => 31 at "/buckets/0"
{"domain":"q","buckets":[{"bucketIdBuilder":{"bucketIdBuilder":{"name":{"stringValue":"b"}}},"reportingInterval":"5s"},{"x":1}]} => 3 at "/buckets/1/x""#;

#[test]
fn settings_are_refused_at_their_first_fault(rt: HostRuntime) -> Result<(), Fail> {
    for row in SETTINGS.lines() {
        let (text, want) = row.split_once(" => ").ok_or("a row")?;
        let found = settings_said(rt.alloc(), text)?;
        assert_eq!(rt; found.as_str(), want, "at {text}");
    }
    Ok(())
}

const BUCKETS: &str = r#" => 31 at "/buckets/0"
"reportingInterval":"0s" => 31 at "/buckets/0"
"reportingInterval":"5s" => 32 at "/buckets/0"
"reporting_interval":"5s","bucketIdBuilder":{} => 32 at "/buckets/0"
"reportingInterval":"5s","bucketIdBuilder":{"bucketIdBuilder":{}} => 32 at "/buckets/0"
"reportingInterval":"5","bucketIdBuilder":{"x":1} => 3 at "/buckets/0/bucketIdBuilder/x"
"bucketIdBuilder":null,"bucket_id_builder":{} => 4 at "/buckets/0/bucketIdBuilder"
"bucket_id_builder":{"bucketIdBuilder":[]} => 2 at "/buckets/0/bucket_id_builder/bucketIdBuilder"
"reportingInterval":5 => 5 at "/buckets/0/reportingInterval"
"reportingInterval":"5" => 40 at "/buckets/0/reportingInterval"
"reportingInterval":"1.0001s" => 41 at "/buckets/0/reportingInterval"
"reportingInterval":"1000000001s" => 42 at "/buckets/0/reportingInterval"
"match":"x" => 2 at "/buckets/0/match"
"match":{"b":1,"a":2} => 5 at "/buckets/0/match/a"
"match":{"a":null} => 5 at "/buckets/0/match/a"
"match":{"a/b":1} => 5 at "/buckets/0/match/a~1b""#;

#[test]
fn buckets_are_refused_at_their_first_fault(rt: HostRuntime) -> Result<(), Fail> {
    for row in BUCKETS.lines() {
        let (fields, want) = row.split_once(" => ").ok_or("a row")?;
        let found = bucket_said(rt.alloc(), fields)?;
        assert_eq!(rt; found.as_str(), want, "at {fields}");
    }
    Ok(())
}

const BEHAVIORS: &str =
    r#""noAssignmentBehavior":{"fallbackRateLimit":{"blanketRule":"ALLOW_ALL","tokenBucket":{"maxTokens":1,"fillInterval":"1s"}}} => 34 at "/buckets/0/noAssignmentBehavior/fallbackRateLimit"
"noAssignmentBehavior":{"fallbackRateLimit":{"tokenBucket":{"fillInterval":"1s"}}} => 44 at "/buckets/0/noAssignmentBehavior/fallbackRateLimit/tokenBucket"
"noAssignmentBehavior":{"x":1} => 3 at "/buckets/0/noAssignmentBehavior/x"
"expiredAssignmentBehavior":{"expiredAssignmentBehaviorTimeout":"0s"} => 47 at "/buckets/0/expiredAssignmentBehavior"
"expired_assignment_behavior":{"expired_assignment_behavior_timeout":"0s","fallback_rate_limit":{},"reuse_last_assignment":{}} => 34 at "/buckets/0/expired_assignment_behavior"
"expiredAssignmentBehavior":{"reuseLastAssignment":{"x":1}} => 3 at "/buckets/0/expiredAssignmentBehavior/reuseLastAssignment/x"
"expiredAssignmentBehavior":{"reuseLastAssignment":[]} => 2 at "/buckets/0/expiredAssignmentBehavior/reuseLastAssignment""#;

#[test]
fn behaviors_are_refused_at_their_first_fault(rt: HostRuntime) -> Result<(), Fail> {
    for row in BEHAVIORS.lines() {
        let (fields, want) = row.split_once(" => ").ok_or("a row")?;
        let found = bucket_said(rt.alloc(), fields)?;
        assert_eq!(rt; found.as_str(), want, "at {fields}");
    }
    Ok(())
}

const PARTS: &str = r#"{"stringValue":""} => q
{"attribute":""} => q
{"string_value":"b","attribute":null} => q
{} => 33 at ""
{"stringValue":"","attribute":""} => 33 at ""
null => 2 at ""
{"attribute":1} => 5 at "/attribute"
{"stringValue":"b","x":1} => 3 at "/x""#;

// What settings read as whose bucket's name has this one part; a fault's place is that within the part.
fn part_said(alloc: Global, part: &str) -> Result<String, Fail> {
    let fields = format!(in alloc;
        r#""reportingInterval":"5s","bucketIdBuilder":{{"bucketIdBuilder":{{"n":{part}}}}}"#
    )?;
    let said = bucket_said(alloc, &fields)?;
    Ok(said.replacen(alloc, "/buckets/0/bucketIdBuilder/bucketIdBuilder/n", "", 1)?)
}

#[test]
fn a_part_has_one_of_its_two_fields(rt: HostRuntime) -> Result<(), Fail> {
    for row in PARTS.lines() {
        let (part, want) = row.split_once(" => ").ok_or("a row")?;
        let found = part_said(rt.alloc(), part)?;
        assert_eq!(rt; found.as_str(), want, "at {part}");
    }
    Ok(())
}

const STRATEGIES: &str = r#"null => 2 at "/s"
{"x":1} => 3 at "/s/x"
{"blanketRule":1} => 5 at "/s/blanketRule"
{"blanket_rule":"allow_all"} => 8 at "/s/blanket_rule"
{"blanketRule":"DENY_ALL","blanket_rule":"DENY_ALL"} => 4 at "/s/blanketRule"
{"requestsPerTimeUnit":{"requestsPerTimeUnit":2}} => 14 at "/s/requestsPerTimeUnit"
{"requestsPerTimeUnit":{"timeUnit":"UNKNOWN"}} => 14 at "/s/requestsPerTimeUnit"
{"requestsPerTimeUnit":{"timeUnit":"WEEK"}} => 8 at "/s/requestsPerTimeUnit/timeUnit"
{"requestsPerTimeUnit":{"requestsPerTimeUnit":1.5}} => 6 at "/s/requestsPerTimeUnit/requestsPerTimeUnit"
{"requests_per_time_unit":{"requests_per_time_unit":"18446744073709551616"}} => 7 at "/s/requests_per_time_unit/requests_per_time_unit"
{"tokenBucket":{"fillInterval":"1s"}} => 44 at "/s/tokenBucket"
{"tokenBucket":{"maxTokens":0,"tokensPerFill":0}} => 44 at "/s/tokenBucket"
{"tokenBucket":{"maxTokens":2,"tokensPerFill":0,"fillInterval":"1s"}} => 45 at "/s/tokenBucket"
{"tokenBucket":{"maxTokens":2}} => 46 at "/s/tokenBucket"
{"tokenBucket":{"maxTokens":2,"fillInterval":"0s"}} => 46 at "/s/tokenBucket"
{"token_bucket":{"max_tokens":4294967296}} => 7 at "/s/token_bucket/max_tokens"
{"requestsPerTimeUnit":{"timeUnit":"DAY"},"tokenBucket":{"maxTokens":2,"fillInterval":"1s"}} => 34 at "/s""#;

#[test]
fn strategies_are_refused_at_their_first_fault(rt: HostRuntime) -> Result<(), Fail> {
    for row in STRATEGIES.lines() {
        let (text, want) = row.split_once(" => ").ok_or("a row")?;
        let found = strategy_said(rt.alloc(), text)?;
        assert_eq!(rt; found.as_str(), want, "at {text}");
    }
    Ok(())
}
