use super::{replayed, settings_with};
use std::test::Fail;

// A bucket that is assigned twice a second while its stream is lost and comes back.
pub const RENEWED: &str = r#"{"at":"0s","request":{}}
{"at":"1s","response":{"bucketAction":[{"bucketId":{"bucket":{"name":"b"}},"quotaAssignmentAction":{"assignmentTimeToLive":"10s","rateLimitStrategy":{"requestsPerTimeUnit":{"requestsPerTimeUnit":"2","timeUnit":"SECOND"}}}}]}}
{"at":"1.100s","request":{}}
{"at":"1.200s","request":{}}
{"at":"1.300s","request":{}}
{"at":"1.400s","connection":"LOST"}
{"at":"1.500s","connection":"UP"}
{"at":"1.600s","response":{"bucketAction":[{"bucketId":{"bucket":{"name":"b"}},"quotaAssignmentAction":{"assignmentTimeToLive":"10s","rateLimitStrategy":{"requestsPerTimeUnit":{"requestsPerTimeUnit":"2","timeUnit":"SECOND"}}}}]}}
{"at":"1.700s","request":{}}
"#;

pub const RENEWED_OUTPUT: &str =
    r#"{"at":"0s","bucket":{"name":"b"},"decision":"ALLOW","line":1,"stream":0}
{"at":"0s","report":{"bucketQuotaUsages":[{"bucketId":{"bucket":{"name":"b"}},"numRequestsAllowed":"1"}],"domain":"q"},"stream":0}
{"actions":["ASSIGNED"],"at":"1s","line":2,"stream":0}
{"at":"1.100s","bucket":{"name":"b"},"decision":"ALLOW","line":3,"stream":0}
{"at":"1.200s","bucket":{"name":"b"},"decision":"ALLOW","line":4,"stream":0}
{"at":"1.300s","bucket":{"name":"b"},"decision":"DENY","line":5,"stream":0}
{"at":"1.400s","connection":"LOST","line":6,"stream":0}
{"at":"1.500s","connection":"UP","line":7,"stream":0}
{"actions":["RENEWED"],"at":"1.600s","line":8,"stream":0}
{"at":"1.700s","bucket":{"name":"b"},"decision":"DENY","line":9,"stream":0}
"#;

#[test]
fn a_renewal_begins_no_new_interval(rt: HostRuntime) -> Result<(), Fail> {
    let alloc = rt.alloc();
    let settings = settings_with(alloc, r#","reportingInterval":"5s""#)?;
    let found = replayed(&rt, alloc, &settings, &[RENEWED], 1)?;
    assert_eq!(rt; found.as_str(), RENEWED_OUTPUT);
    Ok(())
}

const EXPIRED: &str = r#"{"at":"0s","request":{}}
{"at":"1s","response":{"bucketAction":[{"bucketId":{"bucket":{"name":"b"}},"quotaAssignmentAction":{"assignmentTimeToLive":"0s"}}]}}
{"at":"1s","request":{}}
{"at":"2s","response":{"bucketAction":[{"bucketId":{"bucket":{"name":"b"}},"abandonAction":{}}]}}
{"at":"3s","request":{}}
{"at":"2s"}
"#;

const EXPIRED_OUTPUT: &str =
    r#"{"at":"0s","bucket":{"name":"b"},"decision":"ALLOW","line":1,"stream":0}
{"at":"0s","report":{"bucketQuotaUsages":[{"bucketId":{"bucket":{"name":"b"}},"numRequestsAllowed":"1"}],"domain":"q"},"stream":0}
{"actions":["ASSIGNED"],"at":"1s","line":2,"stream":0}
{"at":"1s","bucket":{"name":"b"},"decision":"DENY","line":3,"stream":0}
{"actions":["ABANDONED"],"at":"2s","line":4,"stream":0}
{"at":"3s","bucket":{"name":"b"},"decision":"ALLOW","line":5,"stream":0}
{"at":"3s","report":{"bucketQuotaUsages":[{"bucketId":{"bucket":{"name":"b"}},"numRequestsAllowed":"1"}],"domain":"q"},"stream":0}
{"line":6,"refused":{"at":"/at","last":"3s","number":39},"stream":0}
"#;

const EXPIRED_SETTINGS: &str =
    r#","reportingInterval":"5s","expiredAssignmentBehavior":{"fallbackRateLimit":{"blanketRule":"DENY_ALL"}}"#;

#[test]
fn streams_are_answered_in_order_by_any_workers(rt: HostRuntime) -> Result<(), Fail> {
    let alloc = rt.alloc();
    let settings = settings_with(alloc, EXPIRED_SETTINGS)?;
    let second = EXPIRED_OUTPUT.replace(alloc, r#""stream":0"#, r#""stream":1"#)?;
    let want = format!(in alloc; "{EXPIRED_OUTPUT}{second}")?;
    for workers in [1, 2, 3] {
        let found = replayed(&rt, alloc, &settings, &[EXPIRED, EXPIRED], workers)?;
        assert_eq!(rt; found.as_str(), want.as_str(), "{workers} workers");
    }
    Ok(())
}

const REUSED: &str = r#"{"at":"0s","request":{}}
{"at":"1s","response":{"bucketAction":[{"bucketId":{"bucket":{"name":"b"}},"quotaAssignmentAction":{"assignmentTimeToLive":"2s","rateLimitStrategy":{"tokenBucket":{"maxTokens":2,"fillInterval":"1s"}}}}]}}
{"at":"1.100s","request":{}}
{"at":"1.100s","request":{}}
{"at":"1.100s","request":{}}
{"at":"2s","request":{}}
{"at":"3s","request":{}}
{"at":"3.500s","request":{}}
{"at":"6s","request":{}}"#;

const REUSED_OUTPUT: &str =
    r#"{"at":"0s","bucket":{"name":"b"},"decision":"ALLOW","line":1,"stream":0}
{"at":"0s","report":{"bucketQuotaUsages":[{"bucketId":{"bucket":{"name":"b"}},"numRequestsAllowed":"1"}],"domain":"q"},"stream":0}
{"actions":["ASSIGNED"],"at":"1s","line":2,"stream":0}
{"at":"1.100s","bucket":{"name":"b"},"decision":"ALLOW","line":3,"stream":0}
{"at":"1.100s","bucket":{"name":"b"},"decision":"ALLOW","line":4,"stream":0}
{"at":"1.100s","bucket":{"name":"b"},"decision":"DENY","line":5,"stream":0}
{"at":"2s","bucket":{"name":"b"},"decision":"ALLOW","line":6,"stream":0}
{"at":"3s","bucket":{"name":"b"},"decision":"ALLOW","line":7,"stream":0}
{"at":"3.500s","bucket":{"name":"b"},"decision":"DENY","line":8,"stream":0}
{"at":"6s","bucket":{"name":"b"},"decision":"ALLOW","line":9,"stream":0}
{"at":"6s","report":{"bucketQuotaUsages":[{"bucketId":{"bucket":{"name":"b"}},"numRequestsAllowed":"1"}],"domain":"q"},"stream":0}
"#;

const REUSED_SETTINGS: &str =
    r#","reportingInterval":"60s","expiredAssignmentBehavior":{"expiredAssignmentBehaviorTimeout":"3s","reuseLastAssignment":{}}"#;

#[test]
fn a_last_assignment_is_used_until_its_timeout(rt: HostRuntime) -> Result<(), Fail> {
    let alloc = rt.alloc();
    let settings = settings_with(alloc, REUSED_SETTINGS)?;
    let found = replayed(&rt, alloc, &settings, &[REUSED], 1)?;
    assert_eq!(rt; found.as_str(), REUSED_OUTPUT);
    Ok(())
}

// Lines that are refused, an action on no bucket, a request that no settings fit, and reports at their moments: one of a
// stream that is lost waits for the next moment, and has the time since the last one.
const REPORTED: &str = r#"{"at":"0s","request":{"attributes":{"k":"v"}}}
{"at":"1s","response":{"bucketAction":[{"bucketId":{"bucket":{"n":"c"}},"abandonAction":{}},{"bucketId":{"bucket":{"n":"c"}},"quotaAssignmentAction":{}}]}}
{"at":"1s","request":{"attributes":{"k":"x"}}}

{"at":"2s","request":{"attributes":{"k":"v"}}}
{"at":"5s","connection":"LOST"}
{"at":"6s","request":{"attributes":{"k":"v"}}}
{"at":"10s","connection":"UP"}
{"at":"12s"}
{"at":"16.500s"}
{"at":"1s","x":1}
"#;

const REPORTED_OUTPUT: &str =
    r#"{"at":"0s","bucket":{"\"n\"":"v"},"decision":"ALLOW","line":1,"stream":0}
{"at":"0s","report":{"bucketQuotaUsages":[{"bucketId":{"bucket":{"\"n\"":"v"}},"numRequestsAllowed":"1"}],"domain":"q\\"},"stream":0}
{"actions":["NO_BUCKET","NO_BUCKET"],"at":"1s","line":2,"stream":0}
{"at":"1s","bucket":null,"decision":"ALLOW","line":3,"stream":0}
{"line":4,"refused":{"at":"","number":1},"stream":0}
{"at":"2s","bucket":{"\"n\"":"v"},"decision":"ALLOW","line":5,"stream":0}
{"at":"5s","report":{"bucketQuotaUsages":[{"bucketId":{"bucket":{"\"n\"":"v"}},"numRequestsAllowed":"1","timeElapsed":"5s"}],"domain":"q\\"},"stream":0}
{"at":"5s","connection":"LOST","line":6,"stream":0}
{"at":"6s","bucket":{"\"n\"":"v"},"decision":"ALLOW","line":7,"stream":0}
{"at":"10s","connection":"UP","line":8,"stream":0}
{"at":"12s","line":9,"stream":0}
{"at":"15s","report":{"bucketQuotaUsages":[{"bucketId":{"bucket":{"\"n\"":"v"}},"numRequestsAllowed":"1","timeElapsed":"10s"}],"domain":"q\\"},"stream":0}
{"at":"16.500s","line":10,"stream":0}
{"line":11,"refused":{"at":"/x","number":3},"stream":0}
"#;

const REPORTED_SETTINGS: &str =
    r#"{"domain":"q\\","buckets":[{"match":{"k":"v"},"bucketIdBuilder":{"bucketIdBuilder":{"\"n\"":{"attribute":"k"}}},"reportingInterval":"5s"}]}"#;

#[test]
fn reports_come_at_their_moments(rt: HostRuntime) -> Result<(), Fail> {
    let alloc = rt.alloc();
    let settings = quota_settings_json::read_settings(alloc, REPORTED_SETTINGS.as_bytes())
        .ok()
        .ok_or("settings")?;
    let found = replayed(&rt, alloc, &settings, &[REPORTED], 1)?;
    assert_eq!(rt; found.as_str(), REPORTED_OUTPUT);
    Ok(())
}
