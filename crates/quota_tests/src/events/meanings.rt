use crate::events::{action_said, line_said};
use std::test::Fail;

const LINES: &str = r#"{"at":"0s","request":{"attributes":{}}} => 0 ms: request
{"at":"1.100s","request":{}} => 1100 ms: request
{"at":"1000000000s","request":{"attributes":{"user":"u","env":"prod"}}} => 1000000000000 ms: request env=prod user=u
{"at":"1s","response":{"bucketAction":[{"bucketId":{"bucket":{"name":"b"}},"quotaAssignmentAction":{"assignmentTimeToLive":"10s","rateLimitStrategy":{"requestsPerTimeUnit":{"requestsPerTimeUnit":"2","timeUnit":"SECOND"}}}}]}} => 1000 ms: response name=b assigned 2 a second for 10000 ms;
{"at":"1.400s","connection":"LOST"} => 1400 ms: lost
{"at":"1.5s","connection":"UP"} => 1500 ms: up
{"at":"1s","response":{"bucketAction":[{"bucketId":{"bucket":{"name":"b"}},"quotaAssignmentAction":{"assignmentTimeToLive":"0s"}}]}} => 1000 ms: response name=b assigned all for 0 ms;
{"at":"2s","response":{"bucket_action":[{"bucket_id":{"bucket":{"name":"b"}},"abandon_action":{}},{"bucketId":{"bucket":{"name":"c","env":"d"}},"quotaAssignmentAction":{}}]}} => 2000 ms: response name=b abandoned; env=d name=c assigned all for ever;
{"at":"2s"} => 2000 ms: no event
{"at":"2s","request":null,"response":null,"connection":null} => 2000 ms: no event
{"at":"2s","response":{}} => 2000 ms: response
{"at":"2s","request":null,"connection":"UP"} => 2000 ms: up"#;

#[test]
fn lines_are_what_they_spell(rt: HostRuntime) -> Result<(), Fail> {
    for row in LINES.lines() {
        let (text, want) = row.split_once(" => ").ok_or("a row")?;
        let found = line_said(rt.alloc(), text)?;
        assert_eq!(rt; found.as_str(), want, "at {text}");
    }
    Ok(())
}

const ACTIONS: &str =
    r#"{"bucketId":{"bucket":{"n":"b"}},"quotaAssignmentAction":{},"abandonAction":null} => 0 ms: response n=b assigned all for ever;
{"bucketId":{"bucket":{"n":""}},"quotaAssignmentAction":null,"abandonAction":{}} => 0 ms: response n= abandoned;
{"bucketId":{"bucket":{"n":"b"}},"quota_assignment_action":{"assignment_time_to_live":"1.5s","rate_limit_strategy":{"blanket_rule":"DENY_ALL"}}} => 0 ms: response n=b assigned none for 1500 ms;
{"bucketId":{"bucket":{"n":"b"}},"quotaAssignmentAction":{"assignmentTimeToLive":"2s","rateLimitStrategy":{"tokenBucket":{"maxTokens":2,"fillInterval":"1s"}}}} => 0 ms: response n=b assigned 2 tokens, 1 each 1000 ms for 2000 ms;"#;

#[test]
fn actions_are_what_they_spell(rt: HostRuntime) -> Result<(), Fail> {
    for row in ACTIONS.lines() {
        let (action, want) = row.split_once(" => ").ok_or("a row")?;
        let found = action_said(rt.alloc(), action)?;
        assert_eq!(rt; found.as_str(), want, "at {action}");
    }
    Ok(())
}
