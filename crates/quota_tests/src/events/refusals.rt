use crate::events::{action_said, event_said, line_said};
use std::test::Fail;

const LINES: &str = r#" => 1 at ""
{"at":"0s" => 1 at ""
[] => 2 at ""
null => 2 at ""
{} => 36 at ""
{"at":null,"connection":"UP"} => 36 at ""
{"request":5} => 36 at ""
{"y":1,"x":1} => 3 at "/x"
{"At":"0s"} => 3 at "/At"
{"at":"0","request":{},"response":{},"x":null} => 3 at "/x"
{"request":{},"connection":"UP"} => 28 at ""
{"at":"0","request":5,"response":5} => 28 at ""
{"at":"0s","response":{},"connection":"UP"} => 28 at ""
{"at":"0s","request":{},"response":{},"connection":"UP"} => 28 at ""
{"at":0} => 5 at "/at"
{"at":"0"} => 40 at "/at"
{"at":"0.0001s"} => 41 at "/at"
{"at":"1000000000.0001s"} => 42 at "/at"
{"at":"-1s","connection":"DOWN"} => 40 at "/at""#;

#[test]
fn lines_are_refused_at_their_first_fault(rt: HostRuntime) -> Result<(), Fail> {
    for row in LINES.lines() {
        let (text, want) = row.split_once(" => ").ok_or("a row")?;
        let found = line_said(rt.alloc(), text)?;
        assert_eq!(rt; found.as_str(), want, "at {text}");
    }
    Ok(())
}

const EVENTS: &str = r#""request":[] => 2 at "/request"
"request":{"x":1} => 3 at "/request/x"
"request":{"attributes":"a"} => 2 at "/request/attributes"
"request":{"attributes":{"b":1,"a":2},"x":1} => 5 at "/request/attributes/a"
"request":{"attributes":{"a/b":null}} => 5 at "/request/attributes/a~1b"
"response":"a" => 2 at "/response"
"response":{"x":1} => 3 at "/response/x"
"response":{"bucketAction":{}} => 5 at "/response/bucketAction"
"response":{"bucketAction":null,"bucket_action":[]} => 4 at "/response/bucketAction"
"response":{"bucket_action":[null]} => 2 at "/response/bucket_action/0"
"response":{"bucketAction":[{"bucketId":{"bucket":{"n":"b"}},"abandonAction":{}},{}]} => 32 at "/response/bucketAction/1"
"connection":true => 5 at "/connection"
"connection":"up" => 8 at "/connection"
"connection":"" => 8 at "/connection""#;

#[test]
fn events_are_refused_at_their_first_fault(rt: HostRuntime) -> Result<(), Fail> {
    for row in EVENTS.lines() {
        let (event, want) = row.split_once(" => ").ok_or("a row")?;
        let found = event_said(rt.alloc(), event)?;
        assert_eq!(rt; found.as_str(), want, "at {event}");
    }
    Ok(())
}

const ACTIONS: &str = r#"[] => 2 at ""
{} => 32 at ""
{"x":1} => 3 at "/x"
{"bucketId":[]} => 2 at "/bucketId"
{"bucketId":{"x":1}} => 3 at "/bucketId/x"
{"bucketId":null,"bucket_id":{}} => 4 at "/bucketId"
{"bucket_id":{"bucket":"b"}} => 2 at "/bucket_id/bucket"
{"bucket_id":{"bucket":{"n":["b"]}}} => 5 at "/bucket_id/bucket/n"
{"bucketId":{},"abandonAction":{}} => 32 at ""
{"bucketId":{"bucket":{}},"abandonAction":{}} => 32 at ""
{"quotaAssignmentAction":{},"abandonAction":{}} => 32 at ""
{"bucketId":{"bucket":{"n":"b"}}} => 35 at ""
{"bucketId":{"bucket":{"n":"b"}},"quotaAssignmentAction":null,"abandonAction":null} => 35 at ""
{"bucketId":{"bucket":{"n":"b"}},"quotaAssignmentAction":{},"abandonAction":{}} => 34 at ""
{"bucketId":{"bucket":{"n":"b"}},"quotaAssignmentAction":[],"abandonAction":[]} => 2 at "/quotaAssignmentAction"
{"quotaAssignmentAction":{"assignmentTimeToLive":10}} => 5 at "/quotaAssignmentAction/assignmentTimeToLive"
{"quota_assignment_action":{"assignment_time_to_live":"10"}} => 40 at "/quota_assignment_action/assignment_time_to_live"
{"quotaAssignmentAction":{"rateLimitStrategy":[]}} => 2 at "/quotaAssignmentAction/rateLimitStrategy"
{"quotaAssignmentAction":{"rateLimitStrategy":{"blanketRule":"ALLOW"}}} => 8 at "/quotaAssignmentAction/rateLimitStrategy/blanketRule"
{"quotaAssignmentAction":{"rateLimitStrategy":{"tokenBucket":{"fillInterval":"1s"}}}} => 44 at "/quotaAssignmentAction/rateLimitStrategy/tokenBucket"
{"quotaAssignmentAction":{"x":1},"y":1} => 3 at "/quotaAssignmentAction/x"
{"abandonAction":[]} => 2 at "/abandonAction"
{"abandon_action":{"x":null}} => 3 at "/abandon_action/x""#;

#[test]
fn actions_are_refused_at_their_first_fault(rt: HostRuntime) -> Result<(), Fail> {
    for row in ACTIONS.lines() {
        let (action, want) = row.split_once(" => ").ok_or("a row")?;
        let found = action_said(rt.alloc(), action)?;
        assert_eq!(rt; found.as_str(), want, "at {action}");
    }
    Ok(())
}
