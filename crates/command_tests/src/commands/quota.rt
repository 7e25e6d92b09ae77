// `quota`: recorded streams and what comes of them.
use super::{Failing, NONE, SECOND_FILE, joined, said};
use std::alloc::Global;
use std::test::Fail;

// A bucket that reports every five seconds.
const SETTINGS: &str =
    r#"{"domain":"q","buckets":[{"bucketIdBuilder":{"bucketIdBuilder":{"name":{"stringValue":"b"}}},"reportingInterval":"5s"}]}"#;

// The same bucket, which denies all once an assignment has expired.
const DENYING: &str =
    r#"{"domain":"q","buckets":[{"bucketIdBuilder":{"bucketIdBuilder":{"name":{"stringValue":"b"}}},"reportingInterval":"5s","expiredAssignmentBehavior":{"fallbackRateLimit":{"blanketRule":"DENY_ALL"}}}]}"#;

// One that keeps its last assignment for three seconds more.
const REUSING: &str =
    r#"{"domain":"q","buckets":[{"bucketIdBuilder":{"bucketIdBuilder":{"name":{"stringValue":"b"}}},"reportingInterval":"60s","expiredAssignmentBehavior":{"expiredAssignmentBehaviorTimeout":"3s","reuseLastAssignment":{}}}]}"#;

// A bucket without a reporting interval.
const REFUSED: &str =
    r#"{"domain":"q","buckets":[{"bucketIdBuilder":{"bucketIdBuilder":{"name":{"stringValue":"b"}}}}]}"#;

// The message that assigns two requests a second for ten seconds, at a moment.
fn assigned(alloc: Global, at: &str) -> Result<String, Fail> {
    Ok(format!(in alloc;
        r#"{{"at":"{at}","response":{{"bucketAction":[{{"bucketId":{{"bucket":{{"name":"b"}}}},"quotaAssignmentAction":{{"assignmentTimeToLive":"10s","rateLimitStrategy":{{"requestsPerTimeUnit":{{"requestsPerTimeUnit":"2","timeUnit":"SECOND"}}}}}}}}]}}}}"#
    )?)
}

// The output of a stream that is lost and comes up again while two requests a second are assigned.
const LOST_OUTPUT: &[&str] = &[
    r#"{"at":"0s","bucket":{"name":"b"},"decision":"ALLOW","line":1,"stream":0}"#,
    r#"{"at":"0s","report":{"bucketQuotaUsages":[{"bucketId":{"bucket":{"name":"b"}},"numRequestsAllowed":"1"}],"domain":"q"},"stream":0}"#,
    r#"{"actions":["ASSIGNED"],"at":"1s","line":2,"stream":0}"#,
    r#"{"at":"1.100s","bucket":{"name":"b"},"decision":"ALLOW","line":3,"stream":0}"#,
    r#"{"at":"1.200s","bucket":{"name":"b"},"decision":"ALLOW","line":4,"stream":0}"#,
    r#"{"at":"1.300s","bucket":{"name":"b"},"decision":"DENY","line":5,"stream":0}"#,
    r#"{"at":"1.400s","connection":"LOST","line":6,"stream":0}"#,
    r#"{"at":"1.500s","connection":"UP","line":7,"stream":0}"#,
    r#"{"actions":["RENEWED"],"at":"1.600s","line":8,"stream":0}"#,
    r#"{"at":"1.700s","bucket":{"name":"b"},"decision":"DENY","line":9,"stream":0}"#,
];

// That stream.
fn lost(alloc: Global) -> Result<String, Fail> {
    let first = assigned(alloc, "1s")?;
    let second = assigned(alloc, "1.600s")?;
    let lines = [
        r#"{"at":"0s","request":{}}"#,
        first.as_str(),
        r#"{"at":"1.100s","request":{}}"#,
        r#"{"at":"1.200s","request":{}}"#,
        r#"{"at":"1.300s","request":{}}"#,
        r#"{"at":"1.400s","connection":"LOST"}"#,
        r#"{"at":"1.500s","connection":"UP"}"#,
        second.as_str(),
        r#"{"at":"1.700s","request":{}}"#,
    ];
    joined(alloc, &lines)
}

// The exit Done and these lines.
fn done(alloc: Global, lines: &[&str]) -> Result<String, Fail> {
    let mut text = String::from_str(alloc, "done\n")?;
    text.push_str(joined(alloc, lines)?.as_str())?;
    Ok(text)
}

#[test]
fn a_lost_stream_and_a_renewal_begin_no_new_interval(rt: HostRuntime) -> Result<(), Fail> {
    let alloc = rt.alloc();
    let stream = lost(alloc)?;
    let files = [SETTINGS, stream.as_str()];
    let answer = said(
        &rt,
        alloc,
        &["quota", "--settings", "a", "b"],
        &files,
        "",
        NONE,
    )?;
    assert_eq!(rt; answer.as_str(), done(alloc, LOST_OUTPUT)?.as_str());
    Ok(())
}

// A stream whose assignment expires at once, is abandoned and begins anew; its last line goes back in time.
const EXPIRED: &[&str] = &[
    r#"{"at":"0s","request":{}}"#,
    r#"{"at":"1s","response":{"bucketAction":[{"bucketId":{"bucket":{"name":"b"}},"quotaAssignmentAction":{"assignmentTimeToLive":"0s"}}]}}"#,
    r#"{"at":"1s","request":{}}"#,
    r#"{"at":"2s","response":{"bucketAction":[{"bucketId":{"bucket":{"name":"b"}},"abandonAction":{}}]}}"#,
    r#"{"at":"3s","request":{}}"#,
    r#"{"at":"2s"}"#,
];

// Its output, where an expired assignment is followed by DENY_ALL.
const EXPIRED_OUTPUT: &[&str] = &[
    r#"{"at":"0s","bucket":{"name":"b"},"decision":"ALLOW","line":1,"stream":0}"#,
    r#"{"at":"0s","report":{"bucketQuotaUsages":[{"bucketId":{"bucket":{"name":"b"}},"numRequestsAllowed":"1"}],"domain":"q"},"stream":0}"#,
    r#"{"actions":["ASSIGNED"],"at":"1s","line":2,"stream":0}"#,
    r#"{"at":"1s","bucket":{"name":"b"},"decision":"DENY","line":3,"stream":0}"#,
    r#"{"actions":["ABANDONED"],"at":"2s","line":4,"stream":0}"#,
    r#"{"at":"3s","bucket":{"name":"b"},"decision":"ALLOW","line":5,"stream":0}"#,
    r#"{"at":"3s","report":{"bucketQuotaUsages":[{"bucketId":{"bucket":{"name":"b"}},"numRequestsAllowed":"1"}],"domain":"q"},"stream":0}"#,
    r#"{"line":6,"refused":{"at":"/at","last":"3s","number":39},"stream":0}"#,
];

#[test]
fn an_expired_assignment_denies_and_time_goes_no_way_back(rt: HostRuntime) -> Result<(), Fail> {
    let alloc = rt.alloc();
    let stream = joined(alloc, EXPIRED)?;
    let files = [DENYING, stream.as_str()];
    let words = ["quota", "b", "--settings=a"];
    let answer = said(&rt, alloc, &words, &files, "", NONE)?;
    assert_eq!(rt; answer.as_str(), done(alloc, EXPIRED_OUTPUT)?.as_str());
    Ok(())
}

#[test]
fn a_token_bucket_is_used_again_until_its_timeout(rt: HostRuntime) -> Result<(), Fail> {
    let alloc = rt.alloc();
    let stream = joined(
        alloc,
        &[
            r#"{"at":"0s","request":{}}"#,
            r#"{"at":"1s","response":{"bucketAction":[{"bucketId":{"bucket":{"name":"b"}},"quotaAssignmentAction":{"assignmentTimeToLive":"2s","rateLimitStrategy":{"tokenBucket":{"maxTokens":2,"fillInterval":"1s"}}}}]}}"#,
            r#"{"at":"1.100s","request":{}}"#,
            r#"{"at":"1.100s","request":{}}"#,
            r#"{"at":"1.100s","request":{}}"#,
            r#"{"at":"2s","request":{}}"#,
            r#"{"at":"3s","request":{}}"#,
            r#"{"at":"3.500s","request":{}}"#,
            r#"{"at":"6s","request":{}}"#,
            r#"{"at":"6s","response":{"bucketAction":[{"bucketId":{"bucket":{"name":"b"}},"quotaAssignmentAction":{"assignmentTimeToLive":"2s","rateLimitStrategy":{"tokenBucket":{"fillInterval":"1s"}}}}]}}"#,
        ],
    )?;
    let files = [REUSING, stream.as_str()];
    let answer = said(
        &rt,
        alloc,
        &["quota", "--settings", "a", "b"],
        &files,
        "",
        NONE,
    )?;
    let want = [
        "1 ALLOW", "3 ALLOW", "4 ALLOW", "5 DENY", "6 ALLOW", "7 ALLOW", "8 DENY", "9 ALLOW",
    ];
    let mut found = 0usize;
    for line in answer.lines() {
        if line.contains("\"decision\":") {
            let row = want.get(found).ok_or("one more decision")?;
            let (number, decision) = row.split_once(" ").ok_or("a row")?;
            let text = format!(in alloc;
                r#""decision":"{decision}","line":{number},"stream":0}}"#
            )?;
            assert!(rt; line.ends_with(text.as_str()), "{row}: {line}");
            found = found.saturating_add(1);
        }
    }
    assert_eq!(rt; found, 8);
    assert!(rt;
        answer.ends_with(
            "\"line\":10,\"refused\":{\"at\":\"/response/bucketAction/0/quotaAssignmentAction/rateLimitStrategy/tokenBucket\",\"number\":44},\"stream\":0}\n"
        )
    );
    Ok(())
}

#[test]
fn streams_follow_one_another_whatever_the_workers(rt: HostRuntime) -> Result<(), Fail> {
    let alloc = rt.alloc();
    let stream = joined(alloc, EXPIRED)?;
    let mut want = done(alloc, EXPIRED_OUTPUT)?;
    for line in EXPIRED_OUTPUT {
        let (front, _) = line.split_once(":0}").ok_or("the index of a stream")?;
        want.push_str(front)?;
        want.push_str(":1}\n")?;
    }
    let files = [DENYING, stream.as_str(), stream.as_str()];
    for workers in ["1", "2", "64"] {
        let words = ["quota", "--settings", "a", "--workers", workers, "b", "c"];
        let answer = said(&rt, alloc, &words, &files, "", NONE)?;
        assert_eq!(rt; answer.as_str(), want.as_str(), "{workers} workers");
    }
    Ok(())
}

// A row with no files of its own has the settings and a stream.
#[test]
fn each_exit_of_quota_has_its_cause(rt: HostRuntime) -> Result<(), Fail> {
    const ROWS: &[(&[&str], Option<&[&str]>, Failing, &str)] = &[
        (&["quota"], None, NONE, "usage\n"),
        (&["quota", "--settings", "a"], None, NONE, "usage\n"),
        (&["quota", "b"], None, NONE, "usage\n"),
        (
            &["quota", "--settings", "a", "--workers", "0", "b"],
            None,
            NONE,
            "usage\n",
        ),
        (
            &["quota", "--settings", "a", "--workers", "65", "b"],
            None,
            NONE,
            "usage\n",
        ),
        (
            &["quota", "--settings", "a", "b"],
            Some(&[REFUSED, ""]),
            NONE,
            "settings: 31 at /buckets/0\n",
        ),
        (
            &["quota", "--settings", "x", "b"],
            None,
            NONE,
            "file 0: fault\n",
        ),
        (
            &["quota", "--settings", "a", "b"],
            None,
            SECOND_FILE,
            "file 1: fault\n",
        ),
        (
            &["quota", "--settings", "a", "b", "c"],
            Some(&[REFUSED, "", ""]),
            SECOND_FILE,
            "file 1: fault\n",
        ),
    ];
    let alloc = rt.alloc();
    let stream = lost(alloc)?;
    for &(words, own, failing, want) in ROWS {
        let both = [SETTINGS, stream.as_str()];
        let files = own.unwrap_or(&both);
        assert_eq!(rt; said(&rt, alloc, words, files, "", failing)?.as_str(), want);
    }
    Ok(())
}

#[test]
fn a_stream_of_too_many_lines_stops_all(rt: HostRuntime) -> Result<(), Fail> {
    let alloc = rt.alloc();
    let stream = lost(alloc)?;
    let long = "\n".repeat(alloc, 1_048_577)?;
    let files = [SETTINGS, stream.as_str(), long.as_str()];
    let answer = said(
        &rt,
        alloc,
        &["quota", "--settings", "a", "b", "c"],
        &files,
        "",
        NONE,
    )?;
    assert_eq!(rt; answer.as_str(), "too long\n");
    Ok(())
}

#[test]
fn each_write_of_an_output_and_its_flush_can_fail(rt: HostRuntime) -> Result<(), Fail> {
    let alloc = rt.alloc();
    let stream = lost(alloc)?;
    let files = [SETTINGS, stream.as_str()];
    for number in 1..=11 {
        let failing = Failing {
            write: number as u64,
            ..NONE
        };
        let mut want = String::from_str(alloc, "write fault\n")?;
        let front = LOST_OUTPUT.get(..number - 1).ok_or("lines")?;
        want.push_str(joined(alloc, front)?.as_str())?;
        let answer = said(
            &rt,
            alloc,
            &["quota", "--settings", "a", "b"],
            &files,
            "",
            failing,
        )?;
        assert_eq!(rt; answer.as_str(), want.as_str(), "write {number}");
    }
    Ok(())
}
