// `pool`: recorded reports and how a quota server answers them.
use super::{FIRST_WRITE, Failing, NONE, SECOND_FILE, said};
use std::alloc::Global;
use std::test::Fail;

// Ten requests a second for all clients, by shares that live ten seconds.
const POOLS: &str =
    r#"{"domain":"q","pools":[{"bucketId":{"bucket":{"name":"b"}},"requestsPerTimeUnit":"10","timeUnit":"SECOND","assignmentTimeToLive":"10s"}]}"#;

// A pool without a lifetime.
const REFUSED: &str =
    r#"{"domain":"q","pools":[{"bucketId":{"bucket":{"name":"b"}},"timeUnit":"SECOND"}]}"#;

// A report of no usage.
const EVENT: &str = r#"{"at":"0s","client":"c"}"#;

// The report of a client at a moment, of the bucket of the pool.
fn report(alloc: Global, at: &str, client: &str) -> Result<String, Fail> {
    Ok(format!(in alloc;
        r#"{{"at":"{at}","client":"{client}","reports":{{"bucketQuotaUsages":[{{"bucketId":{{"bucket":{{"name":"b"}}}}}}]}}}}"#
    )?)
}

// The line of its answer, whose limit has this member for its count.
fn answer(alloc: Global, line: u32, at: &str, client: &str, count: &str) -> Result<String, Fail> {
    Ok(format!(in alloc;
        r#"{{"at":"{at}","client":"{client}","line":{line},"response":{{"bucketAction":[{{"bucketId":{{"bucket":{{"name":"b"}}}},"quotaAssignmentAction":{{"assignmentTimeToLive":"10s","rateLimitStrategy":{{"requestsPerTimeUnit":{{{count}"timeUnit":"SECOND"}}}}}}}}]}}}}"#
    )?)
}

#[test]
fn clients_share_a_pool(rt: HostRuntime) -> Result<(), Fail> {
    const ROWS: &[(&str, &str, &str)] = &[
        ("0s", "c1", r#""requestsPerTimeUnit":"10","#),
        ("1s", "c2", ""),
        ("6s", "c1", r#""requestsPerTimeUnit":"5","#),
        ("8s", "c2", ""),
        ("11s", "c2", r#""requestsPerTimeUnit":"5","#),
    ];
    let alloc = rt.alloc();
    let mut events = String::new(alloc);
    let mut want = String::from_str(alloc, "done\n")?;
    let mut line = 0u32;
    for &(at, client, count) in ROWS {
        line = line.saturating_add(1);
        events.push_str(report(alloc, at, client)?.as_str())?;
        events.push('\n')?;
        want.push_str(answer(alloc, line, at, client, count)?.as_str())?;
        want.push('\n')?;
    }
    let files = [POOLS, events.as_str()];
    let words = ["pool", "--pools", "a", "b"];
    assert_eq!(rt;
        said(&rt, alloc, &words, &files, "", NONE)?.as_str(),
        want.as_str()
    );
    Ok(())
}

#[test]
fn refused_lines_change_nothing(rt: HostRuntime) -> Result<(), Fail> {
    let alloc = rt.alloc();
    let events =
        r#"{"at":"5s","client":"c","reports":{"bucketQuotaUsages":[{"bucketId":{"bucket":{"name":"x"}}}]}}
{"client":"c"}
{"at":"6s"}
{"at":"6s","client":"c","reports":{"domain":"other"}}
{"at":"4s","client":"c"}
{"at":"6s","client":"c","reports":{"bucketQuotaUsages":[{}]}}
{"at":"5s","client":"c"}
"#;
    let want = r#"done
{"at":"5s","client":"c","line":1,"response":{"bucketAction":[{"abandonAction":{},"bucketId":{"bucket":{"name":"x"}}}]}}
{"line":2,"refused":{"at":"","number":36}}
{"line":3,"refused":{"at":"","number":50}}
{"line":4,"refused":{"at":"/reports","number":51}}
{"line":5,"refused":{"at":"/at","number":39}}
{"line":6,"refused":{"at":"/reports/bucketQuotaUsages/0","number":32}}
{"at":"5s","client":"c","line":7,"response":{"bucketAction":[]}}
"#;
    let words = ["pool", "--pools", "a", "b"];
    assert_eq!(rt;
        said(&rt, alloc, &words, &[POOLS, events], "", NONE)?.as_str(),
        want
    );
    Ok(())
}

#[test]
fn each_exit_of_pool_has_its_cause(rt: HostRuntime) -> Result<(), Fail> {
    const ROWS: &[(&[&str], &str, Failing, &str)] = &[
        (&["pool", "b"], POOLS, NONE, "usage\n"),
        (&["pool", "--pools", "a"], POOLS, NONE, "usage\n"),
        (&["pool", "--pools=a", "b", "c"], POOLS, NONE, "usage\n"),
        (
            &["pool", "--pools", "a", "b"],
            REFUSED,
            NONE,
            "settings: 49 at /pools/0\n",
        ),
        (
            &["pool", "--pools", "a", "b"],
            POOLS,
            SECOND_FILE,
            "file 1: fault\n",
        ),
        (
            &["pool", "b", "--pools", "a"],
            POOLS,
            FIRST_WRITE,
            "write fault\n",
        ),
    ];
    let alloc = rt.alloc();
    for &(words, pools, failing, want) in ROWS {
        let files = [pools, EVENT];
        assert_eq!(rt;
            said(&rt, alloc, words, &files, "", failing)?.as_str(),
            want
        );
    }
    Ok(())
}
