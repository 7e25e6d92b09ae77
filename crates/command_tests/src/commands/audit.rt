// `audit`: printed runs and the verdicts on them.
use super::{A, CHECK_A, FIRST_READ, FIRST_WRITE, Failing, KEYLESS, NONE, joined, said};
use std::test::Fail;

const TICK: &str = r#"{"tick":65}"#;

const TICKED: &str = r#"{"line":1,"moment":65,"ticked":65,"version":0,"worker":0}"#;

const FIRST: &str =
    r#"{"counts":[{"before":0}],"line":2,"moment":65,"reply":{"overallCode":"OK","statuses":[{"code":"OK","currentLimit":{"requestsPerUnit":2,"unit":"MINUTE"},"durationUntilReset":"55s","limitRemaining":1}]},"version":0,"worker":0}"#;

// What the second check answers, but for the count of the first.
const FIRST_AGAIN: &str =
    r#"{"counts":[{"before":0}],"line":3,"moment":65,"reply":{"overallCode":"OK","statuses":[{"code":"OK","currentLimit":{"requestsPerUnit":2,"unit":"MINUTE"},"durationUntilReset":"55s","limitRemaining":1}]},"version":0,"worker":0}"#;

const THIRD: &str =
    r#"{"counts":[{"before":2}],"line":4,"moment":65,"reply":{"overallCode":"OVER_LIMIT","statuses":[{"code":"OVER_LIMIT","currentLimit":{"requestsPerUnit":2,"unit":"MINUTE"},"durationUntilReset":"55s"}]},"version":0,"worker":0}"#;

const FOURTH: &str =
    r#"{"counts":[{"seen":3}],"line":5,"moment":65,"reply":{"overallCode":"OVER_LIMIT","statuses":[{"code":"OVER_LIMIT","currentLimit":{"requestsPerUnit":2,"unit":"MINUTE"},"durationUntilReset":"55s"}]},"version":0,"worker":0}"#;

const TOTAL_1: &str =
    r#"{"charged":1,"counter":{"domain":"d","entries":[{"key":"k","value":"a"}],"start":60,"unit":"MINUTE"}}"#;

const TOTAL_3: &str =
    r#"{"charged":3,"counter":{"domain":"d","entries":[{"key":"k","value":"a"}],"start":60,"unit":"MINUTE"}}"#;

#[test]
fn printed_runs_are_judged(rt: HostRuntime) -> Result<(), Fail> {
    const ROWS: &[(&[&str], &[&str], &str)] = &[
        (&[], &[], "done\n{\"lawful\":true,\"records\":0}\n"),
        (
            &[TICK, CHECK_A],
            &[TICKED, FIRST, TOTAL_1],
            "done\n{\"lawful\":true,\"records\":2}\n",
        ),
        (
            &[TICK, CHECK_A, CHECK_A, CHECK_A, CHECK_A],
            &[TICKED, FIRST, FIRST_AGAIN, THIRD, FOURTH, TOTAL_3],
            "done\n{\"clause\":6,\"lawful\":false}\n",
        ),
    ];
    let alloc = rt.alloc();
    for &(script, run, want) in ROWS {
        let script = joined(alloc, script)?;
        let run = joined(alloc, run)?;
        let files = [A, run.as_str()];
        let words = ["audit", "--run", "b", "a"];
        assert_eq!(rt;
            said(&rt, alloc, &words, &files, script.as_str(), NONE)?.as_str(),
            want
        );
    }
    Ok(())
}

#[test]
fn each_exit_of_audit_has_its_cause(rt: HostRuntime) -> Result<(), Fail> {
    const WRONG: &str = "done\n{\"lawful\":false,\"line\":1}\n";
    const ROWS: &[(&[&str], &[&str], Failing, &str)] = &[
        (&["audit", "a"], &[A], NONE, "usage\n"),
        (&["audit", "--run", "b"], &[A, ""], NONE, "usage\n"),
        (
            &["audit", "--run", "b", "--workers", "65", "a"],
            &[A, ""],
            NONE,
            "usage\n",
        ),
        (
            &["audit", "--run", "b", "a"],
            &[KEYLESS],
            FIRST_READ,
            "file 1: fault\n",
        ),
        (
            &["audit", "--run", "b", "a"],
            &[KEYLESS, ""],
            FIRST_READ,
            "file 0: 12 at /descriptors/0\n",
        ),
        (
            &["audit", "--run", "b", "a"],
            &[A, ""],
            FIRST_READ,
            "read fault\n",
        ),
        (
            &["audit", "--run", "b", "a"],
            &[A, ""],
            FIRST_WRITE,
            "write fault\n",
        ),
        // A record without its line feed, and a line that is neither record nor total.
        (&["audit", "--run", "b", "a"], &[A, TICKED], NONE, WRONG),
        (
            &[
                "audit",
                "--run=b",
                "--start",
                "5",
                "--cells=1",
                "--global-shadow",
                "a",
            ],
            &[A, "x\n"],
            NONE,
            WRONG,
        ),
    ];
    let alloc = rt.alloc();
    for &(words, files, failing, want) in ROWS {
        assert_eq!(rt; said(&rt, alloc, words, files, "", failing)?.as_str(), want);
    }
    Ok(())
}
