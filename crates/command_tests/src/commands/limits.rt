// The limits of length, and each read and write that fails in turn.
use super::{A, CHECK_A, DOMAIN, Failing, NONE, joined, said};
use cli_exits::MOST_RUN_BYTES;
use std::test::Fail;

// The record of a check whose counter has no cell left, of 262,144.
const FULL: &str =
    r#"{"line":262145,"moment":0,"refused":{"held":0,"live":262144,"name":"CountersFull","wanted":1},"version":0,"worker":0}"#;

// The total of the counter of the first value.
const FIRST_TOTAL: &str =
    r#"{"charged":1,"counter":{"domain":"d","entries":[{"key":"k","value":"0"}],"start":0,"unit":"MINUTE"}}"#;

#[test]
fn a_script_of_too_many_lines_is_too_long(rt: HostRuntime) -> Result<(), Fail> {
    let alloc = rt.alloc();
    let script = "\n".repeat(alloc, 1_048_577)?;
    let answer = said(
        &rt,
        rt.alloc(),
        &["drive", "a"],
        &[A],
        script.as_str(),
        NONE,
    )?;
    assert_eq!(rt; answer.as_str(), "too long\n");
    Ok(())
}

#[test]
fn a_script_of_too_many_bytes_is_too_long(rt: HostRuntime) -> Result<(), Fail> {
    let alloc = rt.alloc();
    let script = "x".repeat(alloc, 67_108_865)?;
    let answer = said(
        &rt,
        rt.alloc(),
        &["drive", "a"],
        &[A],
        script.as_str(),
        NONE,
    )?;
    assert_eq!(rt; answer.as_str(), "too long\n");
    Ok(())
}

#[test]
fn a_file_of_too_many_bytes_is_too_long(rt: HostRuntime) -> Result<(), Fail> {
    let alloc = rt.alloc();
    let file = " ".repeat(alloc, 67_108_865)?;
    let answer = said(&rt, rt.alloc(), &["drive", "a"], &[file.as_str()], "", NONE)?;
    assert_eq!(rt; answer.as_str(), "too long\n");
    Ok(())
}

// The script has four reads: three with bytes, of at most 16,384 each, and one that answers the end.
#[test]
fn each_read_of_the_script_can_fail(rt: HostRuntime) -> Result<(), Fail> {
    let alloc = rt.alloc();
    let script = "\n".repeat(alloc, 40_000)?;
    for number in 1..=4 {
        let failing = Failing {
            read: number,
            ..NONE
        };
        let answer = said(
            &rt,
            rt.alloc(),
            &["drive", "a"],
            &[A],
            script.as_str(),
            failing,
        )?;
        assert_eq!(rt; answer.as_str(), "read fault\n");
    }
    let failing = Failing { read: 5, ..NONE };
    let answer = said(
        &rt,
        rt.alloc(),
        &["drive", "a"],
        &[A],
        script.as_str(),
        failing,
    )?;
    assert_eq!(rt; answer.lines().next(), Some("done"));
    Ok(())
}

#[test]
fn each_read_of_a_file_can_fail(rt: HostRuntime) -> Result<(), Fail> {
    let alloc = rt.alloc();
    let words = ["drive", "a", "b", "c"];
    let files = [DOMAIN, DOMAIN, A];
    let rows = [
        (1, "file 0: fault\n"),
        (2, "file 1: fault\n"),
        (3, "file 2: fault\n"),
        (4, "file 1: 11 at \n"),
    ];
    for (number, want) in rows {
        let failing = Failing {
            file: number,
            ..NONE
        };
        let answer = said(&rt, rt.alloc(), &words, &files, "", failing)?;
        assert_eq!(rt; answer.as_str(), want);
    }
    Ok(())
}

// Two checks make three lines: two records and a total. The fourth call is the flush.
#[test]
fn a_failed_write_leaves_the_lines_before_it(rt: HostRuntime) -> Result<(), Fail> {
    let alloc = rt.alloc();
    let lines = [
        r#"{"counts":[{"before":0}],"line":1,"moment":0,"reply":{"overallCode":"OK","statuses":[{"code":"OK","currentLimit":{"requestsPerUnit":2,"unit":"MINUTE"},"durationUntilReset":"60s","limitRemaining":1}]},"version":0,"worker":0}"#,
        r#"{"counts":[{"before":1}],"line":2,"moment":0,"reply":{"overallCode":"OK","statuses":[{"code":"OK","currentLimit":{"requestsPerUnit":2,"unit":"MINUTE"},"durationUntilReset":"60s"}]},"version":0,"worker":0}"#,
        r#"{"charged":2,"counter":{"domain":"d","entries":[{"key":"k","value":"a"}],"start":0,"unit":"MINUTE"}}"#,
    ];
    let script = joined(alloc, &[CHECK_A, CHECK_A])?;
    for number in 1..=5u64 {
        let failing = Failing {
            write: number,
            ..NONE
        };
        let mut want = String::from_str(
            alloc,
            if number == 5 {
                "done\n"
            } else {
                "write fault\n"
            },
        )?;
        for (_, line) in (1..number).zip(&lines) {
            want.push_str(line)?;
            want.push('\n')?;
        }
        let answer = said(
            &rt,
            rt.alloc(),
            &["drive", "a"],
            &[A],
            script.as_str(),
            failing,
        )?;
        assert_eq!(rt; answer.as_str(), want.as_str());
    }
    Ok(())
}

// As many counters of one window as there are cells, and one more.
#[test]
fn the_first_counter_past_the_cells_is_refused(rt: HostRuntime) -> Result<(), Fail> {
    let alloc = rt.alloc();
    let mut script = String::new(alloc);
    for value in 0..262_145u32 {
        let line = format!(in alloc;
            "{{\"check\":{{\"domain\":\"d\",\"descriptors\":[{{\"entries\":[{{\"key\":\"k\",\"value\":\"{value}\"}}]}}]}}}}\n"
        )?;
        script.push_str(line.as_str())?;
    }
    let answer = said(
        &rt,
        rt.alloc(),
        &["drive", "a"],
        &[A],
        script.as_str(),
        NONE,
    )?;
    assert_eq!(rt; answer.lines().next(), Some("done"));
    assert_eq!(rt; answer.lines().nth(262_145), Some(FULL));
    assert_eq!(rt; answer.lines().nth(262_146), Some(FIRST_TOTAL));
    assert_eq!(rt; answer.lines().count(), 524_290);
    Ok(())
}

// The number that the documents give: a run of that size would take longer than all other tests.
#[test]
fn a_printed_run_has_at_most_so_many_bytes(rt: HostRuntime) {
    assert_eq!(rt; MOST_RUN_BYTES, 1_073_741_824);
}
