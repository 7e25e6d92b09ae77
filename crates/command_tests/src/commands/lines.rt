// What single lines of a script come to.
use super::{A, NONE, said};
use std::alloc::Global;
use std::test::Fail;

// The record of a check that no rule limits.
const WITHOUT_RULE: &str =
    "done\n{\"counts\":[null],\"line\":1,\"moment\":0,\"reply\":{\"overallCode\":\"OK\",\"statuses\":[{\"code\":\"OK\"}]},\"version\":0,\"worker\":0}\n";

// A table is a text. Each of its lines is a line of a script, an arrow, and the place and the number of its refusal.
const REFUSED: &str = r#"{ => "at":"","number":1
{"tick":1}} => "at":"","number":1
tick => "at":"","number":1
  => "at":"","number":1
[] => "at":"","number":2
{} => "at":"","number":27
null => "at":"","number":2
{"tock":1} => "at":"/tock","number":3
{"tick":-1} => "at":"/tick","number":7
{"tick":1000000000001} => "at":"/tick","number":7
{"check":{}} => "at":"/check","number":20
{"check":{"domain":"d","descriptors":[]}} => "at":"/check","number":21
{"check":{"domain":"d","descriptors":[{"entries":[]}]}} => "at":"/check/descriptors/0","number":23
{"check":{"domain":"d","descriptors":[{"entries":[{"key":"","value":"a"}]}]}} => "at":"/check/descriptors/0/entries/0","number":24
{"check":{"domain":"","descriptors":[{"entries":[{"key":"k","value":"a"}]}]}} => "at":"/check","number":20
{"check":{"domain":"d","descriptors":[{"entries":[{"key":"k","value":"a","x":1}]}]}} => "at":"/check/descriptors/0/entries/0/x","number":3"#;

// The exit and the output of a run whose one line is refused so.
fn refused(alloc: Global, at: &str) -> Result<String, Fail> {
    Ok(format!(in alloc;
        "done\n{{\"line\":1,\"moment\":0,\"refused\":{{{at}}},\"version\":0,\"worker\":0}}\n"
    )?)
}

#[test]
fn lines_are_refused_by_number(rt: HostRuntime) -> Result<(), Fail> {
    let alloc = rt.alloc();
    for row in REFUSED.lines() {
        let (line, at) = row.split_once(" => ").ok_or("a row")?;
        let answer = said(&rt, rt.alloc(), &["drive", "a"], &[A], line, NONE)?;
        assert_eq!(rt; answer.as_str(), refused(alloc, at)?.as_str(), "at {line}");
    }
    Ok(())
}

#[test]
fn the_greatest_tick_and_a_name_given_twice_are_read(rt: HostRuntime) -> Result<(), Fail> {
    const ROWS: &[(&str, &str)] = &[
        (
            "{\"tick\":1000000000000}",
            "done\n{\"line\":1,\"moment\":1000000000000,\"ticked\":1000000000000,\"version\":0,\"worker\":0}\n",
        ),
        (
            "{\"tick\":65,\"tick\":7}",
            "done\n{\"line\":1,\"moment\":7,\"ticked\":7,\"version\":0,\"worker\":0}\n",
        ),
    ];
    for &(line, want) in ROWS {
        let answer = said(&rt, rt.alloc(), &["drive", "a"], &[A], line, NONE)?;
        assert_eq!(rt; answer.as_str(), want, "at {line}");
    }
    Ok(())
}

// A check of k with a value of so many bytes.
fn check_of_length(alloc: Global, bytes: usize) -> Result<String, Fail> {
    let value = "x".repeat(alloc, bytes)?;
    Ok(format!(in alloc;
        "{{\"check\":{{\"domain\":\"d\",\"descriptors\":[{{\"entries\":[{{\"key\":\"k\",\"value\":\"{value}\"}}]}}]}}}}"
    )?)
}

#[test]
fn a_text_has_at_most_1024_bytes(rt: HostRuntime) -> Result<(), Fail> {
    let alloc = rt.alloc();
    let longest = check_of_length(alloc, 1024)?;
    let answer = said(
        &rt,
        rt.alloc(),
        &["drive", "a"],
        &[A],
        longest.as_str(),
        NONE,
    )?;
    assert!(rt; answer.starts_with("done\n{\"counts\":[{\"before\":0}],\"line\":1,"));
    let longer = check_of_length(alloc, 1025)?;
    let answer = said(
        &rt,
        rt.alloc(),
        &["drive", "a"],
        &[A],
        longer.as_str(),
        NONE,
    )?;
    let at = r#""at":"/check/descriptors/0/entries/0/value","number":26"#;
    assert_eq!(rt; answer.as_str(), refused(alloc, at)?.as_str());
    Ok(())
}

#[test]
fn a_check_without_a_rule_is_answered(rt: HostRuntime) -> Result<(), Fail> {
    let unknown_domain =
        r#"{"check":{"domain":"x","descriptors":[{"entries":[{"key":"k","value":"a"}]}]}}"#;
    let unknown_key =
        r#"{"check":{"domain":"d","descriptors":[{"entries":[{"key":"x","value":"a"}]}]}}"#;
    for line in [unknown_domain, unknown_key] {
        let found = said(&rt, rt.alloc(), &["drive", "a"], &[A], line, NONE)?;
        assert_eq!(rt; found.as_str(), WITHOUT_RULE, "at {line}");
    }
    Ok(())
}
