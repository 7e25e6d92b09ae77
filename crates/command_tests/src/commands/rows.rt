// Commands over configurations, scripts and requests with what they write.
use super::{A, A0, CHECK_A, CHECK_B, NONE, joined, said};
use std::alloc::Global;
use std::random::RandomSource;
use std::sync::Wait;
use std::test::Fail;
use std::thread::Threads;

// A limit of 1 a minute for each value of k.
const A1: &str =
    r#"{"domain":"d","descriptors":[{"key":"k","rateLimit":{"unit":"MINUTE","requestsPerUnit":1}}]}"#;

// The exit and the output of a command over one file, and those of a whole run that writes these lines.
fn run<R: Threads + Wait + RandomSource + Sync>(
    rt: &R,
    alloc: Global,
    words: &[&str],
    config: &str,
    input: &[&str],
    lines: &[&str],
) -> Result<(String, String), Fail> {
    let mut want = String::from_str(alloc, "done\n")?;
    want.push_str(joined(alloc, lines)?.as_str())?;
    let found = said(
        rt,
        alloc,
        words,
        &[config],
        joined(alloc, input)?.as_str(),
        NONE,
    )?;
    Ok((found, want))
}

#[test]
fn a_reload_installs_the_next_version(rt: HostRuntime) -> Result<(), Fail> {
    let (found, want) = run(
        &rt,
        rt.alloc(),
        &["drive", "a"],
        A1,
        &[
            CHECK_A,
            CHECK_A,
            r#"{"reload":[{"domain":"d","descriptors":[{"key":"k","rateLimit":{"unit":"MINUTE","requestsPerUnit":5}}]}]}"#,
            CHECK_A,
            r#"{"reload":[{"domain":"d","descriptors":[{"key":""}]}]}"#,
        ],
        &[
            r#"{"counts":[{"before":0}],"line":1,"moment":0,"reply":{"overallCode":"OK","statuses":[{"code":"OK","currentLimit":{"requestsPerUnit":1,"unit":"MINUTE"},"durationUntilReset":"60s"}]},"version":0,"worker":0}"#,
            r#"{"counts":[{"before":1}],"line":2,"moment":0,"reply":{"overallCode":"OVER_LIMIT","statuses":[{"code":"OVER_LIMIT","currentLimit":{"requestsPerUnit":1,"unit":"MINUTE"},"durationUntilReset":"60s"}]},"version":0,"worker":0}"#,
            r#"{"installed":1,"line":3,"moment":0,"version":1,"worker":0}"#,
            r#"{"counts":[{"before":2}],"line":4,"moment":0,"reply":{"overallCode":"OK","statuses":[{"code":"OK","currentLimit":{"requestsPerUnit":5,"unit":"MINUTE"},"durationUntilReset":"60s","limitRemaining":2}]},"version":1,"worker":0}"#,
            r#"{"line":5,"moment":0,"refused":{"at":"/reload/0/descriptors/0","number":12},"version":1,"worker":0}"#,
            r#"{"charged":3,"counter":{"domain":"d","entries":[{"key":"k","value":"a"}],"start":0,"unit":"MINUTE"}}"#,
        ],
    )?;
    assert_eq!(rt; found.as_str(), want.as_str());
    Ok(())
}

#[test]
fn a_counter_without_a_cell_is_refused(rt: HostRuntime) -> Result<(), Fail> {
    let (found, want) = run(
        &rt,
        rt.alloc(),
        &["drive", "--cells", "1", "a"],
        A,
        &[CHECK_A, CHECK_B, r#"{"tick":60}"#, CHECK_B],
        &[
            r#"{"counts":[{"before":0}],"line":1,"moment":0,"reply":{"overallCode":"OK","statuses":[{"code":"OK","currentLimit":{"requestsPerUnit":2,"unit":"MINUTE"},"durationUntilReset":"60s","limitRemaining":1}]},"version":0,"worker":0}"#,
            r#"{"line":2,"moment":0,"refused":{"held":0,"live":1,"name":"CountersFull","wanted":1},"version":0,"worker":0}"#,
            r#"{"line":3,"moment":60,"ticked":60,"version":0,"worker":0}"#,
            r#"{"counts":[{"before":0}],"line":4,"moment":60,"reply":{"overallCode":"OK","statuses":[{"code":"OK","currentLimit":{"requestsPerUnit":2,"unit":"MINUTE"},"durationUntilReset":"60s","limitRemaining":1}]},"version":0,"worker":0}"#,
            r#"{"charged":1,"counter":{"domain":"d","entries":[{"key":"k","value":"b"}],"start":60,"unit":"MINUTE"}}"#,
        ],
    )?;
    assert_eq!(rt; found.as_str(), want.as_str());
    Ok(())
}

#[test]
fn a_run_starts_where_it_is_told_to(rt: HostRuntime) -> Result<(), Fail> {
    let (found, want) = run(
        &rt,
        rt.alloc(),
        &["drive", "--start", "60", "a"],
        A,
        &[CHECK_A],
        &[
            r#"{"counts":[{"before":0}],"line":1,"moment":60,"reply":{"overallCode":"OK","statuses":[{"code":"OK","currentLimit":{"requestsPerUnit":2,"unit":"MINUTE"},"durationUntilReset":"60s","limitRemaining":1}]},"version":0,"worker":0}"#,
            r#"{"charged":1,"counter":{"domain":"d","entries":[{"key":"k","value":"a"}],"start":60,"unit":"MINUTE"}}"#,
        ],
    )?;
    assert_eq!(rt; found.as_str(), want.as_str());
    Ok(())
}

#[test]
fn global_shadow_leaves_the_statuses(rt: HostRuntime) -> Result<(), Fail> {
    let (found, want) = run(
        &rt,
        rt.alloc(),
        &["drive", "a", "--global-shadow"],
        A0,
        &[CHECK_A],
        &[
            r#"{"counts":[{"before":0}],"line":1,"moment":0,"reply":{"overallCode":"OK","statuses":[{"code":"OVER_LIMIT","currentLimit":{"unit":"MINUTE"},"durationUntilReset":"60s"}]},"version":0,"worker":0}"#,
            r#"{"charged":1,"counter":{"domain":"d","entries":[{"key":"k","value":"a"}],"start":0,"unit":"MINUTE"}}"#,
        ],
    )?;
    assert_eq!(rt; found.as_str(), want.as_str());
    Ok(())
}

#[test]
fn requests_are_looked_up(rt: HostRuntime) -> Result<(), Fail> {
    let (found, want) = run(
        &rt,
        rt.alloc(),
        &["lookup", "a"],
        r#"{"domain":"d","descriptors":[{"key":"n","value":"u*","rateLimit":{"unit":"MINUTE","requestsPerUnit":1}},{"key":"n","value":"us*","rateLimit":{"unit":"MINUTE","requestsPerUnit":2}},{"key":"n","rateLimit":{"unit":"MINUTE","requestsPerUnit":3}},{"key":"f","rateLimit":{"unlimited":true}}]}"#,
        &[
            r#"{"domain":"d","descriptors":[{"entries":[{"key":"n","value":"user"}]},{"entries":[{"key":"n","value":"us*"}]},{"entries":[{"key":"n","value":"x"}]}]}"#,
            r#"{"domain":"d"}"#,
            r#"{"domain":"d","descriptors":[{"entries":[{"key":"f"}]},{"entries":[{"key":"g"}]},{"entries":[{"key":"g"}],"limit":{"requestsPerUnit":7,"unit":"HOUR"}}]}"#,
        ],
        &[
            r#"{"found":[{"limit":1,"rule":0,"shadow":false,"unit":"MINUTE"},{"limit":2,"rule":1,"shadow":false,"unit":"MINUTE"},{"limit":3,"rule":2,"shadow":false,"unit":"MINUTE"}],"line":1}"#,
            r#"{"line":2,"refused":{"at":"","number":21}}"#,
            r#"{"found":[{"rule":3,"unlimited":true},null,{"limit":7,"rule":null,"shadow":false,"unit":"HOUR"}],"line":3}"#,
        ],
    )?;
    assert_eq!(rt; found.as_str(), want.as_str());
    Ok(())
}

// Two nodes whose key and value join to the same text.
const JOINED: &str =
    r#"{"domain":"d","descriptors":[{"key":"a_b","value":"c","rateLimit":{"unit":"MINUTE","requestsPerUnit":1}},{"key":"a","value":"b_c","rateLimit":{"unit":"MINUTE","requestsPerUnit":2}}]}"#;

const JOINED_REQUEST: &str =
    r#"{"domain":"d","descriptors":[{"entries":[{"key":"a_b","value":"c"}]},{"entries":[{"key":"a","value":"b_c"}]}]}"#;

#[test]
fn texts_that_join_alike_are_two_counters(rt: HostRuntime) -> Result<(), Fail> {
    let alloc = rt.alloc();
    let (found, want) = run(
        &rt,
        alloc,
        &["lookup", "a"],
        JOINED,
        &[JOINED_REQUEST],
        &[
            r#"{"found":[{"limit":1,"rule":0,"shadow":false,"unit":"MINUTE"},{"limit":2,"rule":1,"shadow":false,"unit":"MINUTE"}],"line":1}"#,
        ],
    )?;
    assert_eq!(rt; found.as_str(), want.as_str());
    let check = format!(in alloc; r#"{{"check":{JOINED_REQUEST}}}"#)?;
    let (found, want) = run(
        &rt,
        alloc,
        &["drive", "a"],
        JOINED,
        &[check.as_str()],
        &[
            r#"{"counts":[{"before":0},{"before":0}],"line":1,"moment":0,"reply":{"overallCode":"OK","statuses":[{"code":"OK","currentLimit":{"requestsPerUnit":1,"unit":"MINUTE"},"durationUntilReset":"60s"},{"code":"OK","currentLimit":{"requestsPerUnit":2,"unit":"MINUTE"},"durationUntilReset":"60s","limitRemaining":1}]},"version":0,"worker":0}"#,
            r#"{"charged":1,"counter":{"domain":"d","entries":[{"key":"a","value":"b_c"}],"start":0,"unit":"MINUTE"}}"#,
            r#"{"charged":1,"counter":{"domain":"d","entries":[{"key":"a_b","value":"c"}],"start":0,"unit":"MINUTE"}}"#,
        ],
    )?;
    assert_eq!(rt; found.as_str(), want.as_str());
    Ok(())
}

#[test]
fn nested_rules_answer_each_descriptor(rt: HostRuntime) -> Result<(), Fail> {
    let (found, want) = run(
        &rt,
        rt.alloc(),
        &["drive", "a"],
        r#"{"domain":"messaging","descriptors":[{"key":"message_type","value":"marketing","descriptors":[{"key":"to_number","rate_limit":{"unit":"day","requests_per_unit":5}}]},{"key":"to_number","rate_limit":{"unit":"day","requests_per_unit":100}}]}"#,
        &[
            r#"{"check":{"domain":"messaging","descriptors":[{"entries":[{"key":"message_type","value":"marketing"},{"key":"to_number","value":"2061234567"}]},{"entries":[{"key":"to_number","value":"2061234567"}]},{"entries":[{"key":"message_type","value":"marketing"}]}]}}"#,
        ],
        &[
            r#"{"counts":[{"before":0},{"before":0},null],"line":1,"moment":0,"reply":{"overallCode":"OK","statuses":[{"code":"OK","currentLimit":{"requestsPerUnit":5,"unit":"DAY"},"durationUntilReset":"86400s","limitRemaining":4},{"code":"OK","currentLimit":{"requestsPerUnit":100,"unit":"DAY"},"durationUntilReset":"86400s","limitRemaining":99},{"code":"OK"}]},"version":0,"worker":0}"#,
            r#"{"charged":1,"counter":{"domain":"messaging","entries":[{"key":"message_type","value":"marketing"},{"key":"to_number","value":"2061234567"}],"start":0,"unit":"DAY"}}"#,
            r#"{"charged":1,"counter":{"domain":"messaging","entries":[{"key":"to_number","value":"2061234567"}],"start":0,"unit":"DAY"}}"#,
        ],
    )?;
    assert_eq!(rt; found.as_str(), want.as_str());
    Ok(())
}

#[test]
fn shadow_is_charged_and_unlimited_is_not(rt: HostRuntime) -> Result<(), Fail> {
    let shadow =
        r#"{"check":{"domain":"d","descriptors":[{"entries":[{"key":"sh","value":"x"}]}]}}"#;
    let (found, want) = run(
        &rt,
        rt.alloc(),
        &["drive", "a"],
        r#"{"domain":"d","descriptors":[{"key":"sh","shadowMode":true,"rateLimit":{"unit":"MINUTE","requestsPerUnit":1}},{"key":"un","rateLimit":{"unlimited":true}}]}"#,
        &[
            shadow,
            shadow,
            r#"{"check":{"domain":"d","descriptors":[{"entries":[{"key":"un","value":"x"}]}]}}"#,
            r#"{"check":{"domain":"zz","descriptors":[{"entries":[{"key":"sh","value":"x"}]}]}}"#,
        ],
        &[
            r#"{"counts":[{"before":0}],"line":1,"moment":0,"reply":{"overallCode":"OK","statuses":[{"code":"OK","currentLimit":{"requestsPerUnit":1,"unit":"MINUTE"},"durationUntilReset":"60s"}]},"version":0,"worker":0}"#,
            r#"{"counts":[{"before":1}],"line":2,"moment":0,"reply":{"overallCode":"OK","statuses":[{"code":"OK","currentLimit":{"requestsPerUnit":1,"unit":"MINUTE"},"durationUntilReset":"60s"}]},"version":0,"worker":0}"#,
            r#"{"counts":[null],"line":3,"moment":0,"reply":{"overallCode":"OK","statuses":[{"code":"OK","limitRemaining":4294967295}]},"version":0,"worker":0}"#,
            r#"{"counts":[null],"line":4,"moment":0,"reply":{"overallCode":"OK","statuses":[{"code":"OK"}]},"version":0,"worker":0}"#,
            r#"{"charged":2,"counter":{"domain":"d","entries":[{"key":"sh","value":"x"}],"start":0,"unit":"MINUTE"}}"#,
        ],
    )?;
    assert_eq!(rt; found.as_str(), want.as_str());
    Ok(())
}

#[test]
fn a_replaced_rule_counts_nothing(rt: HostRuntime) -> Result<(), Fail> {
    let (found, want) = run(
        &rt,
        rt.alloc(),
        &["drive", "a"],
        r#"{"domain":"d","descriptors":[{"key":"a","rateLimit":{"unit":"MINUTE","requestsPerUnit":10,"name":"base"}},{"key":"b","rateLimit":{"unit":"MINUTE","requestsPerUnit":5,"replaces":[{"name":"base"}]}}]}"#,
        &[
            r#"{"check":{"domain":"d","descriptors":[{"entries":[{"key":"a","value":"1"}]},{"entries":[{"key":"b","value":"1"}]}]}}"#,
            r#"{"check":{"domain":"d","descriptors":[{"entries":[{"key":"a","value":"1"}]}]}}"#,
        ],
        &[
            r#"{"counts":[null,{"before":0}],"line":1,"moment":0,"reply":{"overallCode":"OK","statuses":[{"code":"OK"},{"code":"OK","currentLimit":{"requestsPerUnit":5,"unit":"MINUTE"},"durationUntilReset":"60s","limitRemaining":4}]},"version":0,"worker":0}"#,
            r#"{"counts":[{"before":0}],"line":2,"moment":0,"reply":{"overallCode":"OK","statuses":[{"code":"OK","currentLimit":{"requestsPerUnit":10,"unit":"MINUTE"},"durationUntilReset":"60s","limitRemaining":9}]},"version":0,"worker":0}"#,
            r#"{"charged":1,"counter":{"domain":"d","entries":[{"key":"a","value":"1"}],"start":0,"unit":"MINUTE"}}"#,
            r#"{"charged":1,"counter":{"domain":"d","entries":[{"key":"b","value":"1"}],"start":0,"unit":"MINUTE"}}"#,
        ],
    )?;
    assert_eq!(rt; found.as_str(), want.as_str());
    Ok(())
}

// A check of k=a whose descriptor has these hits of its own.
fn check_of(alloc: Global, hits: &str) -> Result<String, Fail> {
    Ok(format!(in alloc;
        r#"{{"check":{{"domain":"d","descriptors":[{{"entries":[{{"key":"k","value":"a"}}]{hits}}}]}}}}"#
    )?)
}

#[test]
fn hits_of_0_only_read(rt: HostRuntime) -> Result<(), Fail> {
    let alloc = rt.alloc();
    let none = check_of(alloc, "")?;
    let zero = check_of(alloc, r#","hitsAddend":0"#)?;
    let two = check_of(alloc, r#","hitsAddend":"2""#)?;
    let (found, want) = run(
        &rt,
        rt.alloc(),
        &["drive", "a"],
        A,
        &[none.as_str(), zero.as_str(), two.as_str(), zero.as_str()],
        &[
            r#"{"counts":[{"before":0}],"line":1,"moment":0,"reply":{"overallCode":"OK","statuses":[{"code":"OK","currentLimit":{"requestsPerUnit":2,"unit":"MINUTE"},"durationUntilReset":"60s","limitRemaining":1}]},"version":0,"worker":0}"#,
            r#"{"counts":[{"seen":1}],"line":2,"moment":0,"reply":{"overallCode":"OK","statuses":[{"code":"OK","currentLimit":{"requestsPerUnit":2,"unit":"MINUTE"},"durationUntilReset":"60s","limitRemaining":1}]},"version":0,"worker":0}"#,
            r#"{"counts":[{"before":1}],"line":3,"moment":0,"reply":{"overallCode":"OVER_LIMIT","statuses":[{"code":"OVER_LIMIT","currentLimit":{"requestsPerUnit":2,"unit":"MINUTE"},"durationUntilReset":"60s"}]},"version":0,"worker":0}"#,
            r#"{"counts":[{"seen":3}],"line":4,"moment":0,"reply":{"overallCode":"OVER_LIMIT","statuses":[{"code":"OVER_LIMIT","currentLimit":{"requestsPerUnit":2,"unit":"MINUTE"},"durationUntilReset":"60s"}]},"version":0,"worker":0}"#,
            r#"{"charged":3,"counter":{"domain":"d","entries":[{"key":"k","value":"a"}],"start":0,"unit":"MINUTE"}}"#,
        ],
    )?;
    assert_eq!(rt; found.as_str(), want.as_str());
    Ok(())
}

#[test]
fn descriptors_of_one_counter_count_one_after_the_other(rt: HostRuntime) -> Result<(), Fail> {
    let (found, want) = run(
        &rt,
        rt.alloc(),
        &["drive", "a"],
        A1,
        &[
            r#"{"check":{"domain":"d","descriptors":[{"entries":[{"key":"k","value":"a"}]},{"entries":[{"key":"k","value":"a"}]}]}}"#,
        ],
        &[
            r#"{"counts":[{"before":0},{"before":1}],"line":1,"moment":0,"reply":{"overallCode":"OVER_LIMIT","statuses":[{"code":"OK","currentLimit":{"requestsPerUnit":1,"unit":"MINUTE"},"durationUntilReset":"60s"},{"code":"OVER_LIMIT","currentLimit":{"requestsPerUnit":1,"unit":"MINUTE"},"durationUntilReset":"60s"}]},"version":0,"worker":0}"#,
            r#"{"charged":2,"counter":{"domain":"d","entries":[{"key":"k","value":"a"}],"start":0,"unit":"MINUTE"}}"#,
        ],
    )?;
    assert_eq!(rt; found.as_str(), want.as_str());
    Ok(())
}

#[test]
fn the_greatest_hits_are_counted(rt: HostRuntime) -> Result<(), Fail> {
    let most =
        r#"{"check":{"domain":"d","descriptors":[{"entries":[{"key":"k","value":"a"}]}],"hitsAddend":4294967295}}"#;
    let (found, want) = run(
        &rt,
        rt.alloc(),
        &["drive", "a"],
        r#"{"domain":"d","descriptors":[{"key":"k","rateLimit":{"unit":"MINUTE","requestsPerUnit":4294967295}}]}"#,
        &[most, most, most],
        &[
            r#"{"counts":[{"before":0}],"line":1,"moment":0,"reply":{"overallCode":"OK","statuses":[{"code":"OK","currentLimit":{"requestsPerUnit":4294967295,"unit":"MINUTE"},"durationUntilReset":"60s"}]},"version":0,"worker":0}"#,
            r#"{"counts":[{"before":4294967295}],"line":2,"moment":0,"reply":{"overallCode":"OVER_LIMIT","statuses":[{"code":"OVER_LIMIT","currentLimit":{"requestsPerUnit":4294967295,"unit":"MINUTE"},"durationUntilReset":"60s"}]},"version":0,"worker":0}"#,
            r#"{"counts":[{"seen":8589934590}],"line":3,"moment":0,"reply":{"overallCode":"OVER_LIMIT","statuses":[{"code":"OVER_LIMIT","currentLimit":{"requestsPerUnit":4294967295,"unit":"MINUTE"},"durationUntilReset":"60s"}]},"version":0,"worker":0}"#,
            r#"{"charged":8589934590,"counter":{"domain":"d","entries":[{"key":"k","value":"a"}],"start":0,"unit":"MINUTE"}}"#,
        ],
    )?;
    assert_eq!(rt; found.as_str(), want.as_str());
    Ok(())
}

// A table is a text. Each of its lines is a line of a script, an arrow, and the place and the number of its refusal.
const REFUSED: &str = r#" => "at":"","number":1
{"check":{"domain":"d"}} => "at":"/check","number":21
{"tick":1.5} => "at":"/tick","number":6
{"tick":1,"check":{}} => "at":"","number":28"#;

#[test]
fn lines_are_refused_at_their_places(rt: HostRuntime) -> Result<(), Fail> {
    let alloc = rt.alloc();
    for row in REFUSED.lines() {
        let (line, at) = row.split_once(" => ").ok_or("a row")?;
        let want = format!(in alloc;
            r#"{{"line":1,"moment":0,"refused":{{{at}}},"version":0,"worker":0}}"#
        )?;
        let (found, want) = run(
            &rt,
            rt.alloc(),
            &["drive", "a"],
            A,
            &[line],
            &[want.as_str()],
        )?;
        assert_eq!(rt; found.as_str(), want.as_str());
    }
    Ok(())
}

// A table is a text. Each of its lines is the nodes of a file, an arrow, and its refusal.
const NODES: &str = r#"{"key":""} => 12 at /descriptors/0
{"key":"k"},{"key":"k"} => 13 at /descriptors/1
{"key":"k","rate_limit":{"unit":"second","unlimited":true}} => 15 at /descriptors/0/rate_limit
{"key":"k","rateLimit":{},"rate_limit":{}} => 4 at /descriptors/0/rateLimit"#;

#[test]
fn files_are_refused_at_their_places(rt: HostRuntime) -> Result<(), Fail> {
    let alloc = rt.alloc();
    for row in NODES.lines() {
        let (nodes, refusal) = row.split_once(" => ").ok_or("a row")?;
        let file = format!(in alloc; r#"{{"domain":"d","descriptors":[{nodes}]}}"#)?;
        let want = format!(in alloc; "file 0: {refusal}\n")?;
        let found = said(
            &rt,
            rt.alloc(),
            &["lookup", "a"],
            &[file.as_str()],
            "",
            NONE,
        )?;
        assert_eq!(rt; found.as_str(), want.as_str());
    }
    Ok(())
}

// A table is a text. Each of its lines is words that are no command.
const NO_COMMANDS: &str = "drive
drive --workers 0 a
drive --workers 65 a
drive --cells 0 a
drive --cells 1048577 a
drive --start 1000000000001 a
drive --start x a
drive --port 1 a
drive a --cells
drive a --help
drive a --version
lookup
lookup --cells 1 a
lookup -h
serve a
--help drive
--version --version
-h
help";

#[test]
fn other_words_are_no_command(rt: HostRuntime) -> Result<(), Fail> {
    let alloc = rt.alloc();
    for row in NO_COMMANDS.lines() {
        let words: Vec<&str> = row.split(' ').collect(alloc)?;
        let found = said(&rt, rt.alloc(), words.as_slice(), &[A], "", NONE)?;
        assert_eq!(rt; found.as_str(), "usage\n", "at {row}");
    }
    Ok(())
}

#[test]
fn help_and_version_are_printed(rt: HostRuntime) -> Result<(), Fail> {
    let alloc = rt.alloc();
    let help = said(&rt, rt.alloc(), &["--help"], &[], "", NONE)?;
    for text in [
        "done\n",
        "drive [--workers N]",
        "--global-shadow",
        "lookup CONFIG..",
        "7 out of memory",
    ] {
        assert!(rt; help.contains(text), "{text}");
    }
    let version = said(&rt, rt.alloc(), &["--version"], &[], "", NONE)?;
    assert_eq!(rt; version.as_str(), "done\nratelimit 0.1.0\n");
    Ok(())
}
