// Printed runs, judged: which clause each tampered run breaks.
use config_json::read_config;
use rate_types::{Blob, Blobs, Seconds};
use run_audit::{Clause, Setup, Verdict, audit};
use script_text::Script;
use std::alloc::Global;
use std::sync::Arc;
use std::test::Fail;

// A limit of 2 a minute for each value of k.
const CONFIG: &str =
    r#"{"domain":"d","descriptors":[{"key":"k","rateLimit":{"unit":"MINUTE","requestsPerUnit":2}}]}"#;

// A tick, four checks of k=a, a reload of the same configuration, and a check of k=b.
const SCRIPT: &str = r#"{"tick":65}
{"check":{"domain":"d","descriptors":[{"entries":[{"key":"k","value":"a"}]}]}}
{"check":{"domain":"d","descriptors":[{"entries":[{"key":"k","value":"a"}]}]}}
{"check":{"domain":"d","descriptors":[{"entries":[{"key":"k","value":"a"}]}]}}
{"check":{"domain":"d","descriptors":[{"entries":[{"key":"k","value":"a"}]}]}}
{"reload":[{"domain":"d","descriptors":[{"key":"k","rateLimit":{"unit":"MINUTE","requestsPerUnit":2}}]}]}
{"check":{"domain":"d","descriptors":[{"entries":[{"key":"k","value":"b"}]}]}}
"#;

// The records of its run by one worker, and its totals.
const TICK_1: &str = r#"{"line":1,"moment":65,"ticked":65,"version":0,"worker":0}"#;

const CHECK_2: &str =
    r#"{"counts":[{"before":0}],"line":2,"moment":65,"reply":{"overallCode":"OK","statuses":[{"code":"OK","currentLimit":{"requestsPerUnit":2,"unit":"MINUTE"},"durationUntilReset":"55s","limitRemaining":1}]},"version":0,"worker":0}"#;

const CHECK_3: &str =
    r#"{"counts":[{"before":1}],"line":3,"moment":65,"reply":{"overallCode":"OK","statuses":[{"code":"OK","currentLimit":{"requestsPerUnit":2,"unit":"MINUTE"},"durationUntilReset":"55s"}]},"version":0,"worker":0}"#;

const CHECK_4: &str =
    r#"{"counts":[{"before":2}],"line":4,"moment":65,"reply":{"overallCode":"OVER_LIMIT","statuses":[{"code":"OVER_LIMIT","currentLimit":{"requestsPerUnit":2,"unit":"MINUTE"},"durationUntilReset":"55s"}]},"version":0,"worker":0}"#;

const CHECK_5: &str =
    r#"{"counts":[{"seen":3}],"line":5,"moment":65,"reply":{"overallCode":"OVER_LIMIT","statuses":[{"code":"OVER_LIMIT","currentLimit":{"requestsPerUnit":2,"unit":"MINUTE"},"durationUntilReset":"55s"}]},"version":0,"worker":0}"#;

const RELOAD_6: &str = r#"{"installed":1,"line":6,"moment":65,"version":1,"worker":0}"#;

const CHECK_7: &str =
    r#"{"counts":[{"before":0}],"line":7,"moment":65,"reply":{"overallCode":"OK","statuses":[{"code":"OK","currentLimit":{"requestsPerUnit":2,"unit":"MINUTE"},"durationUntilReset":"55s","limitRemaining":1}]},"version":1,"worker":0}"#;

const TOTAL_A: &str =
    r#"{"charged":3,"counter":{"domain":"d","entries":[{"key":"k","value":"a"}],"start":60,"unit":"MINUTE"}}"#;

const TOTAL_B: &str =
    r#"{"charged":1,"counter":{"domain":"d","entries":[{"key":"k","value":"b"}],"start":60,"unit":"MINUTE"}}"#;

// The second check shows the count of the first.
const CHANGED_COUNT: &str =
    r#"{"counts":[{"before":0}],"line":3,"moment":65,"reply":{"overallCode":"OK","statuses":[{"code":"OK","currentLimit":{"requestsPerUnit":2,"unit":"MINUTE"},"durationUntilReset":"55s","limitRemaining":1}]},"version":0,"worker":0}"#;

const OFF_BY_ONE: &str =
    r#"{"charged":4,"counter":{"domain":"d","entries":[{"key":"k","value":"a"}],"start":60,"unit":"MINUTE"}}"#;

const FALLEN_VERSION: &str =
    r#"{"counts":[{"before":0}],"line":7,"moment":65,"reply":{"overallCode":"OK","statuses":[{"code":"OK","currentLimit":{"requestsPerUnit":2,"unit":"MINUTE"},"durationUntilReset":"55s","limitRemaining":1}]},"version":0,"worker":0}"#;

const INVENTED_SIGHT: &str =
    r#"{"counts":[{"seen":4}],"line":5,"moment":65,"reply":{"overallCode":"OVER_LIMIT","statuses":[{"code":"OVER_LIMIT","currentLimit":{"requestsPerUnit":2,"unit":"MINUTE"},"durationUntilReset":"55s"}]},"version":0,"worker":0}"#;
// The check of k=b shows the count of a charge of k=a.
const MOVED_CHARGE: &str =
    r#"{"counts":[{"before":1}],"line":7,"moment":65,"reply":{"overallCode":"OK","statuses":[{"code":"OK","currentLimit":{"requestsPerUnit":2,"unit":"MINUTE"},"durationUntilReset":"55s"}]},"version":1,"worker":0}"#;

const NO_CAUSE: &str =
    r#"{"line":7,"moment":65,"refused":{"held":0,"live":1,"name":"CountersFull","wanted":1},"version":1,"worker":0}"#;

const NO_TICK: &str =
    r#"{"counts":[{"before":0}],"line":7,"moment":66,"reply":{"overallCode":"OK","statuses":[{"code":"OK","currentLimit":{"requestsPerUnit":2,"unit":"MINUTE"},"durationUntilReset":"54s","limitRemaining":1}]},"version":1,"worker":0}"#;

// The tick shows another number than its line's.
const OTHER_TICK: &str = r#"{"line":1,"moment":65,"ticked":64,"version":0,"worker":0}"#;

// What is said of these lines as the run of the script by one worker over 16 cells from moment 0.
fn verdict(alloc: Global, run: &[&str]) -> Result<Verdict, Fail> {
    let mut files = Vec::new(alloc);
    files.push(Blob::of(Vec::from_slice(alloc, CONFIG.as_bytes())?))?;
    let Ok(config) = read_config(alloc, &Blobs::of(files)) else {
        return Err("a configuration".into());
    };
    let Ok(script) = Script::read(alloc, SCRIPT.as_bytes()) else {
        return Err("a script".into());
    };
    let mut text = String::new(alloc);
    for line in run {
        text.push_str(line)?;
        text.push('\n')?;
    }
    let first = Arc::new(alloc, config)?;
    let lines = script.read_lines(alloc)?;
    let setup = Setup {
        workers: 1,
        cells: 16,
        start: Seconds::capped(0),
        global_shadow: false,
    };
    Ok(audit(alloc, &first, setup, &lines, text.as_bytes())?)
}

#[test]
fn a_printed_run_is_lawful(rt: HostRuntime) -> Result<(), Fail> {
    let run = [
        TICK_1, CHECK_2, CHECK_3, CHECK_4, CHECK_5, RELOAD_6, CHECK_7, TOTAL_A, TOTAL_B,
    ];
    let lawful = verdict(rt.alloc(), &run)? == Verdict::Lawful { records: 7 };
    assert!(rt; lawful);
    Ok(())
}

#[test]
fn tampered_runs_break_their_clause(rt: HostRuntime) -> Result<(), Fail> {
    let rows: [(&[&str], Clause); 10] = [
        (
            &[
                TICK_1,
                CHECK_2,
                CHANGED_COUNT,
                CHECK_4,
                CHECK_5,
                RELOAD_6,
                CHECK_7,
                TOTAL_A,
                TOTAL_B,
            ],
            Clause::ChargesFormLedger,
        ),
        (
            &[
                TICK_1, CHECK_3, CHECK_2, CHECK_4, CHECK_5, RELOAD_6, CHECK_7, TOTAL_A, TOTAL_B,
            ],
            Clause::OneRecordPerLine,
        ),
        (
            &[
                TICK_1, CHECK_2, CHECK_4, CHECK_5, RELOAD_6, CHECK_7, TOTAL_A, TOTAL_B,
            ],
            Clause::OneRecordPerLine,
        ),
        (
            &[
                TICK_1, CHECK_2, CHECK_3, CHECK_4, CHECK_5, RELOAD_6, CHECK_7, OFF_BY_ONE, TOTAL_B,
            ],
            Clause::TotalsOfCharges,
        ),
        (
            &[
                TICK_1,
                CHECK_2,
                CHECK_3,
                CHECK_4,
                CHECK_5,
                RELOAD_6,
                FALLEN_VERSION,
                TOTAL_A,
                TOTAL_B,
            ],
            Clause::VersionsNeverFall,
        ),
        (
            &[
                TICK_1,
                CHECK_2,
                CHECK_3,
                CHECK_4,
                INVENTED_SIGHT,
                RELOAD_6,
                CHECK_7,
                TOTAL_A,
                TOTAL_B,
            ],
            Clause::SightsLawful,
        ),
        (
            &[
                TICK_1,
                CHECK_2,
                CHECK_3,
                CHECK_4,
                CHECK_5,
                RELOAD_6,
                MOVED_CHARGE,
                TOTAL_A,
                TOTAL_B,
            ],
            Clause::ChargesFormLedger,
        ),
        (
            &[
                TICK_1, CHECK_2, CHECK_3, CHECK_4, CHECK_5, RELOAD_6, NO_CAUSE, TOTAL_A,
            ],
            Clause::RefusalsHaveCauses,
        ),
        (
            &[
                TICK_1, CHECK_2, CHECK_3, CHECK_4, CHECK_5, RELOAD_6, NO_TICK, TOTAL_A, TOTAL_B,
            ],
            Clause::MomentsNeverFall,
        ),
        (
            &[
                OTHER_TICK, CHECK_2, CHECK_3, CHECK_4, CHECK_5, RELOAD_6, CHECK_7, TOTAL_A, TOTAL_B,
            ],
            Clause::MomentsNeverFall,
        ),
    ];
    for (run, clause) in rows {
        let broken = verdict(rt.alloc(), run)? == Verdict::Breaks(clause);
        assert!(rt; broken);
    }
    Ok(())
}

#[test]
fn a_record_after_a_total_has_no_form(rt: HostRuntime) -> Result<(), Fail> {
    let run = [
        TICK_1, CHECK_2, CHECK_3, CHECK_4, CHECK_5, RELOAD_6, TOTAL_A, CHECK_7, TOTAL_B,
    ];
    let wrong = verdict(rt.alloc(), &run)? == Verdict::Form { line: 8 };
    assert!(rt; wrong);
    Ok(())
}
