// Texts of records, totals and runs.
use reply_text::{Outcome, Record, record_text, total_text};
use rls_core::Count;
use run_text::{RunText, Said, read_record, read_run, read_total};
use std::alloc::Global;
use std::test::Fail;

/// The record of a line that was run.
pub fn run(alloc: Global, text: &str) -> Result<Record, Fail> {
    match read_record(alloc, text.as_bytes())? {
        Some(Said::Run(rec)) => Ok(rec),
        _ => Err("the record of a line that was run".into()),
    }
}

#[test]
fn records_are_read(rt: HostRuntime) -> Result<(), Fail> {
    let alloc = rt.alloc();
    for text in [
        r#"{"counts":[{"before":0}],"line":2,"moment":65,"reply":{"overallCode":"OK","statuses":[{"code":"OK","currentLimit":{"requestsPerUnit":2,"unit":"MINUTE"},"durationUntilReset":"55s","limitRemaining":1}]},"version":0,"worker":0}"#,
        r#"{"counts":[null],"line":2,"moment":65,"reply":{"overallCode":"OK","statuses":[{"code":"OK"}]},"version":0,"worker":3}"#,
        r#"{"line":2,"moment":100,"ticked":50,"version":0,"worker":0}"#,
        r#"{"installed":7,"line":4294967295,"moment":1000000000000,"version":7,"worker":0}"#,
        r#"{"line":2,"moment":0,"refused":{"held":0,"live":1,"name":"CountersFull","wanted":1},"version":0,"worker":0}"#,
        r#"{"line":2,"moment":0,"refused":{"claims":18446744073709551615,"name":"ClaimsSpent","wanted":1},"version":0,"worker":0}"#,
        r#"{"line":2,"moment":0,"refused":{"name":"VersionsFull","versions":1048576},"version":0,"worker":0}"#,
    ] {
        let rec = run(alloc, text)?;
        let again = record_text(alloc, &rec)?;
        assert_eq!(rt; again.as_str(), text);
    }
    Ok(())
}

#[test]
fn a_count_and_its_status_are_read(rt: HostRuntime) -> Result<(), Fail> {
    let alloc = rt.alloc();
    let text =
        r#"{"counts":[{"seen":3}],"line":2,"moment":65,"reply":{"overallCode":"OVER_LIMIT","statuses":[{"code":"OVER_LIMIT","currentLimit":{"unit":"DAY"},"durationUntilReset":"18446744073709551615s"}]},"version":0,"worker":0}"#;
    let rec = run(alloc, text)?;
    let Outcome::Checked(answer) = rec.outcome else {
        return Err("an answer".into());
    };
    let items = answer.items();
    let [status] = items.as_slice() else {
        return Err("one status".into());
    };
    assert!(rt; answer.over());
    assert!(rt; status.count == Count::Seen(3));
    assert_eq!(rt; status.reset, 18_446_744_073_709_551_615);
    Ok(())
}

#[test]
fn refused_lines_are_read(rt: HostRuntime) -> Result<(), Fail> {
    let text =
        r#"{"line":2,"moment":0,"refused":{"at":"/check/a~1b~0c","number":5},"version":0,"worker":1}"#;
    let Some(Said::Bad(bad)) = read_record(rt.alloc(), text.as_bytes())? else {
        return Err("the record of a refused line".into());
    };
    assert_eq!(rt; bad.at.as_str(), "/check/a~1b~0c");
    assert_eq!(rt; (bad.number, bad.worker), (5, 1));
    Ok(())
}

#[test]
fn other_texts_are_no_records(rt: HostRuntime) -> Result<(), Fail> {
    let alloc = rt.alloc();
    for text in [
        "",
        "{}",
        r#"{"line":2,"moment":100,"ticked":50,"version":0,"worker":0} "#,
        r#"{"line":2, "moment":100,"ticked":50,"version":0,"worker":0}"#,
        r#"{"moment":100,"line":2,"ticked":50,"version":0,"worker":0}"#,
        r#"{"line":2,"moment":100,"ticked":50,"version":0}"#,
        r#"{"line":2,"moment":100,"ticked":50,"version":0,"worker":0,"x":0}"#,
        r#"{"line":2.0,"moment":100,"ticked":50,"version":0,"worker":0}"#,
        r#"{"line":4294967296,"moment":100,"ticked":50,"version":0,"worker":0}"#,
        r#"{"line":2,"moment":1000000000001,"ticked":50,"version":0,"worker":0}"#,
        r#"{"installed":7,"line":2,"moment":0,"version":8,"worker":0}"#,
        r#"{"line":2,"moment":0,"refused":{"at":"check","number":5},"version":0,"worker":1}"#,
        r#"{"line":2,"moment":0,"refused":{"at":"/a~2","number":5},"version":0,"worker":1}"#,
        r#"{"line":2,"moment":0,"refused":{"at":"/a~","number":5},"version":0,"worker":1}"#,
        r#"{"counts":[],"line":2,"moment":65,"reply":{"overallCode":"OK","statuses":[{"code":"OK"}]},"version":0,"worker":0}"#,
        r#"{"counts":[null],"line":2,"moment":65,"reply":{"overallCode":"OK","statuses":[{"code":"OK","durationUntilReset":"5s"}]},"version":0,"worker":0}"#,
        r#"{"charged":1,"counter":{"domain":"a","entries":[{"key":"k","value":"v"}],"start":60,"unit":"MINUTE"}}"#,
    ] {
        let none = read_record(alloc, text.as_bytes())?.is_none();
        assert!(rt; none);
    }
    Ok(())
}

#[test]
fn totals_are_read(rt: HostRuntime) -> Result<(), Fail> {
    let alloc = rt.alloc();
    let text =
        r#"{"charged":18446744073709551615,"counter":{"domain":"a","entries":[{"key":"k","value":""}],"start":60,"unit":"MINUTE"}}"#;
    let Some(total) = read_total(alloc, text.as_bytes())? else {
        return Err("a total".into());
    };
    let again = total_text(alloc, &total)?;
    assert_eq!(rt; again.as_str(), text);
    for text in [
        r#"{"charged":1,"counter":{"domain":"a","entries":[],"start":60,"unit":"MINUTE"}}"#,
        r#"{"charged":1,"counter":{"domain":"a","entries":[{"key":"","value":"v"}],"start":60,"unit":"MINUTE"}}"#,
        r#"{"charged":1,"counter":{"domain":"a","entries":[{"key":"k","value":"v"}],"start":60,"unit":"WEEK"}}"#,
        r#"{"line":2,"moment":100,"ticked":50,"version":0,"worker":0}"#,
    ] {
        let none = read_total(alloc, text.as_bytes())?.is_none();
        assert!(rt; none);
    }
    Ok(())
}

#[test]
fn runs_are_read(rt: HostRuntime) -> Result<(), Fail> {
    let alloc = rt.alloc();
    let tick = "{\"line\":1,\"moment\":5,\"ticked\":5,\"version\":0,\"worker\":0}";
    let total =
        "{\"charged\":1,\"counter\":{\"domain\":\"a\",\"entries\":[{\"key\":\"k\",\"value\":\"v\"}],\"start\":60,\"unit\":\"MINUTE\"}}";
    for (text, records, totals) in [
        (format!(in alloc; "")?, 0, 0),
        (format!(in alloc; "{tick}\n")?, 1, 0),
        (format!(in alloc; "{total}\n")?, 0, 1),
        (
            format!(in alloc; "{tick}\n{tick}\n{total}\n{total}\n")?,
            2,
            2,
        ),
    ] {
        let RunText::Lines {
            records: found,
            totals: sums,
        } = read_run(alloc, text.as_bytes())?
        else {
            return Err("a run".into());
        };
        assert_eq!(rt; (found.len(), sums.len()), (records, totals));
    }
    for (text, want) in [
        (format!(in alloc; "\n")?, 1),
        (format!(in alloc; "{tick}")?, 1),
        (format!(in alloc; "{tick}\n{total}")?, 2),
        (format!(in alloc; "{tick}\n\n{total}\n")?, 2),
        (format!(in alloc; "{tick}\n{total}\n{tick}\n")?, 3),
        (format!(in alloc; "{tick}\r\n")?, 1),
        (format!(in alloc; "{tick}\n{total}\nx")?, 3),
    ] {
        let RunText::Wrong { line } = read_run(alloc, text.as_bytes())? else {
            return Err("a line that is neither".into());
        };
        assert_eq!(rt; line, want);
    }
    Ok(())
}
