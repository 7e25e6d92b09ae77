use arrayvec::ArrayVec;
use rate_types::{
    CounterKey, CounterName, Entries, Entry, OwnLimit, Place, Refused, RuleId, Seconds, Text, Unit,
};
use reply_text::{Outcome, Record, Statuses, record_text, reply_body, total_text};
use rls_core::{Code, Count, Reply, Status, Total};
use std::alloc::Global;
use std::test::Fail;

// The status under a limit of so many hits a minute, at moment 65.
fn status(code: Code, limit: u32, remaining: u32, count: Count) -> Status {
    Status {
        code,
        limit: Some(OwnLimit {
            limit,
            unit: Unit::Minute,
        }),
        remaining,
        reset: 55,
        rule: Some(RuleId(0)),
        count,
    }
}

// The status without a limit.
fn free(remaining: u32) -> Status {
    Status {
        code: Code::Ok,
        limit: None,
        remaining,
        reset: 0,
        rule: None,
        count: Count::NoCount,
    }
}

fn answer(alloc: Global, over: bool, status: Status) -> Result<Statuses, Fail> {
    let mut statuses = ArrayVec::new();
    statuses.push(status);
    let reply = Reply {
        version: 0,
        moment: Seconds::capped(65),
        over,
        statuses,
    };
    Ok(Statuses::of_reply(alloc, &reply)?)
}

// A status in a record takes less memory than in a reply, and is the same.
#[test]
fn a_status_is_kept_as_it_is(rt: HostRuntime) -> Result<(), Fail> {
    let alloc = rt.alloc();
    for count in [Count::NoCount, Count::Before(u64::MAX), Count::Seen(3)] {
        for reset in [0, 55, 4_294_967_295, 4_294_967_296, u64::MAX] {
            for mut kept in [status(Code::OverLimit, u32::MAX, 7, count), free(u32::MAX)] {
                kept.reset = reset;
                kept.count = count;
                let answer = answer(alloc, true, kept)?;
                assert!(rt; answer.over());
                let items = answer.items();
                assert!(rt; items.as_slice() == [kept].as_slice());
            }
        }
    }
    Ok(())
}

#[test]
fn replies_are_printed(rt: HostRuntime) -> Result<(), Fail> {
    let alloc = rt.alloc();
    for (over, status, want) in [
        (
            false,
            status(Code::Ok, 2, 1, Count::Before(0)),
            r#"{"overallCode":"OK","statuses":[{"code":"OK","currentLimit":{"requestsPerUnit":2,"unit":"MINUTE"},"durationUntilReset":"55s","limitRemaining":1}]}"#,
        ),
        (
            false,
            status(Code::Ok, 2, 0, Count::Before(1)),
            r#"{"overallCode":"OK","statuses":[{"code":"OK","currentLimit":{"requestsPerUnit":2,"unit":"MINUTE"},"durationUntilReset":"55s"}]}"#,
        ),
        (
            true,
            status(Code::OverLimit, 2, 0, Count::Seen(3)),
            r#"{"overallCode":"OVER_LIMIT","statuses":[{"code":"OVER_LIMIT","currentLimit":{"requestsPerUnit":2,"unit":"MINUTE"},"durationUntilReset":"55s"}]}"#,
        ),
        (
            false,
            status(Code::OverLimit, 0, 0, Count::Before(0)),
            r#"{"overallCode":"OK","statuses":[{"code":"OVER_LIMIT","currentLimit":{"unit":"MINUTE"},"durationUntilReset":"55s"}]}"#,
        ),
        (
            false,
            free(0),
            r#"{"overallCode":"OK","statuses":[{"code":"OK"}]}"#,
        ),
        (
            false,
            free(u32::MAX),
            r#"{"overallCode":"OK","statuses":[{"code":"OK","limitRemaining":4294967295}]}"#,
        ),
    ] {
        let text = reply_body(alloc, &answer(alloc, over, status)?)?;
        assert_eq!(rt; text.as_str(), want);
    }
    Ok(())
}

// A record of line 2, printed.
fn recorded(alloc: Global, moment: u64, outcome: Outcome) -> Result<String, Fail> {
    let rec = Record {
        line: 2,
        worker: 0,
        version: 0,
        moment: Seconds::capped(moment),
        outcome,
    };
    Ok(record_text(alloc, &rec)?)
}

#[test]
fn records_of_checks_are_printed(rt: HostRuntime) -> Result<(), Fail> {
    let alloc = rt.alloc();
    let before = answer(alloc, false, status(Code::Ok, 2, 1, Count::Before(0)))?;
    let text = recorded(alloc, 65, Outcome::Checked(before))?;
    assert_eq!(rt;
        text.as_str(),
        r#"{"counts":[{"before":0}],"line":2,"moment":65,"reply":{"overallCode":"OK","statuses":[{"code":"OK","currentLimit":{"requestsPerUnit":2,"unit":"MINUTE"},"durationUntilReset":"55s","limitRemaining":1}]},"version":0,"worker":0}"#
    );
    let seen = answer(alloc, true, status(Code::OverLimit, 2, 0, Count::Seen(3)))?;
    let text = recorded(alloc, 65, Outcome::Checked(seen))?;
    assert_eq!(rt;
        text.as_str(),
        r#"{"counts":[{"seen":3}],"line":2,"moment":65,"reply":{"overallCode":"OVER_LIMIT","statuses":[{"code":"OVER_LIMIT","currentLimit":{"requestsPerUnit":2,"unit":"MINUTE"},"durationUntilReset":"55s"}]},"version":0,"worker":0}"#
    );
    let text = recorded(alloc, 65, Outcome::Checked(answer(alloc, false, free(0))?))?;
    assert_eq!(rt;
        text.as_str(),
        r#"{"counts":[null],"line":2,"moment":65,"reply":{"overallCode":"OK","statuses":[{"code":"OK"}]},"version":0,"worker":0}"#
    );
    Ok(())
}

#[test]
fn records_of_other_lines_are_printed(rt: HostRuntime) -> Result<(), Fail> {
    let alloc = rt.alloc();
    let text = recorded(alloc, 100, Outcome::Ticked(Seconds::capped(50)))?;
    assert_eq!(rt;
        text.as_str(),
        r#"{"line":2,"moment":100,"ticked":50,"version":0,"worker":0}"#
    );
    let full = Outcome::Full {
        live: 1,
        held: 0,
        wanted: 1,
    };
    let text = recorded(alloc, 0, full)?;
    assert_eq!(rt;
        text.as_str(),
        r#"{"line":2,"moment":0,"refused":{"held":0,"live":1,"name":"CountersFull","wanted":1},"version":0,"worker":0}"#
    );
    let refused = Refused {
        at: Place::empty(alloc).child("tick")?,
        number: 6,
    };
    let text = recorded(alloc, 0, Outcome::Bad(refused))?;
    assert_eq!(rt;
        text.as_str(),
        r#"{"line":2,"moment":0,"refused":{"at":"/tick","number":6},"version":0,"worker":0}"#
    );
    Ok(())
}

// The total of a counter of key `k` with this value, printed.
fn total_of(alloc: Global, value: &str, unit: Unit, charged: u64) -> Result<String, Fail> {
    let mut items = Vec::new(alloc);
    items.push(Entry {
        key: Text::new(alloc, "k")?,
        value: Text::new(alloc, value)?,
    })?;
    let name = CounterName {
        domain: Text::new(alloc, "d")?,
        entries: Entries::build(items)?,
        unit,
    };
    let key = CounterKey {
        name,
        start: Seconds::capped(60),
    };
    Ok(total_text(alloc, &Total { key, charged })?)
}

#[test]
fn totals_are_printed(rt: HostRuntime) -> Result<(), Fail> {
    const ROWS: &[(&str, Unit, u64, &str)] = &[
        (
            "a",
            Unit::Minute,
            1,
            r#"{"charged":1,"counter":{"domain":"d","entries":[{"key":"k","value":"a"}],"start":60,"unit":"MINUTE"}}"#,
        ),
        (
            "",
            Unit::Second,
            8_589_934_590,
            r#"{"charged":8589934590,"counter":{"domain":"d","entries":[{"key":"k","value":""}],"start":60,"unit":"SECOND"}}"#,
        ),
        (
            "\"é\"",
            Unit::Day,
            u64::MAX,
            r#"{"charged":18446744073709551615,"counter":{"domain":"d","entries":[{"key":"k","value":"\"é\""}],"start":60,"unit":"DAY"}}"#,
        ),
    ];
    for &(value, unit, charged, want) in ROWS {
        let text = total_of(rt.alloc(), value, unit, charged)?;
        assert_eq!(rt; text.as_str(), want);
    }
    Ok(())
}
