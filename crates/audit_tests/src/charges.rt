// The clauses about charges, sights, values and totals, decided.
ghost use Rattle.std.specs.Prelude.{◌≡◌};

use crate::texts::run;
use rate_types::{Descriptor, Entries, Entry, Request, Seconds, Text};
use reply_text::Record;
use rls_core::Total;
use run_audit::{are_totals, charges_form_ledger, sights_lawful, values_never_fall};
use run_text::read_total;
use script_run::Line;
use std::alloc::Global;
use std::test::Fail;

// A check of one hit on k=v in d.
fn check(alloc: Global) -> Result<Line, Fail> {
    let entries = vec![in alloc;
        Entry {
            key: Text::new(alloc, "k")?,
            value: Text::new(alloc, "v")?,
        },
    ]?;
    let descriptors = vec![in alloc;
        Descriptor {
            entries: Entries::build(entries)?,
            own: None,
            hits: None,
        },
    ]?;
    Ok(Line::Check(Request::build(Text::new(alloc, "d")?, descriptors, 1)?))
}

fn checks(alloc: Global) -> Result<Vec<Line>, Fail> {
    Ok(vec![in alloc; check(alloc)?, check(alloc)?, check(alloc)?]?)
}

// The record of a check at moment 65 under a limit of 1 a minute, which shows this count.
fn shown(alloc: Global, line: u32, worker: u32, count: &str) -> Result<Record, Fail> {
    let status =
        r#"{"code":"OK","currentLimit":{"requestsPerUnit":1,"unit":"MINUTE"},"durationUntilReset":"55s"}"#;
    let text = format!(in alloc;
        "{{\"counts\":[{{{count}}}],\"line\":{line},\"moment\":65,\"reply\":{{\"overallCode\":\"OK\",\"statuses\":[{status}]}},\"version\":0,\"worker\":{worker}}}"
    )?;
    run(alloc, text.as_str())
}

// Records of three checks by these workers, which show these counts.
fn records(alloc: Global, workers: [u32; 3], counts: [&str; 3]) -> Result<Vec<Record>, Fail> {
    Ok(vec![in alloc;
        shown(alloc, 1, workers[0], counts[0])?,
        shown(alloc, 2, workers[1], counts[1])?,
        shown(alloc, 3, workers[2], counts[2])?,
    ]?)
}

// Whether charges form a ledger, whether then sights are lawful, and whether values never fall.
fn stand(alloc: Global, lines: &[Line], records: &[Record]) -> Result<(bool, bool, bool), Fail> {
    if records.len() != lines.len() {
        return Err("a record for each line".into());
    }
    let values = values_never_fall(alloc, lines, records)?;
    let ledger = charges_form_ledger(alloc, lines, records)?;
    if !ledger {
        return Ok((false, false, values));
    }
    let sights = sights_lawful(alloc, lines, records)?;
    Ok((true, sights, values))
}

#[test]
fn charges_sights_and_values_are_judged(rt: HostRuntime) -> Result<(), Fail> {
    let alloc = rt.alloc();
    let lines = checks(alloc)?;
    for (workers, counts, want) in [
        (
            [0, 0, 0],
            [r#""before":0"#, r#""before":1"#, r#""seen":2"#],
            (true, true, true),
        ),
        (
            [1, 0, 2],
            [r#""before":1"#, r#""before":0"#, r#""seen":2"#],
            (true, true, true),
        ),
        (
            [1, 1, 2],
            [r#""before":1"#, r#""before":0"#, r#""seen":2"#],
            (true, true, false),
        ),
        (
            [0, 1, 2],
            [r#""before":0"#, r#""before":0"#, r#""seen":2"#],
            (false, false, true),
        ),
        (
            [0, 1, 2],
            [r#""before":0"#, r#""before":2"#, r#""seen":2"#],
            (false, false, true),
        ),
        (
            [0, 1, 2],
            [r#""before":0"#, r#""before":1"#, r#""seen":3"#],
            (true, false, true),
        ),
        (
            [0, 1, 2],
            [r#""before":0"#, r#""before":1"#, r#""seen":1"#],
            (true, true, false),
        ),
    ] {
        let records = records(alloc, workers, counts)?;
        let found = stand(alloc, &lines, &records)?;
        assert!(rt; found == want);
    }
    Ok(())
}

// Whether these are the totals of two charges and a sight, from a start on.
fn totals_stand(alloc: Global, start: u64, totals: &[Total]) -> Result<bool, Fail> {
    let lines = checks(alloc)?;
    let counts = [r#""before":0"#, r#""before":1"#, r#""seen":2"#];
    let records = records(alloc, [0, 0, 0], counts)?;
    if records.len() != lines.len() || !charges_form_ledger(alloc, &lines, &records)? {
        return Err("a ledger".into());
    }
    Ok(are_totals(alloc, Seconds::capped(start), &lines, &records, totals)?)
}

#[test]
fn totals_are_judged(rt: HostRuntime) -> Result<(), Fail> {
    let alloc = rt.alloc();
    for (start, charged, want) in [(65, 2, true), (65, 1, false), (120, 2, false)] {
        let text = format!(in alloc;
            "{{\"charged\":{charged},\"counter\":{{\"domain\":\"d\",\"entries\":[{{\"key\":\"k\",\"value\":\"v\"}}],\"start\":60,\"unit\":\"MINUTE\"}}}}"
        )?;
        let Some(total) = read_total(alloc, text.as_bytes())? else {
            return Err("a total".into());
        };
        let totals = vec![in alloc; total]?;
        let stands = totals_stand(alloc, start, &totals)?;
        assert!(rt; stands == want);
    }
    for (start, want) in [(65, false), (120, true)] {
        let stands = totals_stand(alloc, start, &[])?;
        assert!(rt; stands == want);
    }
    Ok(())
}
