// Runs of a script.
ghost use Rattle.std.specs.Prelude.{◌≡◌, ◌≤◌};
ghost use Rattle.counter_cells.specs.Opened.{table_of, setup_of};

use crate::configs::config;
use counter_cells::{CellNaming, OpenedCells};
use rate_limiter::{Limiter, Limits};
use rate_types::Seconds;
use rate_types::limits::MOST_CLAIMS;
use reply_text::{Outcome, Record};
use rls_core::{Count, Status};
use script_run::RunRecords;
use script_text::Script;
use std::alloc::Global;
use std::hash::RandomState;
use std::marker::Brand;
use std::process::Abort;
use std::random::RandomSource;
use std::sync::Wait;
use std::test::Fail;
use std::thread::Threads;
use worker_run::{Gate, Open, run_script};

// A check of one hit on k=a.
const CHECK: &str =
    r#"{"check":{"domain":"d","descriptors":[{"entries":[{"key":"k","value":"a"}]}]}}"#;

// A limit of 5 a minute.
const RELOAD: &str =
    r#"{"reload":[{"domain":"d","descriptors":[{"key":"k","rateLimit":{"unit":"MINUTE","requestsPerUnit":5}}]}]}"#;

// The bytes of these lines.
fn bytes_of(alloc: Global, lines: &[&str]) -> Result<String, Fail> {
    let mut bytes = String::new(alloc);
    for line in lines {
        bytes.push_str(line)?;
        bytes.push('\n')?;
    }
    Ok(bytes)
}

// What a record shows: the hits before a check, or a number for each other outcome.
fn shown(record: &Record) -> u64 {
    match &record.outcome {
        Outcome::Checked(answer) => match answer.items().as_slice() {
            [
                Status {
                    count: Count::Before(before),
                    ..
                },
            ] => *before,
            _ => 99,
        },
        Outcome::Ticked(now) => now.get(),
        Outcome::Installed => 100,
        Outcome::Bad(refused) => u64::from(refused.number).saturating_add(200),
        _ => 99,
    }
}

// The records of these lines, which charge so much on their one counter that is charged.
fn run<N: CellNaming + Send + Sync, G: Gate, R: Abort + RandomSource + Threads + Wait + Sync>(
    rt: &R,
    alloc: Global,
    opened: OpenedCells,
    lines: &[&str],
    charged: u64,
    gate: &G,
) -> Result<RunRecords, Fail>
    requires name { (table_of opened ≡ N.table) × (setup_of opened ≡ N.setup) }
    requires passes { (1 ≤ N.setup.passes) × (N.setup.passes ≤ 2) × (N.setup.start ≡ 0) }
{
    let limits = Limits {
        claims_max: MOST_CLAIMS,
        global_shadow: false,
    };
    let seed = RandomState::new(rt)?;
    let (limiter, passes) = Limiter::<N>::make(alloc, config(alloc, 1)?, opened, limits, seed)?;
    let bytes = bytes_of(alloc, lines)?;
    let script = Script::read(alloc, bytes.as_bytes())?;
    let finished = run_script(
        rt,
        alloc,
        limiter,
        passes,
        &script,
        Seconds::capped(0),
        false,
        gate,
    )?;
    let [total] = finished.totals.items() else {
        return Err(Fail::new("one total"));
    };
    assert_eq!(rt; total.charged, charged);
    Ok(finished.records.in_order(alloc)?)
}

#[test]
fn one_worker_runs_line_after_line(rt: HostRuntime) -> Result<(), Fail> {
    let opened = OpenedCells::make(rt.alloc(), 8, 1, Seconds::capped(0))?;
    let lines = [r#"{"tick":65}"#, CHECK, CHECK, RELOAD, CHECK, "{"];
    let records = run::<Brand, _, _>(&rt, rt.alloc(), opened, &lines, 3, &Open)?;
    assert_eq!(rt; records.len(), 6);
    for (i, (moment, version, outcome)) in [
        (65, 0, 65),
        (65, 0, 0),
        (65, 0, 1),
        (65, 1, 100),
        (65, 1, 2),
        (65, 1, 201),
    ]
    .iter()
    .enumerate()
    {
        let Some(found) = records.get(i) else {
            return Err(Fail::new("a record"));
        };
        assert_eq!(rt; (found.moment.get(), found.version), (*moment, *version));
        assert_eq!(rt; shown(found), *outcome);
    }
    Ok(())
}

#[test]
fn two_workers_run_each_line_once(rt: HostRuntime) -> Result<(), Fail> {
    let opened = OpenedCells::make(rt.alloc(), 8, 2, Seconds::capped(0))?;
    let lines = [CHECK, RELOAD, CHECK];
    let records = run::<Brand, _, _>(&rt, rt.alloc(), opened, &lines, 2, &Open)?;
    let (Some(first), Some(reload), Some(last), None) = (
        records.get(0),
        records.get(1),
        records.get(2),
        records.get(3),
    ) else {
        return Err(Fail::new("three records"));
    };
    assert_eq!(rt; shown(reload), 100);
    assert_eq!(rt; shown(first).min(shown(last)), 0);
    assert_eq!(rt; shown(first).max(shown(last)), 1);
    Ok(())
}
