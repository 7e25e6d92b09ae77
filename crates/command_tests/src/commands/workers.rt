// Runs of several workers.
use super::{A, CHECK_A, NONE, joined, said, said_to};
use counter_cells::CellNaming;
use rate_limiter::Pass;
use reply_text::Record;
use script_run::Line;
use std::alloc::Global;
use std::sync::atomic::{AtomicU64, Ordering};
use std::test::Fail;
use std::thread;
use worker_run::Gate;

/// How often one asks whether another is done, where other workers may do it.
pub const TURNS: u32 = 1_000_000;

// Holds line 1 until line 2 is done, and counts what it is told.
#[derive(Drop)]
struct Second {
    // How often line 1 asks whether line 2 is done.
    turns: u32,
    // How often each of the two lines was begun: the first counts 1, the second 1,000.
    begun: AtomicU64,
    // How often each of them was done, likewise.
    done: AtomicU64,
}

fn weight(line: u32) -> u64 {
    if line == 1 { 1 } else { 1_000 }
}

impl Gate for Second {
    fn before(&self, _: u32, line: u32) {
        self.begun.fetch_add(weight(line), Ordering::SeqCst);
        if line != 1 {
            return;
        }
        for _ in 0..self.turns {
            if self.done.load(Ordering::SeqCst) != 0 {
                return;
            }
            thread::yield_now();
        }
    }

    fn after<N: CellNaming>(&self, _: u32, _: &Line, shown: &Record, _: &Pass<N>) {
        self.done.fetch_add(weight(shown.line), Ordering::SeqCst);
    }
}

fn gate_of(turns: u32) -> Second {
    Second {
        turns,
        begun: AtomicU64::new(0),
        done: AtomicU64::new(0),
    }
}

// The two lines and the total, where the worker of the first line has this number.
fn held(alloc: Global, first: u32, second: u32) -> Result<String, Fail> {
    Ok(format!(in alloc;
        "done\n{}{first}{}{second}{}",
        r#"{"counts":[{"before":1}],"line":1,"moment":0,"reply":{"overallCode":"OK","statuses":[{"code":"OK","currentLimit":{"requestsPerUnit":2,"unit":"MINUTE"},"durationUntilReset":"60s"}]},"version":0,"worker":"#,
        "}\n{\"counts\":[{\"before\":0}],\"line\":2,\"moment\":0,\"reply\":{\"overallCode\":\"OK\",\"statuses\":[{\"code\":\"OK\",\"currentLimit\":{\"requestsPerUnit\":2,\"unit\":\"MINUTE\"},\"durationUntilReset\":\"60s\",\"limitRemaining\":1}]},\"version\":0,\"worker\":",
        "}\n{\"charged\":2,\"counter\":{\"domain\":\"d\",\"entries\":[{\"key\":\"k\",\"value\":\"a\"}],\"start\":0,\"unit\":\"MINUTE\"}}\n"
    )?)
}

#[test]
fn two_workers_run_side_by_side(rt: HostRuntime) -> Result<(), Fail> {
    let alloc = rt.alloc();
    let gate = gate_of(TURNS);
    let words = ["drive", "--workers", "2", "a"];
    let script = joined(alloc, &[CHECK_A, CHECK_A])?;
    let found = said_to(&rt, alloc, &words, &[A], script.as_str(), NONE, &gate)?;
    let (one, other) = (held(alloc, 0, 1)?, held(alloc, 1, 0)?);
    assert!(rt;
        found.as_str() == one.as_str() || found.as_str() == other.as_str(),
        "{found}"
    );
    assert_eq!(rt; gate.begun.load(Ordering::SeqCst), 1_001);
    assert_eq!(rt; gate.done.load(Ordering::SeqCst), 1_001);
    Ok(())
}

// One thread uses up the turns of line 1, which then comes first: so the test above fails where all lines run on one thread.
#[test]
fn one_thread_runs_no_lines_side_by_side(rt: HostRuntime) -> Result<(), Fail> {
    let alloc = rt.alloc();
    let gate = gate_of(100);
    let words = ["drive", "--workers", "1", "a"];
    let script = joined(alloc, &[CHECK_A, CHECK_A])?;
    let found = said_to(&rt, alloc, &words, &[A], script.as_str(), NONE, &gate)?;
    let found = found.as_str();
    assert!(rt;
        found.contains("{\"counts\":[{\"before\":0}],\"line\":1,"),
        "{found}"
    );
    assert!(rt;
        found.contains("{\"counts\":[{\"before\":1}],\"line\":2,"),
        "{found}"
    );
    assert_eq!(rt; gate.begun.load(Ordering::SeqCst), 1_001);
    assert_eq!(rt; gate.done.load(Ordering::SeqCst), 1_001);
    Ok(())
}

// Reads how many looks the pass has made after each of three lines: after line n in the n-th three digits.
#[derive(Drop)]
struct Looks {
    made: AtomicU64,
}

impl Gate for Looks {
    fn before(&self, _: u32, _: u32) {}

    fn after<N: CellNaming>(&self, _: u32, _: &Line, shown: &Record, pass: &Pass<N>) {
        let place = match shown.line {
            1 => 1,
            2 => 1_000,
            _ => 1_000_000,
        };
        self.made
            .fetch_add(pass.looks().saturating_mul(place), Ordering::SeqCst);
    }
}

#[test]
fn a_run_looks_at_no_counter_that_was_seen_over(rt: HostRuntime) -> Result<(), Fail> {
    let alloc = rt.alloc();
    let gate = Looks {
        made: AtomicU64::new(0),
    };
    let script = joined(alloc, &[CHECK_A, CHECK_A, CHECK_A])?;
    let found = said_to(
        &rt,
        alloc,
        &["drive", "a"],
        &[A1],
        script.as_str(),
        NONE,
        &gate,
    )?;
    assert!(rt;
        found
            .as_str()
            .contains("{\"counts\":[{\"seen\":2}],\"line\":3,"),
        "{found}"
    );
    assert_eq!(rt; gate.made.load(Ordering::SeqCst), 2_002_001);
    Ok(())
}

// A limit of 1 a minute for each value of k.
const A1: &str =
    r#"{"domain":"d","descriptors":[{"key":"k","rateLimit":{"unit":"MINUTE","requestsPerUnit":1}}]}"#;

const RELOAD: &str =
    r#"{"reload":[{"domain":"d","descriptors":[{"key":"k","rateLimit":{"unit":"MINUTE","requestsPerUnit":5}}]}]}"#;

#[test]
fn a_reload_beside_checks_loses_no_hit(rt: HostRuntime) -> Result<(), Fail> {
    let alloc = rt.alloc();
    let words = ["drive", "--workers", "2", "--cells", "64", "a"];
    let script = joined(alloc, &[CHECK_A, RELOAD, CHECK_A])?;
    for _ in 0..50 {
        let found = said(&rt, alloc, &words, &[A1], script.as_str(), NONE)?;
        let found = found.as_str();
        assert!(rt;
            found.contains("\"before\":0") && found.contains("\"before\":1"),
            "{found}"
        );
        assert!(rt;
            found.contains("\"installed\":1") && found.contains("\"charged\":2"),
            "{found}"
        );
    }
    Ok(())
}
