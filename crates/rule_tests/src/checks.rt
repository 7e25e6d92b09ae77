ghost use Rattle.descriptor_tree.specs.Trees.{node_view};
ghost use Rattle.descriptor_tree.specs.Config.{IsWellFormedBranch};
ghost use Rattle.rate_types.specs.declared.limits.TheConstants.{MOST_CELLS};
ghost use Rattle.std.specs.Prelude.{◌≤◌, IfOk};

use descriptor_tree::{Config, Forest, Node, Policy, Texts, Tree};
use drive_run::{Setup, drive_script};
use rate_types::{RuleId, Seconds, Text, Unit};
use reply_text::{Outcome, Record};
use rls_core::{Count, Total, status_for};
use rule_lookup::Found;
use script_run::RunJournals;
use script_text::Script;
use std::alloc::Global;
use std::hash::RandomState;
use std::random::RandomSource;
use std::sync::{Arc, Wait};
use std::test::Fail;
use std::thread::Threads;
use worker_run::Open;

// The node that limits each value of key `k` to so many hits a minute.
fn node(alloc: Global, limit: u32) -> Result<Node, Fail>
    ensures { IfOk result (λ n. IsWellFormedBranch (node_view n)) }
{
    Ok(Node {
        key: Text::new(alloc, "k")?,
        value: None,
        policy: Some(Policy::Limited {
            limit,
            unit: Unit::Minute,
        }),
        name: None,
        replaces: Texts::new(alloc),
        shadow: false,
        below: Forest::of(Vec::new(alloc)),
    })
}

// Domain `d` with this node.
fn config(alloc: Global, limit: u32) -> Result<Arc<Config>, Fail> {
    let mut nodes = Vec::new(alloc);
    nodes.push(node(alloc, limit)?)?;
    let mut trees = Vec::new(alloc);
    trees.push(Tree {
        domain: Text::new(alloc, "d")?,
        forest: Forest::of(nodes),
    })?;
    match Config::build(alloc, trees) {
        Ok(config) => Ok(Arc::new(alloc, config)?),
        Err(_) => Err(Fail::new("refused")),
    }
}

// What came of a line: of a check each status with its code, its count, what remains and the time to reset.
fn shown(alloc: Global, record: &Record) -> Result<String, Fail> {
    match &record.outcome {
        Outcome::Checked(answer) => {
            let mut text = String::from_str(alloc, if answer.over() { "over:" } else { "" })?;
            for status in answer.items().as_slice() {
                text.push_str(format!(in alloc;
                    "{:?} {:?} {} {};",
                    status.code, status.count, status.remaining, status.reset
                )?
                .as_str())?;
            }
            Ok(text)
        }
        Outcome::Ticked(now) => Ok(format!(in alloc; "tick {};", now.get())?),
        Outcome::Installed => Ok(format!(in alloc; "version {};", record.version)?),
        Outcome::Full { live, held, wanted } => {
            Ok(format!(in alloc; "full {live} {held} {wanted};")?)
        }
        _ => Err(Fail::new("another outcome")),
    }
}

// A total: the value of its counter, what was charged, and the start of its window.
fn total(alloc: Global, total: &Total) -> Result<String, Fail> {
    let [entry] = total.key.name.entries.items() else {
        return Err(Fail::new("one entry"));
    };
    Ok(format!(in alloc;
        "{}={} from {};",
        entry.value.as_str(),
        total.charged,
        total.key.start.get()
    )?)
}

// The bytes of a script of these lines.
fn bytes_of(alloc: Global, lines: &[&str]) -> Result<String, Fail> {
    let mut bytes = String::new(alloc);
    for line in lines {
        bytes.push_str(line)?;
        bytes.push('\n')?;
    }
    Ok(bytes)
}

// What came of each line, and then the totals.
fn told(alloc: Global, records: RunJournals, totals: &[Total]) -> Result<String, Fail> {
    let records = records.in_order(alloc)?;
    let mut text = String::new(alloc);
    for index in 0..records.len() {
        if let Some(record) = records.get(index) {
            text.push_str(shown(alloc, record)?.as_str())?;
        }
    }
    for one in totals {
        text.push_str(total(alloc, one)?.as_str())?;
    }
    Ok(text)
}

// What comes of the lines of a script, and then the totals, where one worker runs it from moment 65 over so many cells, and domain
// `d` limits each value of key `k` to so many hits a minute.
fn run<R: RandomSource + Threads + Wait + Sync>(
    rt: &R,
    alloc: Global,
    limit: u32,
    cells: u32,
    script: &[&str],
) -> Result<String, Fail>
    requires { (1 ≤ cells) × (cells ≤ MOST_CELLS) }
{
    let setup = Setup {
        workers: 1,
        cells,
        start: Seconds::capped(65),
        global_shadow: false,
        seed: RandomState::new(rt)?,
    };
    let bytes = bytes_of(alloc, script)?;
    let script = Script::read(alloc, bytes.as_bytes())?;
    let config = config(alloc, limit)?;
    let driven = drive_script(rt, alloc, &script, config, setup, false, &Open)?;
    told(alloc, driven.records, driven.totals.items())
}

const A: &str = r#"{"check":{"domain":"d","descriptors":[{"entries":[{"key":"k","value":"a"}]}]}}"#;

const B: &str = r#"{"check":{"domain":"d","descriptors":[{"entries":[{"key":"k","value":"b"}]}]}}"#;

// One counter, three times: by the request's hits, by 0 and by 3 of its own.
const THREE: &str =
    r#"{"check":{"domain":"d","descriptors":[{"entries":[{"key":"k","value":"a"}]},{"entries":[{"key":"k","value":"a"}],"hitsAddend":0},{"entries":[{"key":"k","value":"a"}],"hitsAddend":3}]}}"#;

// A limit of 5.
const RELOAD: &str =
    r#"{"reload":[{"domain":"d","descriptors":[{"key":"k","rateLimit":{"unit":"MINUTE","requestsPerUnit":5}}]}]}"#;

#[test]
fn a_value_is_over_its_limit_until_its_window_ends(rt: HostRuntime) -> Result<(), Fail> {
    let script = [
        A,
        r#"{"tick":70}"#,
        A,
        A,
        r#"{"tick":119}"#,
        A,
        r#"{"tick":120}"#,
        A,
    ];
    let want =
        "Ok Before(0) 1 55;tick 70;Ok Before(1) 0 50;over:OverLimit Before(2) 0 50;tick 119;over:OverLimit Seen(3) 0 1;tick 120;Ok Before(0) 1 60;a=1 from 120;";
    assert_eq!(rt; run(&rt, rt.alloc(), 2, 4, &script)?.as_str(), want);
    Ok(())
}

#[test]
fn a_new_counter_without_a_cell_is_refused(rt: HostRuntime) -> Result<(), Fail> {
    let script = [A, B, A, r#"{"tick":120}"#, B];
    let want =
        "Ok Before(0) 1 55;full 1 0 1;Ok Before(1) 0 55;tick 120;Ok Before(0) 1 60;b=1 from 120;";
    assert_eq!(rt; run(&rt, rt.alloc(), 2, 1, &script)?.as_str(), want);
    Ok(())
}

#[test]
fn totals_are_those_of_open_windows(rt: HostRuntime) -> Result<(), Fail> {
    let alloc = rt.alloc();
    let checks = "Ok Before(0) 1 55;Ok Before(0) 1 55;Ok Before(1) 0 55;";
    let open = format!(in alloc; "{checks}a=1 from 60;b=2 from 60;")?;
    assert_eq!(rt; run(&rt, alloc, 2, 4, &[B, A, B])?.as_str(), open.as_str());
    let ended = format!(in alloc; "{checks}tick 120;")?;
    let script = [B, A, B, r#"{"tick":120}"#];
    assert_eq!(rt; run(&rt, alloc, 2, 4, &script)?.as_str(), ended.as_str());
    Ok(())
}

#[test]
fn a_descriptor_without_a_limit_counts_nothing(rt: HostRuntime) -> Result<(), Fail> {
    let moment = Seconds::capped(65);
    let none = status_for(Found::NoRule, moment, 1, Count::NoCount);
    assert_eq!(rt; none.remaining, 0);
    assert_eq!(rt; none.rule, None);
    let rule = RuleId(3);
    let free = status_for(Found::Unlimited { rule }, moment, 1, Count::NoCount);
    assert_eq!(rt; free.remaining, 4_294_967_295);
    assert_eq!(rt; free.rule, Some(rule));
    Ok(())
}

#[test]
fn descriptors_of_one_counter_count_one_after_the_other(rt: HostRuntime) -> Result<(), Fail> {
    let want = "over:Ok Before(0) 0 55;Ok Seen(1) 0 55;OverLimit Before(1) 0 55;a=4 from 60;";
    assert_eq!(rt; run(&rt, rt.alloc(), 1, 1, &[THREE])?.as_str(), want);
    Ok(())
}

#[test]
fn a_reload_leaves_what_was_charged(rt: HostRuntime) -> Result<(), Fail> {
    let want =
        "Ok Before(0) 0 55;over:OverLimit Before(1) 0 55;version 1;Ok Before(2) 2 55;a=3 from 60;";
    assert_eq!(rt;
        run(&rt, rt.alloc(), 1, 4, &[A, A, RELOAD, A])?.as_str(),
        want
    );
    Ok(())
}
