mod audit;
mod flushes;
mod generated;
mod limits;
mod lines;
mod pool;
mod quota;
mod reports;
mod rows;
mod serve;
mod side_by_side;
mod tasks;
mod workers;

ghost use Rattle.std.specs.Prelude.{◌≡◌, [], IfOk};

use cli_exits::Exit;
use conn_tasks::{MemPollListen, PollListen};
use rate_io::{Listen, MemFile, MemFiles, MemListen, MemSink, MemSource};
use rate_types::{Blob, Names, Word};
use ratelimit_cli::{Outside, ratelimit};
use std::alloc::Global;
use std::hash::RandomState;
use std::random::RandomSource;
use std::str;
use std::sync::Wait;
use std::test::Fail;
use std::thread::Threads;
use worker_run::{Gate, Open};

// A limit of 2 a minute for each value of k.
const A: &str =
    r#"{"domain":"d","descriptors":[{"key":"k","rateLimit":{"unit":"MINUTE","requestsPerUnit":2}}]}"#;

// The same with a limit of 0.
const A0: &str =
    r#"{"domain":"d","descriptors":[{"key":"k","rateLimit":{"unit":"MINUTE","requestsPerUnit":0}}]}"#;

const CHECK_A: &str =
    r#"{"check":{"domain":"d","descriptors":[{"entries":[{"key":"k","value":"a"}]}]}}"#;

const CHECK_B: &str =
    r#"{"check":{"domain":"d","descriptors":[{"entries":[{"key":"k","value":"b"}]}]}}"#;

// `serve` with a number of tasks out of range, or with threads and tasks.
const SERVE_NO_TASK: &[&str] = &["serve", "--port=0", "--connections=0", "--tasks=0", "a"];

const SERVE_MANY_TASKS: &[&str] = &["serve", "--port=0", "--connections=0", "--tasks=257", "a"];

const SERVE_BOTH: &[&str] = &[
    "serve",
    "--port=0",
    "--connections=0",
    "--workers=4",
    "--tasks=4",
    "a",
];

// A file without a rule.
const DOMAIN: &str = r#"{"domain":"d"}"#;

// A file with a node below a node.
const NESTED: &str = r#"{"domain":"e","descriptors":[{"key":"k","descriptors":[{"key":"l"}]}]}"#;

// A file with an empty key.
const KEYLESS: &str = r#"{"domain":"d","descriptors":[{"key":""}]}"#;

// The numbers of the calls that fail, from 1; with 0 none does.
#[derive(Clone, Copy)]
struct Failing {
    file: u64,
    read: u64,
    write: u64,
}

const NONE: Failing = Failing {
    file: 0,
    read: 0,
    write: 0,
};

// The second call for a file fails.
const SECOND_FILE: Failing = Failing {
    file: 2,
    read: 0,
    write: 0,
};

// The first read fails.
const FIRST_READ: Failing = Failing {
    file: 0,
    read: 1,
    write: 0,
};

// The first call of the sink fails.
const FIRST_WRITE: Failing = Failing {
    file: 0,
    read: 0,
    write: 1,
};

fn word(alloc: Global, text: &str) -> Result<Word, Fail> {
    Ok(Word::of(String::from_str(alloc, text)?))
}

fn blob(alloc: Global, text: &str) -> Result<Blob, Fail> {
    Ok(Blob::of(Vec::from_slice(alloc, text.as_bytes())?))
}

fn numbers(alloc: Global, number: u64) -> Result<Vec<u64>, Fail> {
    let mut numbers = Vec::new(alloc);
    numbers.push(number)?;
    Ok(numbers)
}

// The lines, each with a line feed.
fn joined(alloc: Global, lines: &[&str]) -> Result<String, Fail> {
    let mut text = String::new(alloc);
    for line in lines {
        text.push_str(line)?;
        text.push('\n')?;
    }
    Ok(text)
}

fn exit_text(alloc: Global, exit: &Exit) -> Result<String, Fail> {
    let name = match exit {
        Exit::Done => "done",
        Exit::Usage => "usage",
        Exit::ConfigRefused(at) => {
            return Ok(format!(in alloc;
                "file {}: {} at {}",
                at.file,
                at.refused.number,
                at.refused.at.as_str()
            )?);
        }
        Exit::TooLong => "too long",
        Exit::ReadFault => "read fault",
        Exit::WriteFault => "write fault",
        Exit::FileFault(index) => return Ok(format!(in alloc; "file {}: fault", index)?),
        Exit::OutOfMemory => "out of memory",
        Exit::ListenFault => "listen fault",
        Exit::SettingsRefused(refused) => {
            return Ok(format!(in alloc;
                "settings: {} at {}",
                refused.number,
                refused.at.as_str()
            )?);
        }
    };
    Ok(String::from_str(alloc, name)?)
}

// The exit and then the output of a run of these words over files with the names a, b and c.
fn said<R: Threads + Wait + RandomSource + Sync>(
    rt: &R,
    alloc: Global,
    words: &[&str],
    contents: &[&str],
    script: &str,
    failing: Failing,
) -> Result<String, Fail> {
    said_to(rt, alloc, words, contents, script, failing, &Open)
}

// The same with a gate.
fn said_to<R: Threads + Wait + RandomSource + Sync, G: Gate>(
    rt: &R,
    alloc: Global,
    words: &[&str],
    contents: &[&str],
    script: &str,
    failing: Failing,
    gate: &G,
) -> Result<String, Fail> {
    let (listen, polls) = (no_links(alloc)?, no_polls(alloc)?);
    let mut outside = outside_of(alloc, contents, script, failing, listen, polls)?;
    said_over(rt, alloc, words, &mut outside, gate)
}

fn names_of(alloc: Global, words: &[&str]) -> Result<Names, Fail> {
    let mut names = Vec::new(alloc);
    for text in words {
        names.push(word(alloc, text)?)?;
    }
    Ok(Names::of(names))
}

// Files with the names a, b and c and these contents, of which the call of a number fails.
fn files_of(alloc: Global, contents: &[&str], failing: u64) -> Result<MemFiles, Fail> {
    let mut files = Vec::new(alloc);
    for (name, content) in ["a", "b", "c"].iter().zip(contents) {
        files.push(MemFile {
            name: word(alloc, name)?,
            content: blob(alloc, content)?,
        })?;
    }
    Ok(MemFiles::new(files, numbers(alloc, failing)?))
}

fn source_of(alloc: Global, script: &str, failing: u64) -> Result<MemSource, Fail> {
    let bytes = Vec::from_slice(alloc, script.as_bytes())?;
    Ok(MemSource::new(bytes, numbers(alloc, failing)?))
}

fn sink_of(alloc: Global, failing: u64) -> Result<MemSink, Fail> {
    Ok(MemSink::new(alloc, numbers(alloc, failing)?))
}

// The exit, and behind it what was written.
fn exit_and_output(alloc: Global, exit: &Exit, written: &[u8]) -> Result<String, Fail> {
    let mut text = exit_text(alloc, exit)?;
    text.push('\n')?;
    text.push_str(str::from_utf8(written).unwrap_or("no UTF-8"))?;
    Ok(text)
}

// A listener to which nobody connects.
fn no_links(alloc: Global) -> Result<MemListen, Fail>
    ensures { IfOk result (λ l. ⟦<MemListen as Listen>⟧.history l ≡ []) }
{
    Ok(MemListen::new(alloc, Vec::new(alloc), Vec::new(alloc))?)
}

// The same, polled.
fn no_polls(alloc: Global) -> Result<MemPollListen, Fail>
    ensures { IfOk result (λ l. ⟦<MemPollListen as PollListen>⟧.history l ≡ []) }
{
    Ok(MemPollListen::new(alloc, Vec::new(alloc), Vec::new(alloc), Vec::new(alloc))?)
}

// What is outside in memory, over two listeners.
type Memory<L, P> = Outside<MemFiles, MemSource, MemSink, L, P>;

// Files with the names a, b and c and these contents, this script and these listeners, of whose calls some fail.
fn outside_of<L: Drop, P: Drop>(
    alloc: Global,
    contents: &[&str],
    script: &str,
    failing: Failing,
    listen: L,
    polls: P,
) -> Result<Memory<L, P>, Fail>
    ensures { IfOk result (λ o. (o.listen ≡ listen) × (o.polls ≡ polls)) }
{
    Ok(Outside {
        files: files_of(alloc, contents, failing.file)?,
        source: source_of(alloc, script, failing.read)?,
        sink: sink_of(alloc, failing.write)?,
        listen,
        polls,
    })
}

// The exit and then the output of a run of these words over what is outside, where the clock says 65.
fn said_over<R: Threads + Wait + RandomSource + Sync, L: Listen, P: PollListen, G: Gate>(
    rt: &R,
    alloc: Global,
    words: &[&str],
    outside: &mut Memory<L, P>,
    gate: &G,
) -> Result<String, Fail>
where
    L::Link: Send,
    requires listen { L.history outside.old.listen ≡ [] }
    requires polls { P.history outside.old.polls ≡ [] }
{
    let seed = RandomState::new(rt)?;
    let names = names_of(alloc, words)?;
    let exit = ratelimit(rt, alloc, seed, &names, outside, gate);
    exit_and_output(alloc, &exit, outside.sink.bytes())
}

#[test]
fn scripts_are_answered(rt: HostRuntime) -> Result<(), Fail> {
    const ROWS: &[(&str, &[&str], &[&str])] = &[
        (A, &[], &[]),
        (
            A,
            &[r#"{"tick":65}"#, CHECK_A, CHECK_A, CHECK_A, CHECK_A],
            &[
                r#"{"line":1,"moment":65,"ticked":65,"version":0,"worker":0}"#,
                r#"{"counts":[{"before":0}],"line":2,"moment":65,"reply":{"overallCode":"OK","statuses":[{"code":"OK","currentLimit":{"requestsPerUnit":2,"unit":"MINUTE"},"durationUntilReset":"55s","limitRemaining":1}]},"version":0,"worker":0}"#,
                r#"{"counts":[{"before":1}],"line":3,"moment":65,"reply":{"overallCode":"OK","statuses":[{"code":"OK","currentLimit":{"requestsPerUnit":2,"unit":"MINUTE"},"durationUntilReset":"55s"}]},"version":0,"worker":0}"#,
                r#"{"counts":[{"before":2}],"line":4,"moment":65,"reply":{"overallCode":"OVER_LIMIT","statuses":[{"code":"OVER_LIMIT","currentLimit":{"requestsPerUnit":2,"unit":"MINUTE"},"durationUntilReset":"55s"}]},"version":0,"worker":0}"#,
                r#"{"counts":[{"seen":3}],"line":5,"moment":65,"reply":{"overallCode":"OVER_LIMIT","statuses":[{"code":"OVER_LIMIT","currentLimit":{"requestsPerUnit":2,"unit":"MINUTE"},"durationUntilReset":"55s"}]},"version":0,"worker":0}"#,
                r#"{"charged":3,"counter":{"domain":"d","entries":[{"key":"k","value":"a"}],"start":60,"unit":"MINUTE"}}"#,
            ],
        ),
        (
            A,
            &[r#"{"tick":59}"#, CHECK_A, r#"{"tick":60}"#, CHECK_A],
            &[
                r#"{"line":1,"moment":59,"ticked":59,"version":0,"worker":0}"#,
                r#"{"counts":[{"before":0}],"line":2,"moment":59,"reply":{"overallCode":"OK","statuses":[{"code":"OK","currentLimit":{"requestsPerUnit":2,"unit":"MINUTE"},"durationUntilReset":"1s","limitRemaining":1}]},"version":0,"worker":0}"#,
                r#"{"line":3,"moment":60,"ticked":60,"version":0,"worker":0}"#,
                r#"{"counts":[{"before":0}],"line":4,"moment":60,"reply":{"overallCode":"OK","statuses":[{"code":"OK","currentLimit":{"requestsPerUnit":2,"unit":"MINUTE"},"durationUntilReset":"60s","limitRemaining":1}]},"version":0,"worker":0}"#,
                r#"{"charged":1,"counter":{"domain":"d","entries":[{"key":"k","value":"a"}],"start":60,"unit":"MINUTE"}}"#,
            ],
        ),
        (
            A,
            &[r#"{"tick":100}"#, r#"{"tick":50}"#],
            &[
                r#"{"line":1,"moment":100,"ticked":100,"version":0,"worker":0}"#,
                r#"{"line":2,"moment":100,"ticked":50,"version":0,"worker":0}"#,
            ],
        ),
        (
            A0,
            &[CHECK_A],
            &[
                r#"{"counts":[{"before":0}],"line":1,"moment":0,"reply":{"overallCode":"OVER_LIMIT","statuses":[{"code":"OVER_LIMIT","currentLimit":{"unit":"MINUTE"},"durationUntilReset":"60s"}]},"version":0,"worker":0}"#,
                r#"{"charged":1,"counter":{"domain":"d","entries":[{"key":"k","value":"a"}],"start":0,"unit":"MINUTE"}}"#,
            ],
        ),
        (
            A,
            &[""],
            &[r#"{"line":1,"moment":0,"refused":{"at":"","number":1},"version":0,"worker":0}"#],
        ),
        (
            A,
            &[r#"{"tick":1.5}"#],
            &[
                r#"{"line":1,"moment":0,"refused":{"at":"/tick","number":6},"version":0,"worker":0}"#,
            ],
        ),
        (
            A,
            &[
                r#"{"reload":[{"domain":"d","descriptors":[{"key":""}]}]}"#,
                CHECK_A,
            ],
            &[
                r#"{"line":1,"moment":0,"refused":{"at":"/reload/0/descriptors/0","number":12},"version":0,"worker":0}"#,
                r#"{"counts":[{"before":0}],"line":2,"moment":0,"reply":{"overallCode":"OK","statuses":[{"code":"OK","currentLimit":{"requestsPerUnit":2,"unit":"MINUTE"},"durationUntilReset":"60s","limitRemaining":1}]},"version":0,"worker":0}"#,
                r#"{"charged":1,"counter":{"domain":"d","entries":[{"key":"k","value":"a"}],"start":0,"unit":"MINUTE"}}"#,
            ],
        ),
    ];
    let alloc = rt.alloc();
    for &(config, script, want) in ROWS {
        let script = joined(alloc, script)?;
        let mut text = String::from_str(alloc, "done\n")?;
        text.push_str(joined(alloc, want)?.as_str())?;
        let files = [config];
        assert_eq!(rt;
            said(
                &rt,
                rt.alloc(),
                &["drive", "a"],
                &files,
                script.as_str(),
                NONE
            )?
            .as_str(),
            text.as_str()
        );
    }
    Ok(())
}

#[test]
fn each_exit_has_its_cause(rt: HostRuntime) -> Result<(), Fail> {
    const ROWS: &[(&[&str], &[&str], Failing, &str)] = &[
        (&[], &[A], NONE, "usage\n"),
        (&["drive"], &[A], NONE, "usage\n"),
        (&["drive", "-a"], &[A], NONE, "usage\n"),
        (SERVE_NO_TASK, &[A], NONE, "usage\n"),
        (SERVE_MANY_TASKS, &[A], NONE, "usage\n"),
        (SERVE_BOTH, &[A], NONE, "usage\n"),
        (&["drive", "b"], &[A], NONE, "file 0: fault\n"),
        (
            &["drive", "a", "b"],
            &[A, DOMAIN],
            SECOND_FILE,
            "file 1: fault\n",
        ),
        (&["drive", "a", "b"], &[A, DOMAIN], NONE, "file 1: 11 at \n"),
        (&["drive", "a", "b"], &[DOMAIN, NESTED], NONE, "done\n"),
        (
            &["drive", "a"],
            &[KEYLESS],
            FIRST_READ,
            "file 0: 12 at /descriptors/0\n",
        ),
        (&["drive", "a"], &[A], FIRST_READ, "read fault\n"),
    ];
    for &(words, files, failing, want) in ROWS {
        assert_eq!(rt;
            said(&rt, rt.alloc(), words, files, "", failing)?.as_str(),
            want
        );
    }
    Ok(())
}
