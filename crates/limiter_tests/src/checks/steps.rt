// What a line of a table asks, and what is answered.
ghost use Rattle.std.specs.Prelude.{◌≡◌};

use super::requests::request;
use super::words::{answer_text, pass_text};
use crate::configs::config;
use counter_cells::CellNaming;
use rate_limiter::{Limiter, Pass};
use rate_types::{Request, Seconds};
use std::alloc::Global;
use std::sync::Wait;
use std::test::Fail;

fn moment(text: &str) -> Result<Seconds, Fail> {
    Ok(Seconds::capped(text.parse::<u64>()?))
}

// A moment, and a request behind it.
fn moment_and_request(alloc: Global, words: &str) -> Result<(Seconds, Request), Fail> {
    let (now, asked) = words.split_once(" ").ok_or("a moment")?;
    Ok((moment(now)?, request(alloc, asked)?))
}

// A check of a request at a moment.
fn check<N: CellNaming, R: Wait>(
    rt: &R,
    alloc: Global,
    limiter: &Limiter<N>,
    pass: &mut Pass<N>,
    words: &str,
) -> Result<String, Fail>
    requires pass { pass.old.limiter ≡ limiter.now.id }
    ensures pass { pass.new.limiter ≡ limiter.now.id }
{
    let (now, asked) = moment_and_request(alloc, words)?;
    answer_text(alloc, limiter.check(rt, alloc, pass, &asked, now))
}

// A check of a request at a moment, without lock and memory.
fn check_open<N: CellNaming>(
    alloc: Global,
    limiter: &Limiter<N>,
    pass: &mut Pass<N>,
    words: &str,
) -> Result<String, Fail>
    requires pass { pass.old.limiter ≡ limiter.now.id }
    ensures pass { pass.new.limiter ≡ limiter.now.id }
{
    let (now, asked) = moment_and_request(alloc, words)?;
    answer_text(alloc, limiter.check_open(pass, &asked, now))
}

// A reload to so many hits a minute.
fn reload<N: CellNaming, R: Wait>(
    rt: &R,
    alloc: Global,
    limiter: &Limiter<N>,
    pass: &mut Pass<N>,
    limit: &str,
) -> Result<String, Fail>
    requires pass { pass.old.limiter ≡ limiter.now.id }
    ensures pass { pass.new.limiter ≡ limiter.now.id }
{
    let config = config(alloc, limit.parse::<u32>()?)?;
    let installed = limiter.reload(rt, alloc, pass, config);
    Ok(format!(in alloc; "{installed:?}")?)
}

fn tick<N: CellNaming>(
    alloc: Global,
    limiter: &Limiter<N>,
    pass: &mut Pass<N>,
    now: &str,
) -> Result<String, Fail>
    requires pass { pass.old.limiter ≡ limiter.now.id }
    ensures pass { pass.new.limiter ≡ limiter.now.id }
{
    let ticked = limiter.tick(pass, moment(now)?);
    Ok(format!(in alloc; "{}", ticked.get())?)
}

// What a pass is asked: `checks` and `opens` with a moment and a request, `reloads` with a limit, `ticks` with a moment, or `shows`.
fn ask<N: CellNaming, R: Wait>(
    rt: &R,
    alloc: Global,
    limiter: &Limiter<N>,
    pass: &mut Pass<N>,
    words: &str,
) -> Result<String, Fail>
    requires pass { pass.old.limiter ≡ limiter.now.id }
    ensures pass { pass.new.limiter ≡ limiter.now.id }
{
    let (verb, rest) = words.split_once(" ").unwrap_or((words, ""));
    match verb {
        "checks" => check(rt, alloc, limiter, pass, rest),
        "opens" => check_open(alloc, limiter, pass, rest),
        "reloads" => reload(rt, alloc, limiter, pass, rest),
        "ticks" => tick(alloc, limiter, pass, rest),
        "shows" => pass_text(alloc, pass),
        _ => Err(Fail::new("a verb")),
    }
}

// The two passes meet.
fn meet<N: CellNaming, R: Wait>(
    rt: &R,
    alloc: Global,
    limiter: &Limiter<N>,
    one: &mut Pass<N>,
    other: &mut Pass<N>,
) -> Result<String, Fail>
    requires one { one.old.limiter ≡ limiter.now.id }
    requires other { other.old.limiter ≡ limiter.now.id }
    ensures one { one.new.limiter ≡ limiter.now.id }
    ensures other { other.new.limiter ≡ limiter.now.id }
{
    let met = limiter.meet(rt, one, other);
    Ok(format!(in alloc; "{met:?}")?)
}

/// What is answered where `one` or `other` of two passes is asked something, or both `meet`.
pub fn step<N: CellNaming, R: Wait>(
    rt: &R,
    alloc: Global,
    limiter: &Limiter<N>,
    one: &mut Pass<N>,
    other: &mut Pass<N>,
    words: &str,
) -> Result<String, Fail>
    requires one { one.old.limiter ≡ limiter.now.id }
    requires other { other.old.limiter ≡ limiter.now.id }
    ensures one { one.new.limiter ≡ limiter.now.id }
    ensures other { other.new.limiter ≡ limiter.now.id }
{
    let (who, asked) = words.split_once(" ").ok_or("a pass")?;
    match who {
        "one" => ask(rt, alloc, limiter, one, asked),
        "other" => ask(rt, alloc, limiter, other, asked),
        "both" => meet(rt, alloc, limiter, one, other),
        _ => Err(Fail::new("a pass")),
    }
}
