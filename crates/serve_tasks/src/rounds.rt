// Rounds, each of which does what woke it.
ghost use Rattle.std.specs.Prelude.{◌≡◌, ◌≤◌, ⊤, ℕ, None, Some, get_or, length, IfOk, vec_len};
ghost use Rattle.rate_types.specs.declared.limits.TheConstants.{MOST_CONNECTIONS};
ghost use Rattle.rate_io.specs.Causes.{HasCause};
ghost use Rattle.rate_io.specs.Events.{Grew};
ghost use Rattle.conn_tasks.specs.Listening.{ToldOf};
ghost use Rattle.conn_tasks.specs.declared.woke.Woke.{Woke};
ghost use Rattle.serve_tasks.specs.Running.{Runs, Stand, Follows, WasRun, WasToldOf};
ghost use Rattle.serve_tasks.specs.Links.{standing};
ghost use Rattle.serve_tasks.specs.Rounds.{EndsRounds};

use crate::accepting::{Accepting, accept_on, accepting_after, is_over, is_whole};
use crate::links::Links;
use crate::numbers::run_at;
use conn_tasks::{PollLink, PollListen, Woke};
use http_endpoint::Checks;
use http_serve::LinksFault;
use rate_io::Failed;
use rate_types::OutOfMemory;
use std::alloc::Global;
use std::sync::Wait;

/// The milliseconds of a sleep in which nothing happens.
const TICK: u64 = 1_000;

// Sleeps, where each connection waits at its link, and the last accept waited or none is to be made. Where more links may be there it only
// looks what has happened.
fn sleep_on<Q: PollListen>(polls: &mut Q, accepting: &Accepting) -> Result<usize, Failed>
    ensures history { Q.history polls.new ≡ Q.history polls.old }
    ensures cause { HasCause (Q.faults polls.old) (Q.faults polls.new) result }
    ensures told { IfOk result (λ count. count ≡ length (Q.told polls.new)) }
{
    match accepting {
        Accepting::More => polls.sleep(0),
        Accepting::Waits(_) | Accepting::Full | Accepting::All | Accepting::Failed => {
            polls.sleep(TICK)
        }
    }
}

// Does one thing for which a sleep ended. True where a link may come.
fn run_one<R: Wait, N: PollLink + Drop, K: Checks>(
    rt: &R,
    alloc: Global,
    checks: &mut K,
    links: &mut Links<N>,
    woke: Option<Woke>,
) -> Result<bool, OutOfMemory>
    requires stand { Stand (standing links.old) }
    ensures runs { Runs K.answers checks.old checks.new (standing links.old) (standing links.new) }
    ensures as_many { vec_len links.new.tasks ≡ vec_len links.old.tasks }
    ensures run { IfOk result (λ _. (k : ℕ) → WasToldOf woke k
        → WasRun (get_or links.old.tasks.items k None) (get_or links.new.tasks.items k None)) }
    ensures others { (k : ℕ) → Follows (get_or links.old.tasks.items k None) (get_or links.new.tasks.items k None) }
{
    match woke {
        None => Ok(false),
        Some(Woke::Listener) => Ok(true),
        Some(Woke::Link { place, is_closed }) => {
            run_at(rt, alloc, checks, links, place, is_closed)?;
            Ok(false)
        }
    }
}

// Does all things for which the last sleep ended, and polls no other connection. True where a link may come.
fn run_woken<R: Wait, Q: PollListen, K: Checks>(
    rt: &R,
    alloc: Global,
    checks: &mut K,
    polls: &Q,
    links: &mut Links<Q::Link>,
    count: usize,
) -> Result<bool, OutOfMemory>
    requires stand { Stand (standing links.old) }
    requires all { count ≡ length (Q.told polls.now) }
    ensures runs { IfOk result (λ _. Runs K.answers checks.old checks.new (standing links.old) (standing links.new)) }
    ensures as_many { IfOk result (λ _. vec_len links.new.tasks ≡ vec_len links.old.tasks) }
    ensures run { IfOk result (λ _. (place : ℕ) → ToldOf (Q.told polls.now) place
        → WasRun (get_or links.old.tasks.items place None) (get_or links.new.tasks.items place None)) }
{
    let mut may_come = false;
    'things: for index in 0..count {
        let is_listener = run_one(rt, alloc, checks, links, polls.woke(index))?;
        may_come |= is_listener;
    }
    Ok(may_come)
}

/// Serves links until all were served, or those before an accept that failed; true and false tell which.
pub fn serve_rounds<R: Wait, Q: PollListen, K: Checks>(
    rt: &R,
    alloc: Global,
    checks: &mut K,
    polls: &mut Q,
    links: &mut Links<Q::Link>,
    connections: u32,
    tasks: u32,
) -> Result<bool, LinksFault>
    requires few { connections ≤ MOST_CONNECTIONS }
    requires none { vec_len links.old.tasks ≡ 0 }
    ensures runs { IfOk result (λ _. Runs K.answers checks.old checks.new (standing links.old) (standing links.new)) }
    ensures ends { EndsRounds connections (vec_len links.new.tasks) links.new.live (Q.history polls.old) (Q.history polls.new)
        (Q.faults polls.old, Q.faults polls.new) result }
{
    let mut accepting = Accepting::More;
    'rounds: for _ in rt.forever() {
        accepting = accept_on(
            rt,
            alloc,
            checks,
            polls,
            links,
            connections,
            tasks,
            accepting,
        )?;
        if is_over(&accepting) && links.live == 0 {
            return Ok(is_whole(&accepting));
        }
        let Ok(count) = sleep_on(polls, &accepting) else {
            return Err(LinksFault::Listen);
        };
        let may_come = run_woken(rt, alloc, checks, polls, links, count)?;
        accepting = accepting_after(accepting, may_come, links.live < tasks);
    }
    unreachable!()
}
