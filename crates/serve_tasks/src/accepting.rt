// Links that are accepted.
ghost use Rattle.std.specs.Prelude.{◌≡◌, ◌≤◌, ℕ, List, ⊤, IfOk, vec_len};
ghost use Rattle.rate_types.specs.declared.limits.TheConstants.{MOST_CONNECTIONS};
ghost use Rattle.rate_io.specs.Events.{Grew};
ghost use Rattle.rate_io.specs.Listeners.{ListenEvent};
ghost use Rattle.serve_tasks.specs.Running.{Runs};
ghost use Rattle.serve_tasks.specs.Links.{standing};
ghost use Rattle.serve_tasks.specs.Accepting.{Accepts, is_unfailed, is_over};

use crate::links::Links;
use crate::numbers::begin;
use conn_tasks::{PollListen, Polled};
use http_endpoint::Checks;
use rate_types::OutOfMemory;
use std::alloc::Global;
use std::sync::Wait;

/// The most connections that are accepted in one round.
const MOST_ACCEPTED: u32 = 16;

/// An accept would have waited, and none was made since. Only an accept that answered so makes one.
#[derive(Drop)]
pub struct AcceptWaits {
    _told: (),
}

/// Whether more links are accepted.
#[derive(Drop)]
pub enum Accepting {
    /// One more may be there.
    More,
    /// None was there.
    Waits(AcceptWaits),
    /// As many connections go on as may.
    Full,
    /// All were accepted.
    All,
    /// An accept failed, so no more are made.
    Failed,
}

// Accepts a link, if one is there and it may be accepted, and runs it at once.
#[tactic(auto, using(crate::proofs::Standings::runs_none, crate::proofs::Calls::grown, crate::proofs::Calls::stayed))]
fn accept_one<R: Wait, Q: PollListen, K: Checks>(
    rt: &R,
    alloc: Global,
    checks: &mut K,
    polls: &mut Q,
    links: &mut Links<Q::Link>,
    connections: u32,
    tasks: u32,
) -> Result<Accepting, OutOfMemory>
    requires few { connections ≤ MOST_CONNECTIONS }
    requires within { vec_len links.old.tasks ≤ connections }
    ensures runs { IfOk result (λ _. Runs K.answers checks.old checks.new (standing links.old) (standing links.new)) }
    ensures accepts { IfOk result (λ a. Accepts connections Accepting.More a (vec_len links.old.tasks) (vec_len links.new.tasks)
        (Q.history polls.old) (Q.history polls.new) (Q.faults polls.old) (Q.faults polls.new)) }
    ensures within { IfOk result (λ _. vec_len links.new.tasks ≤ connections) }
    ensures grew { Grew (Q.history polls.old) (Q.history polls.new) (λ _. ⊤) }
{
    let number = links.tasks.len();
    if number == connections as usize {
        return Ok(Accepting::All);
    }
    if links.live >= tasks {
        return Ok(Accepting::Full);
    }
    let link = match polls.poll_accept(number) {
        Polled::Pending => return Ok(Accepting::Waits(AcceptWaits { _told: () })),
        Polled::Ready(Err(_)) => return Ok(Accepting::Failed),
        Polled::Ready(Ok(link)) => link,
    };
    begin(rt, alloc, checks, links, link)?;
    Ok(Accepting::More)
}

/// Accepts some links and runs each at once.
pub fn accept_some<R: Wait, Q: PollListen, K: Checks>(
    rt: &R,
    alloc: Global,
    checks: &mut K,
    polls: &mut Q,
    links: &mut Links<Q::Link>,
    connections: u32,
    tasks: u32,
) -> Result<Accepting, OutOfMemory>
    requires few { connections ≤ MOST_CONNECTIONS }
    requires within { vec_len links.old.tasks ≤ connections }
    ensures runs { IfOk result (λ _. Runs K.answers checks.old checks.new (standing links.old) (standing links.new)) }
    ensures accepts { IfOk result (λ a. Accepts connections Accepting.More a (vec_len links.old.tasks) (vec_len links.new.tasks)
        (Q.history polls.old) (Q.history polls.new) (Q.faults polls.old) (Q.faults polls.new)) }
    ensures within { IfOk result (λ _. vec_len links.new.tasks ≤ connections) }
    ensures grew { Grew (Q.history polls.old) (Q.history polls.new) (λ _. ⊤) }
{
    'links: for _ in 0..MOST_ACCEPTED {
        match accept_one(rt, alloc, checks, polls, links, connections, tasks)? {
            Accepting::More => {}
            other => return Ok(other),
        }
    }
    Ok(Accepting::More)
}

/// Accepts some links where more may be there.
pub fn accept_on<R: Wait, Q: PollListen, K: Checks>(
    rt: &R,
    alloc: Global,
    checks: &mut K,
    polls: &mut Q,
    links: &mut Links<Q::Link>,
    connections: u32,
    tasks: u32,
    accepting: Accepting,
) -> Result<Accepting, OutOfMemory>
    requires few { connections ≤ MOST_CONNECTIONS }
    requires within { vec_len links.old.tasks ≤ connections }
    ensures runs { IfOk result (λ _. Runs K.answers checks.old checks.new (standing links.old) (standing links.new)) }
    ensures accepts { IfOk result (λ a. Accepts connections accepting a (vec_len links.old.tasks) (vec_len links.new.tasks)
        (Q.history polls.old) (Q.history polls.new) (Q.faults polls.old) (Q.faults polls.new)) }
    ensures within { IfOk result (λ _. vec_len links.new.tasks ≤ connections) }
    ensures grew { Grew (Q.history polls.old) (Q.history polls.new) (λ _. ⊤) }
{
    match accepting {
        Accepting::More => accept_some(rt, alloc, checks, polls, links, connections, tasks),
        other => Ok(other),
    }
}

/// What to do about links that may come, once what woke is done: where one may come, or a place fell free, an accept is made.
pub fn accepting_after(accepting: Accepting, may_come: bool, has_room: bool) -> Accepting
    ensures { (connections n : ℕ) (history : List ListenEvent) (faults : ℕ)
        → Accepts connections accepting result n n history history faults faults }
{
    match accepting {
        Accepting::All => Accepting::All,
        Accepting::Failed => Accepting::Failed,
        Accepting::More => Accepting::More,
        Accepting::Full => if has_room {
            Accepting::More
        } else {
            Accepting::Full
        },
        Accepting::Waits(waits) => if may_come {
            Accepting::More
        } else {
            Accepting::Waits(waits)
        },
    }
}

/// No more links are accepted.
pub fn is_over(accepting: &Accepting) -> bool
    ensures { result ≡ is_over accepting.now }
{
    match accepting {
        Accepting::All | Accepting::Failed => true,
        Accepting::More | Accepting::Waits(_) | Accepting::Full => false,
    }
}

/// No accept failed.
pub fn is_whole(accepting: &Accepting) -> bool
    ensures { result ≡ is_unfailed accepting.now }
{
    match accepting {
        Accepting::Failed => false,
        Accepting::More | Accepting::Waits(_) | Accepting::Full | Accepting::All => true,
    }
}
