// Links that are served by several workers, each in a thread of its own.
ghost use Rattle.std.specs.Prelude.{◌≡◌, ◌≤◌, ◌<◌, ◌++◌, ℕ, [], true, false, ⊤, All, IfOk, OnOk, length, map, vec_len, slice_index_or};
ghost use denote.Param.Send.{IsSend, IsSync};
ghost use Rattle.std.specs.Fork.{AcceptsEach, ChangesAt};
ghost use Rattle.rate_types.specs.declared.limits.TheConstants.{MOST_CONNECTIONS, MOST_WORKERS};
ghost use Rattle.rate_io.specs.Causes.{Rose};
ghost use Rattle.rate_io.specs.Events.{Grew};
ghost use Rattle.link_handover.specs.Passes.{PutsInto, TakesFrom, links_put, marks_put, takers_of, taken_by};
ghost use Rattle.http_serve.specs.Links.{accepts};
ghost use Rattle.http_serve.specs.Accepting.{HasAccepted};
ghost use Rattle.http_serve.specs.Working.{IsReady, HasWorked};

use crate::accepted::Accepted;
use crate::accepting::accept_all;
use crate::merging::merge;
use crate::served::{Fresh, Served};
use crate::signals::Signals;
use crate::worker::{Worker, work};
use http_endpoint::Checks;
use link_handover::{Handover, PutPass, TakePass};
use rate_io::{Link, Listen};
use rate_types::{Items, OutOfMemory};
use std::alloc::Global;
use std::sync::Wait;
use std::thread;
use std::thread::{Threads, for_each_mut, join_mut};

// A thread can be started.
fn can_start<R: Threads>(rt: &R) -> bool {
    match thread::spawn(rt, || ()) {
        Ok(handle) => {
            handle.join(rt);
            true
        }
        Err(_) => false,
    }
}

// A worker of each checker.
fn workers_of<N: Link + Drop, K: Checks + Drop>(
    alloc: Global,
    handover: &Handover<Fresh<N>>,
    checks: Vec<K>,
    mut takes: Vec<TakePass<Fresh<N>>>,
) -> Result<Vec<Worker<N, K>>, OutOfMemory>
    requires takes { All (λ t. TakesFrom handover.now t × (taken_by t ≡ [])) takes.items }
    requires as_many { vec_len takes ≡ vec_len checks }
    ensures checks { IfOk result (λ v. map (λ w. w.checks) v.items ≡ checks.items) }
    ensures ready { IfOk result (λ v. All (λ w. IsReady handover.now w) v.items) }
{
    let _ = handover;
    let mut workers = Vec::with_capacity(alloc, checks.len())?;
    for check in checks {
        let Some(take) = takes.pop() else {
            unreachable!()
        };
        workers.push_reserved(Worker {
            take,
            checks: check,
            served: Vec::new(alloc),
            is_whole: true,
        });
    }
    Ok(workers)
}

// Accepts links on this thread, while others serve them, worker by worker.
fn accept_beside<R: Threads + Wait + Sync, L: Listen, W: Send, F: Fn(usize, &mut W) + Sync>(
    rt: &R,
    handover: &Handover<Fresh<L::Link>>,
    signals: &Signals,
    connections: u32,
    count: u32,
    put: &mut PutPass<Fresh<L::Link>>,
    listen: &mut L,
    serve: &F,
    workers: &mut [W],
) -> Result<bool, OutOfMemory>
    requires put { PutsInto handover.now put.old × (marks_put put.old ≡ 0) × (links_put put.old ≡ []) }
    requires few { connections ≤ MOST_CONNECTIONS }
    requires ready { AcceptsEach F.Fn serve.now workers.old }
    ensures put { PutsInto handover.now put.new × (marks_put put.new ≡ count) × (takers_of put.new ≡ takers_of put.old) }
    ensures grew { Grew (L.history listen.old) (L.history listen.new) (λ _. ⊤) }
    ensures all { IfOk result (λ r. r ≡ true → length (links_put put.new) ≡ connections) }
    ensures failed { IfOk result (λ r. r ≡ false → (length (links_put put.new) < connections)
        × Rose (L.faults listen.old) (L.faults listen.new)) }
    ensures events { IfOk result (λ r. L.history listen.new ≡ L.history listen.old ++ accepts (length (links_put put.new)) r) }
    ensures len { length workers.new ≡ length workers.old }
    ensures each { (i : ℕ) (d : _) → i < length workers.old → ChangesAt F.Fn serve.now i (slice_index_or workers.old i d)
        (slice_index_or workers.new i d) }
{
    let mut accepting = || -> Result<bool, OutOfMemory>
        requires { PutsInto handover.now put.now × (marks_put put.now ≡ 0) × (links_put put.now ≡ []) × (connections ≤ MOST_CONNECTIONS) }
        ensures put { PutsInto handover.entry.now put.exit.now × (marks_put put.exit.now ≡ count)
            × (takers_of put.exit.now ≡ takers_of put.entry.now) }
        ensures grew { Grew (L.history listen.entry.now) (L.history listen.exit.now) (λ _. ⊤) }
        ensures all { IfOk result (λ r. r ≡ true → length (links_put put.exit.now) ≡ connections) }
        ensures failed { IfOk result (λ r. r ≡ false → (length (links_put put.exit.now) < connections)
            × Rose (L.faults listen.entry.now) (L.faults listen.exit.now)) }
        ensures events { IfOk result (λ r. L.history listen.exit.now ≡ L.history listen.entry.now
            ++ accepts (length (links_put put.exit.now)) r) }
    { accept_all(rt, handover, signals, connections, count, put, listen) };
    let mut serving = ||
        requires { IsSync R.row × IsSync F.row × IsSend W.row × AcceptsEach F.Fn serve.now workers.now }
        ensures len { length workers.exit.now ≡ length workers.entry.now }
        ensures each { (i : ℕ) (d : _) → i < length workers.entry.now → ChangesAt F.Fn serve.entry.now i
            (slice_index_or workers.entry.now i d) (slice_index_or workers.exit.now i d) }
    { serve_each(rt, serve, workers, signals) };
    let (_, is_all) = join_mut(rt, &mut serving, &mut accepting);
    is_all
}

// Tells that serving was begun, and then each worker serves in a thread of its own.
fn serve_each<R: Threads + Sync, W: Send, F: Fn(usize, &mut W) + Sync>(
    rt: &R,
    serve: &F,
    workers: &mut [W],
    signals: &Signals,
)
    requires { AcceptsEach F.Fn serve.now workers.old }
    ensures len { length workers.new ≡ length workers.old }
    ensures each { (i : ℕ) (d : _) → i < length workers.old → ChangesAt F.Fn serve.now i (slice_index_or workers.old i d)
        (slice_index_or workers.new i d) }
{
    signals.tell_begun();
    let threads = workers.len().max(1);
    for_each_mut(rt, workers, threads, serve);
}

// Accepts links on this thread, and serves them by the workers.
fn serve_beside<R: Threads + Wait + Sync, L: Listen, K: Checks + Send + Drop>(
    rt: &R,
    alloc: Global,
    handover: &Handover<Fresh<L::Link>>,
    signals: &Signals,
    connections: u32,
    put: &mut PutPass<Fresh<L::Link>>,
    listen: &mut L,
    workers: &mut [Worker<L::Link, K>],
) -> Result<bool, OutOfMemory>
where
    L::Link: Send,
    requires put { PutsInto handover.now put.old × (marks_put put.old ≡ 0) × (links_put put.old ≡ []) }
    requires few { (connections ≤ MOST_CONNECTIONS) × (length workers.old ≤ MOST_WORKERS) }
    requires ready { All (λ w. IsReady handover.now w) workers.old }
    ensures put { PutsInto handover.now put.new × (marks_put put.new ≡ length workers.old) × (takers_of put.new ≡ takers_of put.old) }
    ensures grew { Grew (L.history listen.old) (L.history listen.new) (λ _. ⊤) }
    ensures all { IfOk result (λ r. r ≡ true → length (links_put put.new) ≡ connections) }
    ensures failed { IfOk result (λ r. r ≡ false → (length (links_put put.new) < connections)
        × Rose (L.faults listen.old) (L.faults listen.new)) }
    ensures events { IfOk result (λ r. L.history listen.new ≡ L.history listen.old ++ accepts (length (links_put put.new)) r) }
    ensures len { length workers.new ≡ length workers.old }
    ensures each { (i : ℕ) (d : _) → i < length workers.old → HasWorked K.answers handover.now
        (slice_index_or workers.old i d) (slice_index_or workers.new i d) }
{
    let count = workers.len() as u32;
    let serve = |_: usize, worker: &mut Worker<L::Link, K>|
        requires { IsReady handover.now worker.now }
        ensures { HasWorked K.answers handover.entry.now worker.entry.now worker.exit.now }
    { work(rt, alloc, handover, signals, worker) };
    accept_beside(
        rt,
        handover,
        signals,
        connections,
        count,
        put,
        listen,
        &serve,
        workers,
    )
}

/// What workers have, each in order.
#[derive(Drop)]
struct Parts<N: Link + Drop, K: Checks + Drop> {
    takes: Vec<TakePass<Fresh<N>>>,
    checks: Vec<K>,
    lists: Vec<Items<Served<N>>>,
}

// The parts of workers, none of which was short of memory.
fn parts_of<N: Link + Drop, K: Checks + Drop>(
    alloc: Global,
    workers: Vec<Worker<N, K>>,
) -> Result<Parts<N, K>, OutOfMemory>
    ensures takes { IfOk result (λ p. p.takes.items ≡ map (λ w. w.take) workers.items) }
    ensures checks { IfOk result (λ p. p.checks.items ≡ map (λ w. w.checks) workers.items) }
    ensures lists { IfOk result (λ p. p.lists.items ≡ map (λ w. w.served.items) workers.items) }
    ensures whole { OnOk result (All (λ w. w.is_whole ≡ true) workers.items) }
{
    let mut takes = Vec::with_capacity(alloc, workers.len())?;
    let mut checks = Vec::with_capacity(alloc, workers.len())?;
    let mut lists = Vec::with_capacity(alloc, workers.len())?;
    for worker in workers {
        let Worker {
            take,
            checks: check,
            served,
            is_whole,
        } = worker;
        if !is_whole {
            return Err(OutOfMemory);
        }
        takes.push_reserved(take);
        checks.push_reserved(check);
        lists.push_reserved(Items::of(served));
    }
    Ok(Parts {
        takes,
        checks,
        lists,
    })
}

/// Accepts so many links on this thread and hands them to workers, one of each checker, each in a thread of its own. Where no
/// thread can be started there is no memory.
#[tactic(auto, using(crate::proofs::Events::grown, crate::proofs::Events::stayed))]
pub fn serve_accepted<R: Threads + Wait + Sync, L: Listen, K: Checks + Send + Drop>(
    rt: &R,
    alloc: Global,
    checks: Vec<K>,
    listen: &mut L,
    connections: u32,
) -> Result<Accepted<L::Link, K>, OutOfMemory>
where
    L::Link: Send,
    requires checkers { (1 ≤ vec_len checks) × (vec_len checks ≤ MOST_WORKERS) }
    requires few { connections ≤ MOST_CONNECTIONS }
    ensures grew { Grew (L.history listen.old) (L.history listen.new) (λ _. ⊤) }
    ensures accepted { IfOk result (λ a. HasAccepted K.answers connections checks.items a.checks.items
        (L.history listen.old) (L.history listen.new) (L.faults listen.old, L.faults listen.new) a.served.items a.is_all) }
{
    if !can_start(rt) {
        return Err(OutOfMemory);
    }
    let (handover, mut put, takes) = Handover::make(alloc, checks.len() as u32)?;
    let mut workers = workers_of(alloc, &handover, checks, takes)?;
    let signals = Signals::new();
    let is_all = serve_beside(
        rt,
        alloc,
        &handover,
        &signals,
        connections,
        &mut put,
        listen,
        workers.as_mut_slice(),
    )?;
    let count = put.count();
    let Parts {
        takes,
        checks,
        lists,
    } = parts_of(alloc, workers)?;
    handover.close(put, takes);
    let served = merge(alloc, count, lists)?;
    Ok(Accepted {
        checks,
        served,
        is_all,
    })
}
