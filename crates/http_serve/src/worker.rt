// A worker, which serves the links that it takes.
ghost use Rattle.std.specs.Prelude.{◌≡◌, ◌+◌, true, false};
ghost use Rattle.rate_types.specs.Sums.{total};
ghost use Rattle.link_handover.specs.Passes.{TakesFrom, taken_by, is_end};
ghost use Rattle.http_serve.specs.Working.{HasServed, HasStopped, IsReady, HasWorked};

use crate::served::{Fresh, Served, serve_one};
use crate::signals::Signals;
use http_endpoint::{Buffers, Checks};
use link_handover::{Handover, TakePass, Taken};
use rate_io::Link;
use std::alloc::Global;
use std::sync::Wait;

/// What takes links for it, its checker, and the links that it served, in order.
#[derive(Drop)]
pub struct Worker<N: Link + Drop, K: Checks + Drop> {
    pub take: TakePass<Fresh<N>>,
    pub checks: K,
    pub served: Vec<Served<N>>,
    /// Memory sufficed so far.
    pub is_whole: bool,
}

#[tactic(auto, using(crate::proofs::Taking::ends_end, crate::proofs::Taking::ends_link))]
// Says that there is no memory, and drops the links that it takes, until there are no more.
fn give_up<R: Wait, N: Link + Drop>(
    rt: &R,
    handover: &Handover<Fresh<N>>,
    signals: &Signals,
    take: &mut TakePass<Fresh<N>>,
)
    requires take { TakesFrom handover.now take.old }
    ensures take { TakesFrom handover.now take.new }
    ensures ended { total is_end (taken_by take.new) ≡ total is_end (taken_by take.old) + 1 }
{
    signals.tell_short();
    for _ in rt.forever() {
        match handover.take(rt, take) {
            Taken::End => return,
            Taken::Link { number: _, link } => drop(link),
        }
    }
    unreachable!()
}

// Takes a link and serves it; false where there are no more, or no memory.
fn serve_next<R: Wait, N: Link + Drop, K: Checks + Drop>(
    rt: &R,
    alloc: Global,
    handover: &Handover<Fresh<N>>,
    signals: &Signals,
    buffers: &mut Buffers,
    worker: &mut Worker<N, K>,
) -> bool
    requires take { TakesFrom handover.now worker.old.take }
    ensures take { TakesFrom handover.now worker.new.take }
    ensures goes { result ≡ true → HasServed K.answers worker.old worker.new }
    ensures stops { result ≡ false → HasStopped worker.old worker.new }
{
    match handover.take(rt, &mut worker.take) {
        Taken::End => false,
        Taken::Link { number, link } => {
            if worker.served.reserve(1).is_err() {
                drop(link);
                worker.is_whole = false;
                give_up(rt, handover, signals, &mut worker.take);
                return false;
            }
            let one = serve_one(rt, alloc, &mut worker.checks, number, link, buffers);
            worker.served.push_reserved(one);
            true
        }
    }
}

/// Serves links until there are no more. Where there is no memory, it says so and drops the links that it takes from then on.
pub fn work<R: Wait, N: Link + Drop, K: Checks + Drop>(
    rt: &R,
    alloc: Global,
    handover: &Handover<Fresh<N>>,
    signals: &Signals,
    worker: &mut Worker<N, K>,
)
    requires { IsReady handover.now worker.old }
    ensures { HasWorked K.answers handover.now worker.old worker.new }
{
    let Ok(mut buffers) = Buffers::make(alloc) else {
        worker.is_whole = false;
        give_up(rt, handover, signals, &mut worker.take);
        return;
    };
    for _ in rt.forever() {
        if !serve_next(rt, alloc, handover, signals, &mut buffers, worker) {
            return;
        }
    }
    unreachable!()
}
