// Links that are accepted and handed to workers.
ghost use Rattle.std.specs.Prelude.{◌≡◌, ◌≤◌, ◌<◌, ◌++◌, [], true, false, ⊤, IfOk, length};
ghost use Rattle.rate_types.specs.declared.limits.TheConstants.{MOST_CONNECTIONS};
ghost use Rattle.rate_io.specs.Causes.{Rose};
ghost use Rattle.rate_io.specs.Events.{Grew};
ghost use Rattle.link_handover.specs.Passes.{PutsInto, links_put, marks_put, takers_of};
ghost use Rattle.http_serve.specs.Links.{accepts};

use crate::served::Fresh;
use crate::signals::Signals;
use link_handover::{Handover, PutPass};
use rate_io::{Link, Listen};
use rate_types::OutOfMemory;
use std::sync::Wait;

// Once the thread that serves was begun, accepts so many links and puts each, as long as no worker is short of memory. False where an
// accept failed.
#[tactic(auto, using(crate::proofs::Events::grown, crate::proofs::Events::stayed))]
fn put_all<R: Wait, L: Listen>(
    rt: &R,
    handover: &Handover<Fresh<L::Link>>,
    signals: &Signals,
    connections: u32,
    put: &mut PutPass<Fresh<L::Link>>,
    listen: &mut L,
) -> Result<bool, OutOfMemory>
    requires put { PutsInto handover.now put.old × (marks_put put.old ≡ 0) × (links_put put.old ≡ []) }
    requires few { connections ≤ MOST_CONNECTIONS }
    ensures put { PutsInto handover.now put.new × (marks_put put.new ≡ 0) × (takers_of put.new ≡ takers_of put.old) }
    ensures grew { Grew (L.history listen.old) (L.history listen.new) (λ _. ⊤) }
    ensures all { IfOk result (λ r. r ≡ true → length (links_put put.new) ≡ connections) }
    ensures failed { IfOk result (λ r. r ≡ false → (length (links_put put.new) < connections)
        × Rose (L.faults listen.old) (L.faults listen.new)) }
    ensures events { IfOk result (λ r. L.history listen.new ≡ L.history listen.old ++ accepts (length (links_put put.new)) r) }
{
    if !signals.wait_begun(rt) {
        return Err(OutOfMemory);
    }
    'links: for number in 0..connections {
        if signals.is_short() {
            return Err(OutOfMemory);
        }
        let Ok(link) = listen.accept() else {
            return Ok(false);
        };
        handover.put(rt, put, Fresh { link });
    }
    Ok(true)
}

// Puts so many end marks.
fn finish_all<R: Wait, N: Link + Drop>(
    rt: &R,
    handover: &Handover<Fresh<N>>,
    workers: u32,
    put: &mut PutPass<Fresh<N>>,
)
    requires put { PutsInto handover.now put.old × (marks_put put.old ≡ 0) }
    ensures put { PutsInto handover.now put.new × (marks_put put.new ≡ workers) × (takers_of put.new ≡ takers_of put.old) }
    ensures links { links_put put.new ≡ links_put put.old }
{
    for _ in 0..workers {
        handover.finish(rt, put);
    }
}

/// Accepts so many links and puts each, and then an end mark for each worker. False where an accept failed. No link is accepted before
/// the thread that serves was begun, nor after a worker was short of memory.
pub fn accept_all<R: Wait, L: Listen>(
    rt: &R,
    handover: &Handover<Fresh<L::Link>>,
    signals: &Signals,
    connections: u32,
    workers: u32,
    put: &mut PutPass<Fresh<L::Link>>,
    listen: &mut L,
) -> Result<bool, OutOfMemory>
    requires put { PutsInto handover.now put.old × (marks_put put.old ≡ 0) × (links_put put.old ≡ []) }
    requires few { connections ≤ MOST_CONNECTIONS }
    ensures put { PutsInto handover.now put.new × (marks_put put.new ≡ workers) × (takers_of put.new ≡ takers_of put.old) }
    ensures grew { Grew (L.history listen.old) (L.history listen.new) (λ _. ⊤) }
    ensures all { IfOk result (λ r. r ≡ true → length (links_put put.new) ≡ connections) }
    ensures failed { IfOk result (λ r. r ≡ false → (length (links_put put.new) < connections)
        × Rose (L.faults listen.old) (L.faults listen.new)) }
    ensures events { IfOk result (λ r. L.history listen.new ≡ L.history listen.old ++ accepts (length (links_put put.new)) r) }
{
    let is_all = put_all(rt, handover, signals, connections, put, listen);
    finish_all(rt, handover, workers, put);
    is_all
}
