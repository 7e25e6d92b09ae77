ghost use Rattle.std.specs.Prelude.{◌≡◌, ◌≤◌, ⊤, IfOk, vec_len};
ghost use Rattle.rate_types.specs.declared.limits.TheConstants.{MOST_CONNECTIONS, MOST_WORKERS};
ghost use Rattle.rate_io.specs.Events.{Grew};
ghost use Rattle.http_serve.specs.Links.{IsUnused, ServesLinks};

use crate::LinksServed;
use crate::giving::give_back;
use crate::serving::serve_accepted;
use http_endpoint::Checks;
use rate_io::Listen;
use rate_types::OutOfMemory;
use std::alloc::Global;
use std::sync::Wait;
use std::thread::Threads;
use thiserror::Error;

/// Why not all links were served.
#[derive(Clone, Copy, Debug, PartialEq, Eq, Error)]
pub enum LinksFault {
    /// A link couldn't be accepted, or the next thing that happens not be waited for.
    #[error("listen failed")]
    Listen,
    /// There was no memory.
    #[error("out of memory")]
    OutOfMemory,
}

impl From<OutOfMemory> for LinksFault {
    ghost use Rattle.std.specs.Prelude.{◌≡◌};
    ghost use Rattle.http_serve.specs.declared.links.LinksFault.TheVariants as fault;

    ghost from_gives = { λ _ e. e ≡ fault.OutOfMemory };

    fn from(_: OutOfMemory) -> Self {
        LinksFault::OutOfMemory
    }
}

/// Accepts so many links and serves each once with one of the checkers, shuts it and gives it back under its number. Answers the
/// checkers in order, and how each link ended, also where an accept failed. The listener has a port. Without memory the checkers are given
/// up.
pub fn serve_links<R: Threads + Wait + Sync, L: Listen, K: Checks + Send + Drop>(
    rt: &R,
    alloc: Global,
    checks: Vec<K>,
    listen: &mut L,
    connections: u32,
) -> Result<LinksServed<K>, OutOfMemory>
where
    L::Link: Send,
    requires checkers { (1 ≤ vec_len checks) × (vec_len checks ≤ MOST_WORKERS) }
    requires few { connections ≤ MOST_CONNECTIONS }
    requires unused { IsUnused (L.history listen.old) }
    ensures grew { Grew (L.history listen.old) (L.history listen.new) (λ _. ⊤) }
    ensures served { IfOk result (λ s. ServesLinks K.answers connections checks.items s.checks.items (L.history listen.old)
        (L.history listen.new) (L.faults listen.old, L.faults listen.new) s.ends.items s.is_all) }
{
    let accepted = serve_accepted(rt, alloc, checks, listen, connections)?;
    let ends = give_back(alloc, listen, accepted.served)?;
    Ok(LinksServed {
        checks: accepted.checks,
        ends,
        is_all: accepted.is_all,
    })
}
