ghost use Rattle.std.specs.Prelude.{◌≡◌};
ghost use Rattle.std.specs.Arc.{arc_value};
ghost use Rattle.descriptor_tree.specs.Views.{config_view};
ghost use Rattle.counter_cells.specs.Opened.{table_of, setup_of};
ghost use Rattle.http_serve.specs.Links.{IsUnused, ends_in};
ghost use Rattle.http_limiter.specs.Limited.{IsInRange, ServesLimited};

use counted_checks::{close_stats, counted, open_stats, parts_of};
use counter_cells::CellNaming;
use descriptor_tree::Config;
use http_checks::{LimiterParts, checks_of, close_served, passes_of};
use http_endpoint::LinkEnd;
use http_serve::{LinksFault, LinksServed, serve_links};
use rate_io::Listen;
use std::alloc::Global;
use std::hash::RandomState;
use std::marker::Brand;
use std::sync::Wait;
use std::thread::Threads;

/// What a limiter that serves links has.
#[derive(Clone, Copy, Debug, PartialEq, Eq)]
pub struct Setup {
    /// Its passes, each of which serves one link at a time, in a thread of its own: 1 to 64.
    pub workers: u32,
    /// Its cells: 1 to 1,048,576.
    pub cells: u32,
    /// Overall codes are always OK.
    pub global_shadow: bool,
    /// Statistics of the rules are kept, and `GET /stats` tells them.
    pub stats: bool,
}

// Serves links by the limiter that these parts make, and closes it and the statistics after the last, also where an accept failed.
fn serve_made<N: CellNaming + Send + Sync, R: Threads + Wait + Sync, L: Listen>(
    rt: &R,
    alloc: Global,
    parts: LimiterParts,
    setup: Setup,
    listen: &mut L,
    connections: u32,
) -> Result<Vec<LinkEnd>, LinksFault>
where
    L::Link: Send,
    requires name { (table_of parts.opened ≡ N.table) × (setup_of parts.opened ≡ N.setup) }
    requires cells { N.setup ≡ record { cells = setup.cells; passes = setup.workers; start = 0 } }
    requires shadow { parts.global_shadow ≡ setup.global_shadow }
    requires range { IsInRange setup connections }
    requires unused { IsUnused (L.history listen.old) }
    ensures { ServesLimited (config_view (arc_value parts.config)) setup connections (L.history listen.old)
        (L.history listen.new) (L.faults listen.old, L.faults listen.new) (ends_in result) }
{
    let (limiter, passes) = parts.make::<N>(alloc)?;
    let checks = checks_of(alloc, &limiter, passes)?;
    let (stats, noting) = open_stats(alloc, setup.stats, setup.workers)?;
    let begun = counted(alloc, checks, &stats, noting)?;
    let LinksServed {
        checks: after,
        ends,
        is_all,
    } = serve_links(rt, alloc, begun, listen, connections)?;
    let (used, noted) = parts_of(alloc, after)?;
    let passes = passes_of(alloc, used)?;
    close_served(alloc, limiter, passes)?;
    close_stats(alloc, stats, noted)?;
    if is_all {
        Ok(ends)
    } else {
        Err(LinksFault::Listen)
    }
}

/// Serves so many links of a listener, each once, by a limiter of this configuration, which starts at moment 0 and is closed after the
/// last link, also where an accept failed. Answers how each link ended. The listener has a port. A check is refused where its counters find
/// no cells, or where [`SERVED_CLAIMS`](http_checks::SERVED_CLAIMS) counters had cells before.
pub fn serve_limited<R: Threads + Wait + Sync, L: Listen>(
    rt: &R,
    alloc: Global,
    seed: RandomState,
    config: Config,
    setup: Setup,
    listen: &mut L,
    connections: u32,
) -> Result<Vec<LinkEnd>, LinksFault>
where
    L::Link: Send,
    requires range { IsInRange setup connections }
    requires unused { IsUnused (L.history listen.old) }
    ensures { ServesLimited (config_view config) setup connections (L.history listen.old) (L.history listen.new)
        (L.faults listen.old, L.faults listen.new) (ends_in result) }
{
    let parts = LimiterParts::open(
        alloc,
        seed,
        config,
        setup.workers,
        setup.cells,
        setup.global_shadow,
    )?;
    serve_made::<Brand, R, L>(rt, alloc, parts, setup, listen, connections)
}
