ghost use Rattle.std.specs.Prelude.{◌≡◌, ◌≤◌};
ghost use Rattle.std.specs.Arc.{arc_value};
ghost use Rattle.rate_types.specs.declared.limits.TheConstants.{MOST_CELLS, MOST_CONNECTIONS};
ghost use Rattle.descriptor_tree.specs.Views.{config_view};
ghost use Rattle.counter_cells.specs.Opened.{table_of, setup_of};
ghost use Rattle.http_serve.specs.Links.{IsUnused, ends_in};
ghost use Rattle.limiter_tasks.specs.Limited.{ServesLimitedTasks};

use conn_tasks::PollListen;
use counted_checks::{close_stats, counted, open_stats, parts_of};
use counter_cells::CellNaming;
use descriptor_tree::Config;
use http_checks::{LimiterParts, checks_of, close_served, passes_of};
use http_endpoint::LinkEnd;
use http_serve::LinksFault;
use serve_tasks::serve_tasks;
use std::alloc::Global;
use std::hash::RandomState;
use std::marker::Brand;
use std::sync::Wait;

/// What a limiter of one pass has.
#[derive(Clone, Copy, Debug, PartialEq, Eq)]
pub struct TaskSetup {
    /// Its cells: 1 to 1,048,576.
    pub cells: u32,
    /// Overall codes are always OK.
    pub global_shadow: bool,
    /// Statistics of the rules are kept, and `GET /stats` tells them.
    pub stats: bool,
}

// Serves links by the limiter that these parts make, and closes it and the statistics after the last, also where an accept failed.
fn serve_made<N: CellNaming, R: Wait, Q: PollListen>(
    rt: &R,
    alloc: Global,
    parts: LimiterParts,
    setup: TaskSetup,
    polls: &mut Q,
    connections: u32,
    tasks: u32,
) -> Result<Vec<LinkEnd>, LinksFault>
    requires name { (table_of parts.opened ≡ N.table) × (setup_of parts.opened ≡ N.setup) }
    requires cells { N.setup ≡ record { cells = setup.cells; passes = 1; start = 0 } }
    requires shadow { parts.global_shadow ≡ setup.global_shadow }
    requires few { connections ≤ MOST_CONNECTIONS }
    requires some { 1 ≤ tasks }
    requires unused { IsUnused (Q.history polls.old) }
    ensures { ServesLimitedTasks (config_view (arc_value parts.config)) setup connections (Q.history polls.old)
        (Q.history polls.new) (Q.faults polls.old, Q.faults polls.new) (ends_in result) }
{
    let (limiter, passes) = parts.make::<N>(alloc)?;
    let checks = checks_of(alloc, &limiter, passes)?;
    let (stats, noting) = open_stats(alloc, setup.stats, 1)?;
    let mut all = counted(alloc, checks, &stats, noting)?;
    let Some(mut one) = all.pop() else {
        unreachable!()
    };
    let served = match serve_tasks(rt, alloc, &mut one, polls, connections, tasks) {
        Ok(served) => served,
        Err(LinksFault::Listen) => return Err(LinksFault::Listen),
        Err(LinksFault::OutOfMemory) => return Err(LinksFault::OutOfMemory),
    };
    let is_all = served.is_all;
    all.push_reserved(one);
    let (used, noted) = parts_of(alloc, all)?;
    let passes = passes_of(alloc, used)?;
    close_served(alloc, limiter, passes)?;
    close_stats(alloc, stats, noted)?;
    if is_all {
        Ok(served.ends)
    } else {
        Err(LinksFault::Listen)
    }
}

/// Serves so many links of a listener, each once and at most `tasks` at a time, on this thread, by a limiter of this configuration, which
/// starts at moment 0 and is closed after the last link, also where an accept failed. Answers how each link ended, in the order of accepting.
/// The listener has a port. A check is refused where its counters find no cells, or where [`SERVED_CLAIMS`](http_checks::SERVED_CLAIMS)
/// counters had cells before.
pub fn serve_limited_tasks<R: Wait, Q: PollListen>(
    rt: &R,
    alloc: Global,
    seed: RandomState,
    config: Config,
    setup: TaskSetup,
    polls: &mut Q,
    connections: u32,
    tasks: u32,
) -> Result<Vec<LinkEnd>, LinksFault>
    requires cells { (1 ≤ setup.cells) × (setup.cells ≤ MOST_CELLS) }
    requires few { connections ≤ MOST_CONNECTIONS }
    requires some { 1 ≤ tasks }
    requires unused { IsUnused (Q.history polls.old) }
    ensures { ServesLimitedTasks (config_view config) setup connections (Q.history polls.old) (Q.history polls.new)
        (Q.faults polls.old, Q.faults polls.new) (ends_in result) }
{
    let parts = LimiterParts::open(alloc, seed, config, 1, setup.cells, setup.global_shadow)?;
    serve_made::<Brand, R, Q>(rt, alloc, parts, setup, polls, connections, tasks)
}
