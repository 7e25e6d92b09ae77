ghost use Rattle.std.specs.Prelude.{◌≤◌};
ghost use Rattle.rate_types.specs.declared.limits.TheConstants.{MOST_CONNECTIONS};
ghost use Rattle.http_serve.specs.Links.{IsUnused};
ghost use Rattle.serve_tasks.specs.Served.{ServesTasks};

use crate::TasksServed;
use crate::giving::give_back;
use crate::numbers::no_links;
use crate::rounds::serve_rounds;
use conn_tasks::PollListen;
use http_endpoint::Checks;
use http_serve::{LinksFault, filled};
use std::alloc::Global;
use std::sync::Wait;

/// Accepts so many links and serves each once with the checker, at most `tasks` at a time, on this thread; shuts each and gives all back
/// under their numbers. Answers how each ended, in the order of accepting, also where an accept failed. The listener has a port.
pub fn serve_tasks<R: Wait, Q: PollListen, K: Checks>(
    rt: &R,
    alloc: Global,
    checks: &mut K,
    polls: &mut Q,
    connections: u32,
    tasks: u32,
) -> Result<TasksServed, LinksFault>
    requires few { connections ≤ MOST_CONNECTIONS }
    requires some { 1 ≤ tasks }
    requires unused { IsUnused (Q.history polls.old) }
    ensures { ServesTasks K.answers connections checks.old checks.new (Q.history polls.old) (Q.history polls.new)
        (Q.faults polls.old, Q.faults polls.new) result }
{
    let mut links = no_links(alloc);
    let is_all = serve_rounds(rt, alloc, checks, polls, &mut links, connections, tasks)?;
    let served = filled(alloc, links.served)?;
    let Ok(ends) = give_back(alloc, polls, served) else {
        return Err(LinksFault::OutOfMemory);
    };
    Ok(TasksServed { ends, is_all })
}
