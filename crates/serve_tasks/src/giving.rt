// Links that are done.
ghost use Rattle.std.specs.Prelude.{⊤, ◌≡◌, ◌≤◌, ◌++◌, [], IfOk, vec_len};
ghost use Rattle.std.specs.List.{filter_map};
ghost use Rattle.rate_io.specs.Events.{Grew};
ghost use Rattle.rate_io.specs.Listeners.{accepted_count, number_back};
ghost use Rattle.http_serve.specs.Links.{AreNumbered, given_back, ends_of};

use crate::running::ServedTask;
use conn_tasks::PollListen;
use http_endpoint::LinkEnd;
use rate_types::OutOfMemory;
use std::alloc::Global;

/// Gives back each link in order, and answers how each ended.
#[tactic(auto, using(crate::proofs::Calls::grown, crate::proofs::Calls::stayed))]
pub fn give_back<Q: PollListen>(
    alloc: Global,
    polls: &mut Q,
    served: Vec<ServedTask<Q::Link>>,
) -> Result<Vec<LinkEnd>, OutOfMemory>
    requires accepted { vec_len served ≤ accepted_count (Q.history polls.old) }
    requires none_back { filter_map number_back (Q.history polls.old) ≡ [] }
    requires numbered { AreNumbered 0 served.items }
    ensures grew { Grew (Q.history polls.old) (Q.history polls.new) (λ _. ⊤) }
    ensures events { IfOk result (λ _. Q.history polls.new ≡ Q.history polls.old ++ given_back served.items) }
    ensures ends { IfOk result (λ v. v.items ≡ ends_of served.items) }
    ensures faults { Q.faults polls.new ≡ Q.faults polls.old }
{
    let mut ends = Vec::with_capacity(alloc, served.len())?;
    for one in served {
        ends.push_reserved(one.link_end);
        polls.give_back(one.number, one.link);
    }
    Ok(ends)
}
