// Links that are done.
ghost use Rattle.std.specs.Prelude.{⊤, ◌≡◌, ◌≤◌, ◌++◌, [], IfOk, vec_len};
ghost use Rattle.rate_io.specs.Listeners.{accepted_count, number_back};
ghost use Rattle.std.specs.List.{filter_map};
ghost use Rattle.rate_io.specs.Events.{Grew};
ghost use Rattle.http_serve.specs.Links.{AreNumbered, given_back, ends_of};

use crate::Served;
use http_endpoint::LinkEnd;
use rate_io::Listen;
use rate_types::OutOfMemory;
use std::alloc::Global;

/// Gives back each link in order, and answers how each ended.
#[tactic(auto, using(crate::proofs::Events::grown, crate::proofs::Events::stayed))]
pub fn give_back<L: Listen>(
    alloc: Global,
    listen: &mut L,
    served: Vec<Served<L::Link>>,
) -> Result<Vec<LinkEnd>, OutOfMemory>
    requires accepted { vec_len served ≤ accepted_count (L.history listen.old) }
    requires none_back { filter_map number_back (L.history listen.old) ≡ [] }
    requires numbered { AreNumbered 0 served.items }
    ensures grew { Grew (L.history listen.old) (L.history listen.new) (λ _. ⊤) }
    ensures events { IfOk result (λ _. L.history listen.new ≡ L.history listen.old ++ given_back served.items) }
    ensures ends { IfOk result (λ v. v.items ≡ ends_of served.items) }
    ensures faults { L.faults listen.new ≡ L.faults listen.old }
{
    let mut ends = Vec::with_capacity(alloc, served.len())?;
    for one in served {
        ends.push_reserved(one.link_end);
        listen.give_back(one.number, one.link);
    }
    Ok(ends)
}
