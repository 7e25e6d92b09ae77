// The live shares of a pool, and what is kept of them.
ghost use Rattle.std.specs.Prelude.{◌≡◌, ◌≤◌, ◌<◌, ◌+◌, ◌-◌, ◌^◌, ◌++◌, ◌∷◌, [], drop, filter, max};
ghost use Rattle.std.specs.VecDeque.{deque_len, deque_capacity};
ghost use Rattle.rate_types.specs.Sums.{one_if};
ghost use Rattle.quota_server.specs.Shares.{lasts_until, granted_of};
ghost use Rattle.quota_server.specs.Holds.{first_of};
ghost use Rattle.quota_server.specs.Kept.{counts_in, room_in};
ghost use Rattle.quota_server.specs.Lives.{IsLawful, EndBy, others_hold, first_has_ended};

use crate::holds::Holds;
use crate::live_share::LiveShare;
use rate_types::{Millis, Text};
use std::collections::VecDeque;

/// The live shares of a pool in the order in which they end, what is kept of each client's, what all clients hold together, and how many
/// clients these are.
#[derive(Drop)]
pub struct Live {
    pub shares: VecDeque<LiveShare>,
    pub holds: Holds,
    pub held: u64,
    pub clients: u64,
}

fn one_if(yes: bool) -> u64
    ensures { result ≡ one_if yes }
{
    if yes { 1 } else { 0 }
}

// The first share has ended. The room of the client that is to be kept stays.
fn end_first(live: &mut Live, kept: &Text)
    requires live { IsLawful live.old }
    requires some { 0 < deque_len live.old.shares }
    ensures live { IsLawful live.new }
    ensures rest { live.new.shares.items ≡ drop 1 live.old.shares.items }
    ensures less { deque_len live.new.shares < deque_len live.old.shares }
    ensures room { room_in live.old.holds kept.now ≤ room_in live.new.holds kept.now }
    ensures capacity { deque_capacity live.new.shares ≡ deque_capacity live.old.shares }
{
    let Some(first) = live.shares.pop_front() else {
        unreachable!()
    };
    let before = live.holds.greatest(first.client());
    live.holds.end(first.client(), first.count(), kept);
    let after = live.holds.greatest(first.client());
    live.held -= before - after;
    live.clients -= one_if(live.holds.lacks(first.client()));
}

// Whether the first share has ended at a moment.
fn first_has_ended(live: &Live, at: Millis) -> bool
    ensures { result ≡ first_has_ended live.now.shares.items at }
{
    match live.shares.front() {
        Some(first) => first.until() <= at.get(),
        None => false,
    }
}

/// Takes the shares away that have ended at a moment. The room of the client that is to be kept stays.
pub fn sweep(live: &mut Live, at: Millis, kept: &Text)
    requires live { IsLawful live.old }
    ensures live { IsLawful live.new }
    ensures left { live.new.shares.items ≡ filter (lasts_until at) live.old.shares.items }
    ensures less { deque_len live.new.shares ≤ deque_len live.old.shares }
    ensures room { room_in live.old.holds kept.now ≤ room_in live.new.holds kept.now }
    ensures capacity { deque_capacity live.new.shares ≡ deque_capacity live.old.shares }
{
    'ended: while first_has_ended(live, at) {
        end_first(live, kept);
    }
}

/// Adds a share that ends last.
pub fn begin(live: &mut Live, share: LiveShare)
    requires live { IsLawful live.old }
    requires last { EndBy share.until live.old.shares.items }
    requires room { 1 ≤ room_in live.old.holds share.client }
    requires capacity { deque_len live.old.shares < deque_capacity live.old.shares }
    requires fits { others_hold live.old share.client + max (first_of (counts_in live.old.holds share.client)) share.count < 2 ^ 64 }
    ensures live { IsLawful live.new }
    ensures shares { live.new.shares.items ≡ live.old.shares.items ++ share ∷ [] }
{
    let own = live.holds.greatest(share.client());
    live.clients += one_if(live.holds.lacks(share.client()));
    live.held = live.held - own + own.max(share.count());
    live.holds.begin(share.client(), share.count());
    let Ok(()) = live.shares.push_back(share) else {
        unreachable!()
    };
}

/// What a client is granted of a pool of so many.
pub fn share_of(live: &Live, client: &Text, count: u64) -> u64
    requires live { IsLawful live.now }
    requires fits { live.now.held ≤ count }
    ensures { result ≡ granted_of count live.now.shares.items client.now }
{
    let others = live.held - live.holds.greatest(client);
    let sharing = live.clients + one_if(live.holds.lacks(client));
    (count / sharing).max(1).min(count - others)
}
