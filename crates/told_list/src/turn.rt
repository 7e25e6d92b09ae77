// The steps of a turn.
ghost use Rattle.std.specs.Prelude.{◌≡◌, ◌≤◌, ◌<◌, ◌+◌, ◌^◌, [], ◌∷◌, true, length, drop, None, MatchOption};
ghost use mathlib.Core.List.{IsPrefix};
ghost use Rattle.told_list.specs.Rule.{IsSeatOf, Justifies, begun, added, ended};

use crate::kept::Kept;
use crate::rule::{
    Adding, Adds, Begins, Ends, FREE, LENGTH, LOCK, ListRule, Setup, TAKEN, TokenView, TurnFacts,
    VALUE,
};
use atomic_table::{Seat, Shared};
use std::marker::Brand;
use std::sync::Wait;

pub(crate) type SharedTable<K: Kept> = Shared<Option<K>, TokenView<K::Item>, Setup<K>, ListRule>;

pub(crate) type TableSeat<K: Kept> = Seat<Option<K>, TokenView<K::Item>>;

/// Takes the value, or finds that another turn goes on.
pub(crate) fn begin<K: Kept, M: TurnFacts<K>>(
    shared: &SharedTable<K>,
    seat: &mut TableSeat<K>,
) -> Option<K>
    requires here { IsSeatOf seat.old.table_id shared.now.table_id }
    requires bare { seat.old.me.1 ≡ [] }
    requires token { 1 ≤ seat.old.me.0.tokens }
    requires justified { Justifies K.items K.fixed K.MOST shared.now.key seat.old.id seat.old.me.0 M.fact M.busy }
    ensures here { (seat.new.table_id ≡ seat.old.table_id) × (seat.new.id ≡ seat.old.id) }
    ensures found { MatchOption result ((seat.new.me ≡ seat.old.me) × M.busy)
        (λ k. (seat.new.me ≡ (begun (K.items k) seat.old.me.0, (0, None) ∷ [])) × IsPrefix seat.old.me.0.known (K.items k)
        × (seat.old.me.0.shown ≤ length (K.items k)) × M.fact k) }
{
    if shared.compare_exchange::<Begins<K, M>>(seat, LOCK, FREE, TAKEN) != FREE {
        return None;
    }
    shared.exchange(seat, VALUE, None)
}

/// Waits until no other turn goes on, and takes the value.
pub(crate) fn take<K: Kept, R: Wait>(rt: &R, shared: &SharedTable<K>, seat: &mut TableSeat<K>) -> K
    requires here { IsSeatOf seat.old.table_id shared.now.table_id }
    requires bare { seat.old.me.1 ≡ [] }
    requires token { 1 ≤ seat.old.me.0.tokens }
    ensures here { (seat.new.table_id ≡ seat.old.table_id) × (seat.new.id ≡ seat.old.id) }
    ensures begun { seat.new.me ≡ (begun (K.items result) seat.old.me.0, (0, None) ∷ []) }
    ensures knew { IsPrefix seat.old.me.0.known (K.items result) × (seat.old.me.0.shown ≤ length (K.items result)) }
    ensures fixed { K.fixed result ≡ K.fixed shared.now.key.kept }
{
    for _ in rt.forever() {
        if let Some(kept) = begin::<K, Brand>(shared, seat) {
            return kept;
        }
    }
    unreachable!()
}

/// Puts the value back.
pub(crate) fn end<K: Kept + Drop>(shared: &SharedTable<K>, seat: &mut TableSeat<K>, kept: K)
    requires here { IsSeatOf seat.old.table_id shared.now.table_id }
    requires turn { (seat.old.me.0.holds ≡ true) × (seat.old.me.1 ≡ (0, None) ∷ []) }
    requires knows { K.items kept ≡ seat.old.me.0.known }
    requires fixed { K.fixed kept ≡ K.fixed shared.now.key.kept }
    ensures here { (seat.new.table_id ≡ seat.old.table_id) × (seat.new.id ≡ seat.old.id) }
    ensures ended { seat.new.me ≡ (ended seat.old.me.0, []) }
{
    drop(shared.exchange(seat, VALUE, Some(kept)));
    shared.store::<Ends>(seat, LOCK, FREE);
}

// `kept` is there for the proof: what the caller picks is a part of its list.
fn add<K: Kept, M: Adding<K::Item>>(
    shared: &SharedTable<K>,
    seat: &mut TableSeat<K>,
    kept: &K,
    count: u64,
)
    requires here { IsSeatOf seat.old.table_id shared.now.table_id }
    requires turn { seat.old.me.0.holds ≡ true }
    requires count { length M.items ≡ count }
    requires room { (length seat.old.me.0.known + count ≤ K.MOST) × (length seat.old.me.0.known + count < 2 ^ 64) }
    ensures here { (seat.new.table_id ≡ seat.old.table_id) × (seat.new.id ≡ seat.old.id) }
    ensures added { seat.new.me ≡ (added M.items seat.old.me.0, seat.old.me.1) }
{
    let _ = kept;
    shared.fetch_add::<Adds<M>>(seat, LENGTH, count);
}

/// Adds the items of `kept` behind the first `before`.
pub(crate) fn add_kept<K: Kept>(
    shared: &SharedTable<K>,
    seat: &mut TableSeat<K>,
    kept: &K,
    before: u64,
)
    requires here { IsSeatOf seat.old.table_id shared.now.table_id }
    requires turn { seat.old.me.0.holds ≡ true }
    requires grown { (length seat.old.me.0.known ≡ before) × IsPrefix seat.old.me.0.known (K.items kept.now) }
    ensures here { (seat.new.table_id ≡ seat.old.table_id) × (seat.new.id ≡ seat.old.id) }
    ensures added { seat.new.me ≡ (added (drop (length seat.old.me.0.known) (K.items kept.now)) seat.old.me.0, seat.old.me.1) }
    ensures knows { seat.new.me.0.known ≡ K.items kept.now }
{
    let after = kept.len();
    if after <= before {
        return;
    }
    add::<K, Brand>(shared, seat, kept, after - before);
}
