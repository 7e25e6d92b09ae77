// How tokens are split off when a list is made, and joined when it is closed.
ghost use Rattle.std.specs.Prelude.{◌≡◌, ◌-◌, ◌≤◌, [], length, false, All, IfOk, vec_len};
ghost use Rattle.told_list.specs.Rule.{IsSeatOf, first_view, idle_view, IsIdle, IsLast};
ghost use Rattle.told_list.specs.Tokens.{list_of, view, IsFresh};
ghost use Rattle.told_list.specs.Joins.{JoinsTokens};

use crate::into_seen::IntoSeen;
use crate::kept::Kept;
use crate::rule::{Enters, LENGTH, LOCK, TAKEN, TakesSlot, Tokens};
use crate::seen::Seen;
use crate::turn::{SharedTable, TableSeat, begin, end};
use rate_types::OutOfMemory;
use std::alloc::Global;
use std::marker::Brand;

/// Puts the value into a new table.
pub(crate) fn put_in<K: Kept + Drop>(shared: &SharedTable<K>, seat: &mut TableSeat<K>, kept: K)
    requires here { IsSeatOf seat.old.table_id shared.now.table_id }
    requires unfilled { seat.old.me ≡ (first_view (K.items kept) shared.now.key.tokens, []) }
    requires kept { shared.now.key.kept ≡ kept }
    ensures here { seat.new.table_id ≡ seat.old.table_id }
    ensures knows { seat.new.me ≡ (idle_view (K.items kept) shared.now.key.tokens, []) }
{
    shared.store::<TakesSlot>(seat, LOCK, TAKEN);
    end(shared, seat, kept);
}

/// Splits one token off.
fn split_token<K: Kept>(
    shared: &SharedTable<K>,
    seat: &mut TableSeat<K>,
    len: u64,
) -> Seen<K, K::Item>
    requires here { IsSeatOf seat.old.table_id shared.now.table_id }
    requires idle { (seat.old.me.1 ≡ []) × IsIdle seat.old.me.0 × (1 ≤ seat.old.me.0.tokens) }
    requires len { len ≡ length seat.old.me.0.known }
    ensures here { seat.new.table_id ≡ seat.old.table_id }
    ensures left { seat.new.me ≡ (idle_view seat.old.me.0.known (seat.old.me.0.tokens - 1), []) }
    ensures token { (list_of result ≡ shared.now.table_id) × IsFresh seat.old.me.0.known (view result) }
{
    let seat = shared.split_seat::<Tokens>(seat);
    Seen { seat, len }
}

/// Splits all tokens off.
pub(crate) fn split_tokens<K: Kept + Drop>(
    alloc: Global,
    shared: &SharedTable<K>,
    mut seat: TableSeat<K>,
    seats: u32,
    len: u64,
) -> Result<Vec<Seen<K, K::Item>>, OutOfMemory>
    requires here { IsSeatOf seat.table_id shared.now.table_id }
    requires idle { (seat.me.1 ≡ []) × IsIdle seat.me.0 × (seat.me.0.tokens ≡ seats) }
    requires len { len ≡ length seat.me.0.known }
    ensures count { IfOk result (λ v. vec_len v ≡ seats) }
    ensures fresh { IfOk result (λ v. All (λ s. (list_of s ≡ shared.now.table_id) × IsFresh seat.me.0.known (view s)) v.items) }
{
    let mut tokens = Vec::with_capacity(alloc, seats as usize)?;
    for _ in 0..seats {
        let token = split_token(shared, &mut seat, len);
        tokens.push_reserved(token);
    }
    Ok(tokens)
}

/// Joins all tokens to one seat.
pub(crate) fn join_tokens<K: Kept + Drop, P: IntoSeen<K> + Drop>(
    shared: &SharedTable<K>,
    passes: Vec<P>,
) -> TableSeat<K>
    requires here { (shared.now.table_id.words ≡ 2) × (shared.now.table_id.slots ≡ 1) }
    requires passes { All (λ p. P.list p ≡ shared.now.table_id) passes.items }
    ensures here { (result.table_id ≡ shared.now.table_id) × (result.me.1 ≡ []) }
    ensures all { JoinsTokens P.known P.own passes.items result.me.0 }
{
    let (_, mut all) = shared.load_new_seat::<Enters>(LENGTH);
    for pass in passes {
        let Seen { seat, len: _ } = pass.into_seen();
        shared.join_seat::<Tokens>(&mut all, seat);
    }
    all
}

/// Takes the value for good, with a seat that stands for all tokens.
pub(crate) fn take_last<K: Kept>(shared: &SharedTable<K>, seat: &mut TableSeat<K>) -> K
    requires here { IsSeatOf seat.old.table_id shared.now.table_id }
    requires idle { (seat.old.me.1 ≡ []) × (seat.old.me.0.holds ≡ false) × (seat.old.me.0.unfilled ≡ false) }
    requires every { (seat.old.me.0.tokens ≡ shared.now.key.tokens) × (1 ≤ seat.old.me.0.tokens) }
    ensures last { IsLast K.items K.fixed shared.now.key.kept seat.old.me.0 result }
{
    let Some(kept) = begin::<K, Brand>(shared, seat) else {
        unreachable!()
    };
    kept
}
