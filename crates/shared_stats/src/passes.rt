// How passes are split off when statistics are made, and joined when they are closed.
ghost use Rattle.std.specs.Prelude.{◌≡◌, ◌-◌, ◌≤◌, ◌<◌, [], All, IfOk, vec_len};
ghost use Rattle.shared_stats.specs.Rule.{idle_view};
ghost use Rattle.shared_stats.specs.Passes.{IsFresh};
ghost use Rattle.shared_stats.specs.Joins.{JoinsPasses};

use crate::pass::StatsPass;
use crate::rule::{Enters, Passes, SharedTable, TableSeat};
use http_server::Log;
use rate_types::OutOfMemory;
use std::alloc::Global;

// Splits one pass off.
fn split_pass(shared: &SharedTable, seat: &mut TableSeat, rules: u32) -> StatsPass
    requires here { (seat.old.table_id ≡ shared.now.table_id) × (1 ≤ shared.now.table_id.words) }
    requires idle { (seat.old.me ≡ (idle_view seat.old.me.0.passes, [])) × (1 ≤ seat.old.me.0.passes) }
    ensures here { seat.new.table_id ≡ seat.old.table_id }
    ensures left { seat.new.me ≡ (idle_view (seat.old.me.0.passes - 1), []) }
    ensures pass { (result.seat.table_id ≡ shared.now.table_id) × (result.rules ≡ rules) × IsFresh result }
{
    let seat = shared.split_seat::<Passes>(seat);
    StatsPass {
        seat,
        rules,
        hits: 0,
        notes: Log::new(),
        reads: Log::new(),
    }
}

/// Splits all passes off.
pub(crate) fn split_passes(
    alloc: Global,
    shared: &SharedTable,
    mut seat: TableSeat,
    rules: u32,
    passes: u32,
) -> Result<Vec<StatsPass>, OutOfMemory>
    requires here { (seat.table_id ≡ shared.now.table_id) × (1 ≤ shared.now.table_id.words) }
    requires idle { seat.me ≡ (idle_view passes, []) }
    ensures count { IfOk result (λ v. vec_len v ≡ passes) }
    ensures fresh { IfOk result
        (λ v. All (λ p. (p.seat.table_id ≡ shared.now.table_id) × (p.rules ≡ rules) × IsFresh p) v.items) }
{
    let mut made = Vec::with_capacity(alloc, passes as usize)?;
    for _ in 0..passes {
        let pass = split_pass(shared, &mut seat, rules);
        made.push_reserved(pass);
    }
    Ok(made)
}

/// Joins all passes to one seat.
pub(crate) fn join_passes(shared: &SharedTable, passes: Vec<StatsPass>) -> TableSeat
    requires here { 1 ≤ shared.now.table_id.words }
    requires passes { All (λ p. p.seat.table_id ≡ shared.now.table_id) passes.items }
    ensures here { (result.table_id ≡ shared.now.table_id) × (result.me.1 ≡ []) }
    ensures all { JoinsPasses passes.items result.me.0 }
{
    let (_, mut all) = shared.load_new_seat::<Enters>(0);
    for pass in passes {
        let StatsPass {
            seat,
            rules: _,
            hits: _,
            notes: _,
            reads: _,
        } = pass;
        shared.join_seat::<Passes>(&mut all, seat);
    }
    all
}
