// How drawers are split off when numbers are made, and joined when they are closed.
ghost use Rattle.std.specs.Prelude.{◌≡◌, ◌-◌, ◌≤◌, [], All, IfOk, vec_len};
ghost use Rattle.line_numbers.specs.Rule.{idle_view};
ghost use Rattle.line_numbers.specs.Drawers.{IsFresh, drawn};
ghost use Rattle.line_numbers.specs.Joins.{JoinsDrawers};

use crate::drawer::Drawer;
use crate::rule::{ASKED, Drawers, Enters, SharedTable, TableSeat};
use rate_types::OutOfMemory;
use std::alloc::Global;

/// Splits one drawer off.
fn split_drawer(shared: &SharedTable, seat: &mut TableSeat) -> Drawer
    requires here { (seat.old.table_id ≡ shared.now.table_id) × (1 ≤ shared.now.table_id.words) }
    requires idle { (seat.old.me ≡ (idle_view seat.old.me.0.lines seat.old.me.0.drawers, [])) × (1 ≤ seat.old.me.0.drawers) }
    ensures here { seat.new.table_id ≡ seat.old.table_id }
    ensures left { seat.new.me ≡ (idle_view seat.old.me.0.lines (seat.old.me.0.drawers - 1), []) }
    ensures drawer { (result.seat.table_id ≡ shared.now.table_id) × (result.seat.me.0.lines ≡ seat.old.me.0.lines) × IsFresh result }
{
    let seat = shared.split_seat::<Drawers>(seat);
    Drawer {
        seat,
        has_ended: false,
    }
}

/// Splits all drawers off.
pub(crate) fn split_drawers(
    alloc: Global,
    shared: &SharedTable,
    mut seat: TableSeat,
    drawers: u32,
) -> Result<Vec<Drawer>, OutOfMemory>
    requires here { (seat.table_id ≡ shared.now.table_id) × (1 ≤ shared.now.table_id.words) }
    requires idle { seat.me ≡ (idle_view seat.me.0.lines drawers, []) }
    ensures count { IfOk result (λ v. vec_len v ≡ drawers) }
    ensures fresh { IfOk result
        (λ v. All (λ d. (d.seat.table_id ≡ shared.now.table_id) × (d.seat.me.0.lines ≡ seat.me.0.lines) × IsFresh d) v.items) }
{
    let mut made = Vec::with_capacity(alloc, drawers as usize)?;
    for _ in 0..drawers {
        let drawer = split_drawer(shared, &mut seat);
        made.push_reserved(drawer);
    }
    Ok(made)
}

/// Joins all drawers to one seat.
pub(crate) fn join_drawers(shared: &SharedTable, drawers: Vec<Drawer>) -> TableSeat
    requires here { 1 ≤ shared.now.table_id.words }
    requires drawers { All (λ d. d.seat.table_id ≡ shared.now.table_id) drawers.items }
    ensures here { (result.table_id ≡ shared.now.table_id) × (result.me.1 ≡ []) }
    ensures all { JoinsDrawers drawers.items result.me.0 }
{
    let (_, mut all) = shared.load_new_seat::<Enters>(ASKED);
    for drawer in drawers {
        let Drawer { seat, has_ended: _ } = drawer;
        shared.join_seat::<Drawers>(&mut all, seat);
    }
    all
}
