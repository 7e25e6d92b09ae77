ghost use Rattle.std.specs.Prelude.{◌≡◌, ◌↔◌, List, IsTrue, IfOk, length, map};
ghost use Rattle.reply_text.specs.declared.record.Record.{Record};
ghost use Rattle.script_run.specs.Charges.{ChargesFormLedger};
ghost use Rattle.script_run.specs.Moments.{moment_after};
ghost use Rattle.script_run.specs.Totals.{AreTotalsOf};
ghost use Rattle.script_run.specs.Views.{line_view};
ghost use Rattle.run_audit.specs.Closing.{give_totals, gives_total, is_last, is_total_of};
ghost use Rattle.run_audit.specs.Shown.{AreInOrder};

use crate::ShownCharge;
use crate::ledger::sorted_charges;
use crate::offers::tick_of;
use rate_types::{OutOfMemory, Seconds};
use reply_text::Record;
use rls_core::Total;
use script_run::Line;
use std::alloc::Global;
use window_keys::end_of;

// The greatest of the start and the ticks.
fn moment_after(start: Seconds, lines: &[Line]) -> u64
    ensures { result ≡ moment_after start (map line_view lines.now) }
{
    let mut moment = 0;
    'lines: for i in 0..lines.len() {
        moment = tick_of(&lines[i]).max(moment);
    }
    moment.max(start.get())
}

fn is_last(charge: &ShownCharge, later: &[ShownCharge]) -> bool
    ensures { result ≡ is_last charge.now later.now }
{
    match later.first() {
        Some(next) => !(charge.counter() == next.counter()),
        None => true,
    }
}

fn gives_total(charge: &ShownCharge, later: &[ShownCharge], moment: u64) -> bool
    ensures { result ≡ gives_total moment charge.now later.now }
{
    is_last(charge, later) && moment < end_of(charge.counter())
}

fn is_total_of(charge: &ShownCharge, total: &Total) -> bool
    ensures { result ≡ is_total_of charge.now total.now }
{
    charge.counter() == &total.key && u128::from(total.charged) == charge.after()
}

// Whether these are the totals that sorted charges give.
fn give_totals(charges: &[ShownCharge], moment: u64, totals: &[Total]) -> bool
    ensures { result ≡ give_totals moment charges.now totals.now }
{
    let mut rest = totals;
    'charges: for i in 0..charges.len() {
        if gives_total(&charges[i], &charges[i + 1..], moment) {
            let Some((total, others)) = rest.split_first() else {
                return false;
            };
            if !is_total_of(&charges[i], total) {
                return false;
            }
            rest = others;
        }
    }
    rest.is_empty()
}

/// Whether these are the totals of the windows that are open at the end, where the charges of a run, which stand in their order, form a
/// lawful ledger.
pub fn are_totals_of(
    charges: &[ShownCharge],
    start: Seconds,
    lines: &[Line],
    totals: &[Total],
) -> bool
    ensures { (records : List Record) → AreInOrder (map line_view lines.now) records charges.now
        → ChargesFormLedger (map line_view lines.now) records
        → (IsTrue result ↔ AreTotalsOf start (map line_view lines.now) records totals.now) }
{
    let moment = moment_after(start, lines);
    give_totals(charges, moment, totals)
}

/// Whether these are the totals of the windows that are open at the end, where the charges form a lawful ledger.
pub fn are_totals(
    alloc: Global,
    start: Seconds,
    lines: &[Line],
    records: &[Record],
    totals: &[Total],
) -> Result<bool, OutOfMemory>
    requires same { length records.now ≡ length lines.now }
    requires ledger { ChargesFormLedger (map line_view lines.now) records.now }
    ensures { IfOk result (λ b. IsTrue b ↔ AreTotalsOf start (map line_view lines.now) records.now totals.now) }
{
    let charges = sorted_charges(alloc, lines, records)?;
    let given = are_totals_of(&charges, start, lines, totals);
    Ok(given)
}
