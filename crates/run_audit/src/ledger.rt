ghost use Rattle.std.specs.Prelude.{◌≡◌, ◌↔◌, List, IsTrue, IfOk, length, map, nat_lt};
ghost use Rattle.std.specs.List.{list_all};
ghost use Rattle.reply_text.specs.declared.record.Record.{Record};
ghost use Rattle.script_run.specs.Charges.{ChargesFormLedger, ledger_of};
ghost use Rattle.script_run.specs.ScriptLine.{ScriptLine};
ghost use Rattle.script_run.specs.Views.{line_view};
ghost use Rattle.run_audit.specs.Shown.{AreInOrder};

use crate::ShownCharge;
use crate::chain::{is_chain, sorted};
use crate::connectives::both;
use crate::gathering::{Shown, add_shown};
use rate_types::OutOfMemory;
use reply_text::Record;
use script_run::Line;
use std::alloc::Global;

/// The charges of all answered checks, line after line.
pub fn charges_of(
    alloc: Global,
    lines: &[Line],
    records: &[Record],
) -> Result<Vec<ShownCharge>, OutOfMemory>
    requires { length records.now ≡ length lines.now }
    ensures { IfOk result (λ v. v.items ≡ ledger_of (map line_view lines.now) records.now) }
{
    let mut charges = Vec::new(alloc);
    add_shown(&mut charges, Shown::Charges, lines, records)?;
    Ok(charges)
}

fn all_hit(charges: &[ShownCharge]) -> bool
    ensures { result ≡ list_all (λ x. nat_lt 0 x.hits) charges.now }
{
    charges.iter().all(|x| x.hits() > 0)
}

/// The charges of all answered checks, in their order.
pub fn sorted_charges(
    alloc: Global,
    lines: &[Line],
    records: &[Record],
) -> Result<Vec<ShownCharge>, OutOfMemory>
    requires { length records.now ≡ length lines.now }
    ensures { IfOk result (λ v. AreInOrder (map line_view lines.now) records.now v.items) }
{
    let charges = charges_of(alloc, lines, records)?;
    let charges = sorted(charges);
    Ok(charges)
}

/// Whether the charges of a run, which stand in their order, form one lawful ledger.
pub fn are_ledger(charges: &[ShownCharge]) -> bool
    ensures { (lines : List ScriptLine) (records : List Record) → AreInOrder lines records charges.now
        → (IsTrue result ↔ ChargesFormLedger lines records) }
{
    let hits = all_hit(charges);
    let chain = is_chain(charges);
    let lawful = both(hits, chain);
    lawful
}

/// Whether the charges of all answered checks form one lawful ledger.
pub fn charges_form_ledger(
    alloc: Global,
    lines: &[Line],
    records: &[Record],
) -> Result<bool, OutOfMemory>
    requires { length records.now ≡ length lines.now }
    ensures { IfOk result (λ b. IsTrue b ↔ ChargesFormLedger (map line_view lines.now) records.now) }
{
    let charges = sorted_charges(alloc, lines, records)?;
    let lawful = are_ledger(&charges);
    Ok(lawful)
}
