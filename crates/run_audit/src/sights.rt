ghost use Rattle.std.specs.Prelude.{◌≡◌, ◌↔◌, IsTrue, IfOk, length, map};
ghost use Rattle.script_run.specs.Charges.{ChargesFormLedger, SightsLawful};
ghost use Rattle.script_run.specs.Views.{line_view};

use crate::chain::are_chain;
use crate::charges_of;
use crate::gathering::{Shown, add_shown};
use rate_types::OutOfMemory;
use reply_text::Record;
use script_run::Line;
use std::alloc::Global;

/// Whether what answered checks show as seen are sums of the lawful ledger of their charges.
pub fn sights_lawful(alloc: Global, lines: &[Line], records: &[Record]) -> Result<bool, OutOfMemory>
    requires same { length records.now ≡ length lines.now }
    requires ledger { ChargesFormLedger (map line_view lines.now) records.now }
    ensures { IfOk result (λ b. IsTrue b ↔ SightsLawful (map line_view lines.now) records.now) }
{
    let mut sights = Vec::new(alloc);
    add_shown(&mut sights, Shown::Sights, lines, records)?;
    if sights.is_empty() {
        return Ok(true);
    }
    let mut charges = charges_of(alloc, lines, records)?;
    add_shown(&mut charges, Shown::Sights, lines, records)?;
    let lawful = are_chain(charges);
    Ok(lawful)
}
