// Clause after clause.
ghost use Rattle.std.specs.Prelude.{◌≡◌, IfOk, length, map};
ghost use Rattle.std.specs.Arc.{arc_value};
ghost use Rattle.descriptor_tree.specs.Views.{config_view};
ghost use Rattle.script_run.specs.Views.{line_view};
ghost use Rattle.run_audit.specs.Judged.{AnswersFirst};

use crate::ledger::{are_ledger, sorted_charges};
use crate::refusals::{RunParts, refusals_have_causes};
use crate::replies::replies_by_rule;
use crate::totals::are_totals_of;
use crate::{
    Clause, Configs, Setup, moments_never_fall, one_record_per_line, sights_lawful,
    values_never_fall, versions_never_fall, versions_numbered,
};
use descriptor_tree::Config;
use rate_types::OutOfMemory;
use reply_text::Record;
use rls_core::Total;
use script_run::Line;
use std::alloc::Global;
use std::sync::Arc;

/// The first clause that the records and the totals of a run break, None where all hold.
pub fn first_broken(
    alloc: Global,
    first: &Arc<Config>,
    setup: Setup,
    lines: &[Line],
    records: &[Record],
    totals: &[Total],
) -> Result<Option<Clause>, OutOfMemory>
    ensures { IfOk result (λ o. AnswersFirst (record {
      first = config_view (arc_value first.now);
      setup = setup;
      lines = map line_view lines.now;
      records = records.now;
      totals = totals.now;
    }) o) }
{
    let one = one_record_per_line(setup.workers, lines, records);
    if !one {
        return Ok(Some(Clause::OneRecordPerLine));
    }
    let numbered = versions_numbered(alloc, lines, records)?;
    if !numbered {
        return Ok(Some(Clause::VersionsNumbered));
    }
    let configs = Configs::make(alloc, first, lines, records)?;
    let ruled = replies_by_rule(&configs, setup.global_shadow, lines, records);
    if !ruled {
        return Ok(Some(Clause::RepliesByRule));
    }
    let rising = versions_never_fall(alloc, lines, records)?;
    if !rising {
        return Ok(Some(Clause::VersionsNeverFall));
    }
    let timely = moments_never_fall(alloc, setup.start, lines, records)?;
    if !timely {
        return Ok(Some(Clause::MomentsNeverFall));
    }
    let charges = sorted_charges(alloc, lines, records)?;
    let ledger = are_ledger(&charges);
    if !ledger {
        return Ok(Some(Clause::ChargesFormLedger));
    }
    let seen = sights_lawful(alloc, lines, records)?;
    if !seen {
        return Ok(Some(Clause::SightsLawful));
    }
    let fair = values_never_fall(alloc, lines, records)?;
    if !fair {
        return Ok(Some(Clause::SightsLawful));
    }
    let run = RunParts {
        configs: &configs,
        workers: setup.workers,
        cells: setup.cells,
        lines,
        records,
    };
    let caused = refusals_have_causes(alloc, &run)?;
    if !caused {
        return Ok(Some(Clause::RefusalsHaveCauses));
    }
    let summed = are_totals_of(&charges, setup.start, lines, totals);
    if !summed {
        return Ok(Some(Clause::TotalsOfCharges));
    }
    Ok(None)
}
