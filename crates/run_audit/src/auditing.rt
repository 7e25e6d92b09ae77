ghost use Rattle.std.specs.Prelude.{◌≡◌, IfOk, length, map};
ghost use Rattle.std.specs.Arc.{arc_value};
ghost use Rattle.descriptor_tree.specs.Views.{config_view};
ghost use Rattle.run_text.specs.Views.{shown_of};
ghost use Rattle.script_run.specs.Views.{line_view};
ghost use Rattle.run_audit.specs.Judged.{IsJudged};
ghost use Rattle.run_audit.specs.Verdict.{IsVerdict};

use crate::judging::first_broken;
use crate::{Clause, Setup, Verdict, records_of};
use descriptor_tree::Config;
use rate_types::OutOfMemory;
use rls_core::Total;
use run_text::{RunText, Said, read_run};
use script_run::Line;
use std::alloc::Global;
use std::sync::Arc;

// The verdict of a run whose lines are the texts of these records and totals.
fn judged(
    alloc: Global,
    first: &Arc<Config>,
    setup: Setup,
    lines: &[Line],
    said: Vec<Said>,
    totals: &[Total],
) -> Result<Verdict, OutOfMemory>
    ensures { IfOk result (λ v. IsJudged (record {
      first = config_view (arc_value first.now);
      setup = setup;
      lines = map line_view lines.now;
      records = map shown_of said.items;
      totals = totals.now;
    }) v) }
{
    let Some(records) = records_of(alloc, lines, said)? else {
        return Ok(Verdict::Breaks(Clause::OneRecordPerLine));
    };
    let items = records.items();
    match first_broken(alloc, first, setup, lines, items, totals)? {
        Some(clause) => Ok(Verdict::Breaks(clause)),
        None => Ok(Verdict::Lawful {
            records: items.len() as u64,
        }),
    }
}

/// The verdict on the bytes of a printed run of a script, whose version 0 is this configuration: its first line that is no record or
/// total, the first clause that it breaks, or that all of them hold.
pub fn audit(
    alloc: Global,
    first: &Arc<Config>,
    setup: Setup,
    lines: &[Line],
    run: &[u8],
) -> Result<Verdict, OutOfMemory>
    ensures { IfOk result (λ v. IsVerdict (config_view (arc_value first.now)) setup (map line_view lines.now) run.now v) }
{
    match read_run(alloc, run)? {
        RunText::Wrong { line } => Ok(Verdict::Form { line }),
        RunText::Lines { records, totals } => {
            let verdict = judged(alloc, first, setup, lines, records, &totals)?;
            Ok(verdict)
        }
    }
}
