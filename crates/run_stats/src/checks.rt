// What one line of a script adds to the statistics.
ghost use Rattle.std.specs.Prelude.{◌≡◌, ◌+◌, ◌*◌, ◌≤◌, ◌++◌, List, length, OnOk};
ghost use Rattle.rate_types.specs.declared.limits.TheConstants.{MOST_DESCRIPTORS};
ghost use Rattle.rule_stats.specs.declared.tally.TheConstants.{MOST_NOTES};
ghost use Rattle.rule_stats.specs.Statistics.{Note};
ghost use Rattle.rule_stats.specs.Sums.{AreSums};
ghost use Rattle.script_run.specs.Views.{line_view};
ghost use Rattle.run_stats.specs.RunStats.{notes_of_check, notes_shown};

use rate_types::{OutOfMemory, Request};
use reply_text::{Outcome, Record};
use rls_core::Status;
use rule_stats::Tally;
use script_run::Line;

// Adds the statuses of an answered check, each with the hits of its descriptor.
fn add_check(
    tally: &mut Tally,
    version: u32,
    request: &Request,
    statuses: &[Status],
) -> Result<(), OutOfMemory>
    requires few { length statuses.now ≤ MOST_DESCRIPTORS }
    requires room { tally.old.notes + MOST_DESCRIPTORS ≤ MOST_NOTES }
    ensures sums { OnOk result ((notes : List Note) → AreSums notes tally.old.versions
        → AreSums (notes ++ notes_of_check version request.now request.now.descriptors statuses.now) tally.new.versions) }
    ensures notes { OnOk result (tally.new.notes ≤ tally.old.notes + MOST_DESCRIPTORS) }
{
    let descriptors = request.descriptors();
    let both = descriptors.len().min(statuses.len());
    'descriptors: for place in 0..both {
        let hits = descriptors[place].hits.unwrap_or(request.hits());
        tally.add(version, hits, &statuses[place])?;
    }
    Ok(())
}

/// Adds what an answered check shows. Another line adds nothing.
pub fn add_line(tally: &mut Tally, line: &Line, rec: &Record) -> Result<(), OutOfMemory>
    requires room { tally.old.notes + MOST_DESCRIPTORS ≤ MOST_NOTES }
    ensures sums { OnOk result ((notes : List Note) → AreSums notes tally.old.versions
        → AreSums (notes ++ notes_shown (line_view line.now) rec.now.version rec.now.outcome) tally.new.versions) }
    ensures notes { OnOk result (tally.new.notes ≤ tally.old.notes + MOST_DESCRIPTORS) }
{
    match (line, &rec.outcome) {
        (Line::Check(request), Outcome::Checked(answer)) => {
            add_check(tally, rec.version, request, answer.items().as_slice())
        }
        _ => Ok(()),
    }
}
