// What a worker counts.
ghost use Rattle.std.specs.Prelude.{◌≡◌, ◌≤◌, ◌+◌, ◌++◌, List, OnOk, true};
ghost use Rattle.rate_types.specs.declared.limits.TheConstants.{MOST_DESCRIPTORS};
ghost use Rattle.rule_stats.specs.declared.tally.TheConstants.{MOST_NOTES};
ghost use Rattle.rule_stats.specs.Statistics.{Note};
ghost use Rattle.rule_stats.specs.Sums.{AreSums};
ghost use Rattle.script_run.specs.Views.{line_view};
ghost use Rattle.run_stats.specs.RunStats.{notes_shown};

use rate_types::OutOfMemory;
use reply_text::Record;
use rule_stats::Tally;
use run_stats::add_line;
use script_run::Line;

/// Adds what a record shows of its line, where statistics are asked for.
#[inline(always)]
pub(crate) fn count_line(
    stats: bool,
    tally: &mut Tally,
    line: &Line,
    shown: &Record,
) -> Result<(), OutOfMemory>
    requires room { tally.old.notes + MOST_DESCRIPTORS ≤ MOST_NOTES }
    ensures sums { OnOk result (stats ≡ true → (notes : List Note) → AreSums notes tally.old.versions
        → AreSums (notes ++ notes_shown (line_view line.now) shown.now.version shown.now.outcome) tally.new.versions) }
    ensures notes { OnOk result (tally.new.notes ≤ tally.old.notes + MOST_DESCRIPTORS) }
{
    if stats {
        add_line(tally, line, shown)
    } else {
        Ok(())
    }
}
