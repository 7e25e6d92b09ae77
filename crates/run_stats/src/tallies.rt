// The tallies of all workers of a run.
ghost use Rattle.std.specs.Prelude.{◌≡◌, ◌≤◌, ℕ, List, IfOk, length, true};
ghost use Rattle.rate_types.specs.Sums.{total};
ghost use Rattle.reply_text.specs.declared.record.Record.{Record as RecordValue};
ghost use Rattle.rule_stats.specs.declared.tally.TheConstants.{MOST_NOTES};
ghost use Rattle.rule_stats.specs.Sums.{AreSums};
ghost use Rattle.script_run.specs.Merged.{Merges};
ghost use Rattle.script_run.specs.ScriptLine.{ScriptLine};
ghost use Rattle.run_stats.specs.RunStats.{notes_of, HaveCounted};

use rate_types::OutOfMemory;
use rule_stats::Tally;
use std::alloc::Global;

/// The numbers of all tallies. Where each has those of the answered checks in a worker's journal, they are the numbers of the run.
pub fn merge_tallies(alloc: Global, tallies: &[Tally]) -> Result<Tally, OutOfMemory>
    requires room { total (λ t. t.notes) tallies.now ≤ MOST_NOTES }
    ensures { IfOk result (λ t. (lines : List ScriptLine) (journals : List (List RecordValue)) (records : List RecordValue)
        → HaveCounted true lines journals tallies.now → Merges (length lines) journals records → AreSums (notes_of lines records) t.versions) }
{
    let mut sum = Tally::new(alloc);
    'tallies: for index in 0..tallies.len() {
        sum = sum.merge(&tallies[index])?;
    }
    Ok(sum)
}
