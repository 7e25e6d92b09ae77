// The records of a run, in the journals of its workers.
ghost use Rattle.std.specs.Prelude.{◌≡◌, ℕ, length, IfOk};
ghost use Rattle.rate_types.specs.Sums.{total};
ghost use Rattle.reply_text.specs.declared.record.Record.{Record as RecordValue};
ghost use Rattle.script_run.specs.Merged.{EachLineOnce, Merges, joined};

use crate::Journal;
use crate::merging::{is_lone, places_in};
use crate::run_records::RunRecords;
use rate_types::OutOfMemory;
use std::alloc::Global;
use std::marker::Model;

/// The records of a run, in the journals that its workers wrote. Contracts see the list of the records in the order of their lines,
/// which [`RunJournals::in_order`] finds; what is summed over them needs no order.
#[derive(Drop)]
pub struct RunJournals {
    lines: u32,
    journals: Vec<Journal>,
    // There is one journal, and its records are in the order of their lines.
    is_lone: bool,
}

impl Model for RunJournals {
    ghost use Rattle.std.specs.Prelude.{◌≡◌, List, true};
    ghost use Rattle.reply_text.specs.declared.record.Record.{Record as RecordValue};
    ghost use Rattle.script_run.specs.Merged.{EachLineOnce, joined};
    ghost use Rattle.script_run.specs.Lone.{IsLone};
    ghost use Rattle.script_run.specs.RunRecords.{ordered, order_of};

    ghost Value = { List RecordValue };

    ghost view = { λ r. ordered r.journals.items (order_of r.is_lone r.lines r.journals.items) };

    ghost invariant = { λ r. EachLineOnce r.lines (joined r.journals.items) × (r.is_lone ≡ true → IsLone r.lines r.journals.items) };
}

/// The records of these journals in the order of their lines, where each of so many lines has one record in one of them.
pub fn merge(lines: u32, journals: Vec<Journal>) -> RunJournals
    requires once { EachLineOnce lines (joined journals.items) }
    ensures merged { Merges lines journals.items result }
{
    let is_lone = is_lone(lines, &journals);
    RunJournals {
        lines,
        journals,
        is_lone,
    }
}

impl RunJournals {
    /// The journals in which the records lie. What is summed over them is what is summed over the records, so whoever needs no order
    /// reads the journals, each from its start to its end.
    pub(crate) fn into_journals(self) -> Vec<Journal>
        ensures { (f : RecordValue → ℕ) → total f self ≡ total (total f) result.items }
    {
        self.journals
    }

    /// How many records there are.
    pub fn len(&self) -> usize
        ensures { result ≡ length self.now }
    {
        self.lines as usize
    }

    /// The same records, of which each can be had by its line.
    pub fn in_order(self, alloc: Global) -> Result<RunRecords, OutOfMemory>
        ensures { IfOk result (λ r. r ≡ self) }
    {
        let RunJournals {
            lines,
            journals,
            is_lone,
        } = self;
        let places = if is_lone {
            None
        } else {
            Some(places_in(alloc, lines, &journals)?)
        };
        Ok(RunRecords::of(journals, places))
    }
}
