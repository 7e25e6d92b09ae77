// The records of a run in the order of its lines.
ghost use Rattle.std.specs.Prelude.{◌≡◌, ◌≤◌, ◌<◌, ◌^◌, true, MatchOption, length, option_map, slice_index_or};
ghost use Rattle.std.specs.List.{AllByRecursion};
ghost use Rattle.script_run.specs.Journals.{AreShort};
ghost use Rattle.script_run.specs.RunRecords.{ordered, IsOrder};

use crate::Journal;
use reply_text::Record;
use std::marker::Model;

/// Where a record lies: in the journal of this number, at this index. Both are counted from 0.
#[derive(Clone, Copy)]
pub(crate) struct RecordPlace {
    pub journal: usize,
    pub index: usize,
}

/// The records of a run in the order of its lines. They lie in the journals that the workers wrote, and are neither moved nor copied.
/// Contracts see the list of the records.
#[derive(Drop)]
pub struct RunRecords {
    journals: Vec<Journal>,
    // Where the record of each line lies. None where the first journal has them in their order.
    places: Option<Vec<RecordPlace>>,
}

impl Model for RunRecords {
    ghost use Rattle.std.specs.Prelude.{List, option_map};
    ghost use Rattle.reply_text.specs.declared.record.Record.{Record as RecordValue};
    ghost use Rattle.script_run.specs.RunRecords.{ordered, IsOrder};

    ghost Value = { List RecordValue };

    ghost view = { λ r. ordered r.journals.items (option_map (λ p. p.items) r.places) };

    ghost invariant = { λ r. IsOrder r.journals.items (option_map (λ p. p.items) r.places) };
}

// Whether each record of these journals is known to be short.
fn all_short(journals: &[Journal]) -> bool
    ensures { result ≡ true → AllByRecursion AreShort journals.now }
{
    'journals: for index in 0..journals.len() {
        if !journals[index].is_short() {
            return false;
        }
    }
    true
}

impl RunRecords {
    /// The records of these journals, in the order of these places, or those of the first where there are none.
    pub(crate) fn of(journals: Vec<Journal>, places: Option<Vec<RecordPlace>>) -> RunRecords
        requires { IsOrder journals.items (option_map (λ p. p.items) places) }
        ensures { result ≡ ordered journals.items (option_map (λ p. p.items) places) }
    {
        RunRecords { journals, places }
    }

    /// How many records there are.
    pub fn len(&self) -> usize
        ensures { result ≡ length self.now }
    {
        match &self.places {
            None => self.journals[0].items().len(),
            Some(places) => places.len(),
        }
    }

    /// Whether each record is known to be short.
    pub fn are_short(&self) -> bool
        ensures { result ≡ true → AreShort self.now }
    {
        all_short(&self.journals)
    }

    /// The record at an index, counted from 0.
    pub fn get(&self, index: usize) -> Option<&Record>
        ensures found { MatchOption result (length self.now ≤ index)
            (λ r. (index < length self.now) × (r.now ≡ slice_index_or self.now index r.now)) }
        ensures bound { length self.now < 2 ^ 64 }
    {
        if index >= self.len() {
            return None;
        }
        match &self.places {
            None => Some(&self.journals[0].items()[index]),
            Some(places) => {
                let place = places[index];
                Some(&self.journals[place.journal].items()[place.index])
            }
        }
    }
}
