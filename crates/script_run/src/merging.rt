// Where the records of a run lie in its journals.
ghost use Rattle.std.specs.Prelude.{◌≡◌, ◌≤◌, IfOk, true, replicate, vec_len};
ghost use Rattle.std.specs.List.{AllByRecursion};
ghost use Rattle.script_run.specs.Merged.{EachLineOnce, joined};
ghost use Rattle.script_run.specs.Lone.{IsLone};
ghost use Rattle.script_run.specs.RunRecords.{all_put, places_of};

use crate::Journal;
use crate::run_records::RecordPlace;
use rate_types::OutOfMemory;
use reply_text::Record;
use std::alloc::Global;

// A place for each line, which isn't that of its record yet.
fn places_for(alloc: Global, lines: u32) -> Result<Vec<RecordPlace>, OutOfMemory>
    ensures { IfOk result (λ v. v.items ≡ replicate lines (record { journal = 0; index = 0 })) }
{
    let mut places = Vec::new(alloc);
    places.resize(
        lines as usize,
        RecordPlace {
            journal: 0,
            index: 0,
        },
    )?;
    Ok(places)
}

// The place of each record of a journal, put at that of its line.
fn put(places: &mut Vec<RecordPlace>, number: usize, journal: &[Record])
    requires { AllByRecursion (λ r. (1 ≤ r.line) × (r.line ≤ vec_len places.old)) journal.now }
    ensures { places.new.items ≡ all_put number 0 places.old.items journal.now }
{
    'records: for index in 0..journal.len() {
        let rec = &journal[index];
        let line = rec.line as usize;
        places[line - 1] = RecordPlace {
            journal: number,
            index,
        };
    }
}

/// Whether there is one journal, whose records are in the order of their lines.
pub(crate) fn is_lone(lines: u32, journals: &[Journal]) -> bool
    ensures { result ≡ true → IsLone lines journals.now }
{
    match journals {
        [journal] => journal.is_in_order(lines),
        _ => false,
    }
}

/// Where the record of each line lies in these journals.
pub(crate) fn places_in(
    alloc: Global,
    lines: u32,
    journals: &[Journal],
) -> Result<Vec<RecordPlace>, OutOfMemory>
    requires once { EachLineOnce lines (joined journals.now) }
    ensures { IfOk result (λ v. v.items ≡ places_of lines journals.now) }
{
    let mut places = places_for(alloc, lines)?;
    'journals: for number in 0..journals.len() {
        put(&mut places, number, journals[number].items());
    }
    Ok(places)
}
