ghost use Rattle.std.specs.Prelude.{◌≡◌, ◌↔◌, ◌==◌, ℕ, IsTrue, IfOk, if◌then◌else◌, length, map};
ghost use Rattle.script_run.specs.Lines.{EachLine};
ghost use Rattle.script_run.specs.Views.{line_view};
ghost use Rattle.run_audit.specs.Greatest.{number_in};

use crate::of_record::worker_of;
use rate_types::OutOfMemory;
use reply_text::Record;
use script_run::Line;
use std::alloc::Global;
use std::collections::BTreeMap;

/// A fact about a record and the earlier ones of its worker, which the greatest of their numbers decides.
pub trait ByEarlier {
    ghost use Rattle.std.specs.Prelude.{◌≡◌, ◌↔◌, ℕ, IsTrue, List};
    ghost use Rattle.reply_text.specs.declared.record.Record.{Record};
    ghost use Rattle.run_audit.specs.Greatest.{greatest};

    /// The number of a record.
    ghost number: { Self → Record → ℕ };

    /// The fact.
    ghost stands: { Self → List Record → Record → Type 0 };

    /// The number of a record.
    fn number(&self, rec: &Record) -> u64
        ensures { result ≡ number self.now rec.now };

    /// Whether it stands, where this is the greatest number of the earlier records of its worker, 0 where there is none.
    fn decide(&self, most: u64, rec: &Record) -> bool
        ensures { (earlier : List Record) → most ≡ greatest (number self.now) rec.now.worker earlier
            → (IsTrue result ↔ stands self.now earlier rec.now) };
}

/// The number of a key, 0 where it has none.
pub fn number_in(numbers: &BTreeMap<u32, u64>, key: u32) -> u64
    ensures { result ≡ number_in numbers.now.entries key }
{
    match numbers.get(&key) {
        Some(number) => *number,
        None => 0,
    }
}

/// Gives a key a number.
pub fn put(numbers: &mut BTreeMap<u32, u64>, key: u32, number: u64) -> Result<(), OutOfMemory>
    ensures { IfOk result (λ _. (k : ℕ) → number_in numbers.new.entries k
        ≡ (if key == k then number else number_in numbers.old.entries k)) }
{
    numbers.insert(key, number)?;
    Ok(())
}

/// Whether such a fact stands of each record.
pub fn each_by_earlier<F: ByEarlier>(
    alloc: Global,
    fact: &F,
    lines: &[Line],
    records: &[Record],
) -> Result<bool, OutOfMemory>
    requires { length records.now ≡ length lines.now }
    ensures { IfOk result (λ b. IsTrue b ↔ EachLine (map line_view lines.now) records.now
        (λ before earlier l r. F.stands fact.now earlier r)) }
{
    let mut numbers = BTreeMap::new(alloc);
    'lines: for i in 0..lines.len() {
        let rec = &records[i];
        let worker = worker_of(rec);
        let most = number_in(&numbers, worker);
        let stands = fact.decide(most, rec);
        if !stands {
            return Ok(false);
        }
        let number = fact.number(rec);
        put(&mut numbers, worker, most.max(number))?;
    }
    Ok(true)
}
