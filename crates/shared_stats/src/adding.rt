// Numbers added to the words of a rule.
ghost use Rattle.std.specs.Prelude.{◌≡◌, ◌+◌, ◌*◌, ◌≤◌, ◌<◌, ◌^◌, ◌==◌, ℕ, if◌then◌else◌};
ghost use Rattle.rule_stats.specs.Statistics.{nothing};
ghost use Rattle.rule_stats.specs.Sums.{plus};
ghost use Rattle.shared_stats.specs.Rule.{added_to};
ghost use Rattle.shared_stats.specs.Words.{word_of, number_at, numbers_added};
ghost use Rattle.shared_stats.specs.Adding.{IsBound, IsOne, Keeps};

use crate::rule::{Adds, SharedTable, TableSeat};
use rule_stats::RuleNumbers;

/// How many numbers a rule has.
const NUMBERS: usize = 6;

/// The word of a number of a rule.
pub(crate) fn word_of(rule: u32, place: usize) -> usize
    requires { place < 6 }
    ensures { result ≡ word_of rule place }
{
    NUMBERS * rule as usize + place
}

// The number at a place.
fn number_at(numbers: &RuleNumbers, place: usize) -> u64
    ensures { result ≡ number_at numbers.now place }
{
    match place {
        0 => numbers.total,
        1 => numbers.within,
        2 => numbers.near,
        3 => numbers.over,
        4 => numbers.seen,
        _ => numbers.shadow,
    }
}

// Adds an amount to a word: one addition, or none where it adds nothing.
fn add(shared: &SharedTable, seat: &mut TableSeat, word: usize, amount: u64)
    requires here { IsOne shared.now.table_id shared.now.key seat.old.table_id seat.old.me.0 }
    requires within { word < shared.now.key.words }
    requires room { added_to word seat.old.me.0.added + amount ≤ 2 ^ 57 }
    ensures added { (w : ℕ) → added_to w seat.new.me.0.added ≡ added_to w seat.old.me.0.added + (if word == w then amount else 0) }
    ensures rest { Keeps seat.old.table_id seat.old.me seat.new.table_id seat.new.me }
{
    if amount == 0 {
        return;
    }
    shared.fetch_add::<Adds>(seat, word, amount);
}

/// Adds numbers, none of which is greater than this, to those of a rule.
pub(crate) fn add_numbers(
    shared: &SharedTable,
    seat: &mut TableSeat,
    rule: u32,
    numbers: &RuleNumbers,
    most: u64,
)
    requires here { IsOne shared.now.table_id shared.now.key seat.old.table_id seat.old.me.0 }
    requires within { 6 * rule + 6 ≤ shared.now.key.words }
    requires bound { IsBound most numbers.now }
    requires room { (word : ℕ) → added_to word seat.old.me.0.added + most ≤ 2 ^ 57 }
    ensures added { (r : ℕ) → numbers_added seat.new.me.0.added r
        ≡ plus (numbers_added seat.old.me.0.added r) (if rule == r then numbers.now else nothing) }
    ensures most { (word : ℕ) → added_to word seat.new.me.0.added ≤ added_to word seat.old.me.0.added + most }
    ensures rest { Keeps seat.old.table_id seat.old.me seat.new.table_id seat.new.me }
{
    let _ = most;
    'numbers: for place in 0..NUMBERS {
        add(
            shared,
            seat,
            word_of(rule, place),
            number_at(numbers, place),
        );
    }
}
