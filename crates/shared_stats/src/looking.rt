// The numbers of a rule, read from their words.
ghost use Rattle.std.specs.Prelude.{◌≡◌, ◌+◌, ◌*◌, ◌≤◌, ◌<◌, ℕ};
ghost use Rattle.shared_stats.specs.Rule.{added_to, greatest_at};
ghost use Rattle.shared_stats.specs.Words.{numbers_added, numbers_found};
ghost use Rattle.shared_stats.specs.Noted.{IsAtMost};
ghost use Rattle.shared_stats.specs.Adding.{IsOne};
ghost use Rattle.shared_stats.specs.Looking.{Looked};

use crate::adding::word_of;
use crate::rule::{Finds, SharedTable, TableSeat};
use rule_stats::RuleNumbers;

// Reads a word.
fn look(shared: &SharedTable, seat: &mut TableSeat, word: usize) -> u64
    requires here { IsOne shared.now.table_id shared.now.key seat.old.table_id seat.old.me.0 }
    requires within { word < shared.now.key.words }
    ensures least { added_to word seat.old.me.0.added ≤ result }
    ensures found { result ≤ greatest_at word seat.new.me.0.found }
    ensures rest { Looked seat.old.table_id seat.old.me seat.new.table_id seat.new.me }
{
    shared.load::<Finds>(seat, word)
}

/// Reads the numbers of a rule, one after the other.
pub(crate) fn look_at(shared: &SharedTable, seat: &mut TableSeat, rule: u32) -> RuleNumbers
    requires here { IsOne shared.now.table_id shared.now.key seat.old.table_id seat.old.me.0 }
    requires within { 6 * rule + 6 ≤ shared.now.key.words }
    ensures least { IsAtMost (numbers_added seat.old.me.0.added rule) result }
    ensures found { IsAtMost result (numbers_found seat.new.me.0.found rule) }
    ensures rest { Looked seat.old.table_id seat.old.me seat.new.table_id seat.new.me }
{
    let total = look(shared, seat, word_of(rule, 0));
    let within = look(shared, seat, word_of(rule, 1));
    let near = look(shared, seat, word_of(rule, 2));
    let over = look(shared, seat, word_of(rule, 3));
    let seen = look(shared, seat, word_of(rule, 4));
    let shadow = look(shared, seat, word_of(rule, 5));
    RuleNumbers {
        total,
        within,
        near,
        over,
        seen,
        shadow,
    }
}
