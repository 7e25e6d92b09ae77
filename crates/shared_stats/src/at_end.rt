// The numbers of all rules, once no pass adds any more.
ghost use Rattle.std.specs.Prelude.{◌≡◌, ◌≤◌, ◌<◌, ◌+◌, ◌*◌, ℕ, IfOk, get_or, length};
ghost use Rattle.std.specs.Mem.Slots.{slots_items, slots_len, IsFull};
ghost use Rattle.rule_stats.specs.Statistics.{nothing};
ghost use Rattle.shared_stats.specs.Words.{numbers_in};

use crate::adding::word_of;
use atomic_table::Closed;
use rate_types::OutOfMemory;
use rule_stats::RuleNumbers;
use std::alloc::Global;

// The numbers of a rule.
fn rule_numbers(closed: &Closed<u8, Global>, rule: u32) -> RuleNumbers
    requires words { (6 * rule + 6 ≤ slots_len closed.now.words) × IsFull closed.now.words }
    ensures { result ≡ numbers_in (slots_items closed.now.words) rule }
{
    RuleNumbers {
        total: closed.word(word_of(rule, 0)),
        within: closed.word(word_of(rule, 1)),
        near: closed.word(word_of(rule, 2)),
        over: closed.word(word_of(rule, 3)),
        seen: closed.word(word_of(rule, 4)),
        shadow: closed.word(word_of(rule, 5)),
    }
}

/// The numbers of all rules, each at the place of its rule.
pub(crate) fn closed_numbers(
    alloc: Global,
    closed: &Closed<u8, Global>,
    rules: u32,
) -> Result<Vec<RuleNumbers>, OutOfMemory>
    requires words { (slots_len closed.now.words ≡ 6 * rules) × IsFull closed.now.words }
    ensures count { IfOk result (λ v. length v.items ≡ rules) }
    ensures numbers { IfOk result (λ v. (rule : ℕ) → rule < rules
        → get_or v.items rule nothing ≡ numbers_in (slots_items closed.now.words) rule) }
{
    let mut numbers = Vec::with_capacity(alloc, rules as usize)?;
    'rules: for rule in 0..rules {
        numbers.push_reserved(rule_numbers(closed, rule));
    }
    Ok(numbers)
}
