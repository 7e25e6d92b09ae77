// The numbers of the rules of one version.
ghost use Rattle.std.specs.Prelude.{◌≡◌, ◌<◌, ◌≤◌, ℕ, OnOk, OnErr, [], ◌==◌, if◌then◌else◌, get_or, length};
ghost use Rattle.rule_stats.specs.Statistics.{nothing};
ghost use Rattle.rule_stats.specs.Sums.{plus, IsBelow, AreBelow};
ghost use Rattle.rule_stats.specs.declared.tally.TheConstants.{MOST_NOTES};

use crate::numbers::RuleNumbers;
use rate_types::OutOfMemory;
use std::alloc::Global;
use std::marker::Model;

/// The numbers of the rules of a version, each at the place of its number. Contracts see the list.
#[derive(Drop)]
pub(crate) struct VersionNumbers {
    rules: Vec<RuleNumbers>,
}

impl Model for VersionNumbers {
    ghost use Rattle.std.specs.Prelude.{List};
    ghost use Rattle.rule_stats.specs.declared.numbers.RuleNumbers.{RuleNumbers as RuleNumbersValue};

    ghost Value = { List RuleNumbersValue };

    ghost view = { λ v. v.rules.items };
}

// Makes the list at least so long. The numbers there stay, and those that come count nothing.
#[tactic(auto, using(crate::proofs::Places::stays_nothing))]
fn reach_rule(rules: &mut Vec<RuleNumbers>, wanted: usize) -> Result<(), OutOfMemory>
    ensures same { (rule : ℕ) → get_or rules.new.items rule nothing ≡ get_or rules.old.items rule nothing }
    ensures there { OnOk result (wanted ≤ length rules.new.items) }
{
    'places: for _ in rules.len()..wanted {
        rules.push(RuleNumbers::nothing())?;
    }
    Ok(())
}

// Adds numbers to others, each to those at its place.
fn add_each(rules: &mut [RuleNumbers], others: &[RuleNumbers])
    requires these { AreBelow MOST_NOTES rules.old }
    requires others { AreBelow MOST_NOTES others.now }
    requires there { length others.now ≤ length rules.old }
    ensures sums { (r : ℕ) → get_or rules.new r nothing ≡ plus (get_or rules.old r nothing) (get_or others.now r nothing) }
{
    'places: for place in 0..others.len() {
        let sum = rules[place].plus(&others[place]);
        rules[place] = sum;
    }
}

impl VersionNumbers {
    /// Numbers of no rule.
    pub(crate) fn new(alloc: Global) -> VersionNumbers
        ensures { result ≡ [] }
    {
        VersionNumbers {
            rules: Vec::new(alloc),
        }
    }

    /// Adds numbers to those of a rule.
    pub(crate) fn add(&mut self, rule: u32, numbers: RuleNumbers) -> Result<(), OutOfMemory>
        requires these { AreBelow MOST_NOTES self.old }
        requires new { IsBelow 1 numbers }
        ensures sums { OnOk result ((r : ℕ) → get_or self.new r nothing
            ≡ plus (get_or self.old r nothing) (if rule == r then numbers else nothing)) }
        ensures kept { OnErr result ((r : ℕ) → get_or self.new r nothing ≡ get_or self.old r nothing) }
    {
        reach_rule(&mut self.rules, rule as usize + 1)?;
        let sum = self.rules[rule as usize].plus(&numbers);
        self.rules[rule as usize] = sum;
        Ok(())
    }

    /// Adds the numbers of the same version in another tally, each to those of its rule.
    pub(crate) fn merge(&mut self, other: &VersionNumbers) -> Result<(), OutOfMemory>
        requires these { AreBelow MOST_NOTES self.old }
        requires others { AreBelow MOST_NOTES other.now }
        ensures sums { OnOk result ((r : ℕ) → get_or self.new r nothing ≡ plus (get_or self.old r nothing) (get_or other.now r nothing)) }
    {
        reach_rule(&mut self.rules, other.rules.len())?;
        add_each(&mut self.rules, &other.rules);
        Ok(())
    }

    /// The numbers, each at the place of its rule.
    pub(crate) fn rules(&self) -> &[RuleNumbers]
        ensures { result.now ≡ self.now }
    {
        &self.rules
    }
}
