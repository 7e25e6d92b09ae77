ghost use Rattle.std.specs.Prelude.{◌≡◌, ◌≤◌, ◌<◌, ◌*◌, ◌^◌, ℕ, List, [], ◌∷◌, ◌++◌, All, IfOk, vec_len, get_or, length, string_bytes};
ghost use Rattle.std.specs.List.{flat_map};

use crate::adding::add_numbers;
use crate::at_end::closed_numbers;
use crate::looking::look_at;
use crate::pass::{MOST_NOTED_HITS, StatsPass};
use crate::passes::{join_passes, split_passes};
use crate::rule::{AdderView, Setup, StatsRule};
use crate::text::put_counted;
use atomic_table::Table;
use rate_types::OutOfMemory;
use rls_core::Status;
use rule_stats::{RuleNumbers, numbers_of};
use std::alloc::Global;

/// The numbers of the rules of a configuration, to which many threads add.
#[derive(Drop)]
pub struct SharedStats {
    table: Table<u8, AdderView, Setup, StatsRule, Global>,
    rules: u32,
    ghost words: { (table.shared.table_id.words ≡ 6 * rules) × (table.shared.table_id.slots ≡ 0) },
    ghost setup: { table.shared.key.words ≡ 6 * rules },
    ghost some: { 1 ≤ rules },
}

impl SharedStats {
    ghost use Rattle.rate_types.specs.declared.limits.TheConstants.{MOST_NODES, MOST_WORKERS};
    ghost use Rattle.rule_stats.specs.declared.numbers.RuleNumbers.{RuleNumbers};
    ghost use Rattle.rule_stats.specs.Statistics.{nothing};
    ghost use Rattle.rule_stats.specs.Sums.{sums};
    ghost use Rattle.shared_stats.specs.declared.pass.TheConstants.{MOST_NOTED_HITS};
    ghost use Rattle.shared_stats.specs.Noted.{IsAtMost, hits_in};
    ghost use Rattle.shared_stats.specs.Reading.{IsReading};
    ghost use Rattle.shared_stats.specs.Text.{stats_text};
    ghost use Rattle.shared_stats.specs.Passes.{stats_id, rules_of, passes_of, stats_of, noted_of, notes_of, reads_of, IsFresh};

    /// The numbers of so many rules, 1 to 65,536, which count nothing, and so many passes, 1 to 64.
    pub fn make(
        alloc: Global,
        rules: u32,
        passes: u32,
    ) -> Result<(SharedStats, Vec<StatsPass>), OutOfMemory>
        requires rules { (1 ≤ rules) × (rules ≤ MOST_NODES) }
        requires passes { (1 ≤ passes) × (passes ≤ MOST_WORKERS) }
        ensures stats { IfOk result (λ r. (rules_of r.0 ≡ rules) × (passes_of r.0 ≡ passes)) }
        ensures count { IfOk result (λ r. vec_len r.1 ≡ passes) }
        ensures fresh { IfOk result (λ r. All (λ p. (stats_of p ≡ stats_id r.0) × IsFresh p) r.1.items) }
    {
        let words = vec![in alloc; 0u64; 6 * rules as usize]?;
        let setup = Setup {
            words: words.len() as u64,
            passes: u64::from(passes),
        };
        let (table, seat) = Table::of_words(alloc, words.as_slice(), &setup)?;
        let made = split_passes(alloc, &table.shared, seat, rules, passes)?;
        Ok((SharedStats { table, rules }, made))
    }

    /// Notes a status with the hits of its descriptor: one addition for each number that it adds to. It takes no memory and waits for nobody.
    pub fn note(&self, pass: &mut StatsPass, hits: u32, status: &Status)
        requires pass { stats_of pass.old ≡ stats_id self.now }
        ensures noted { noted_of pass.new ≡ noted_of pass.old ++ (hits, status.now) ∷ [] }
        ensures reads { reads_of pass.new ≡ reads_of pass.old }
        ensures pass { stats_of pass.new ≡ stats_of pass.old }
    {
        pass.notes = pass.notes.and(&hits, status);
        let Some(rule) = status.rule else {
            return;
        };
        let more = u64::from(hits);
        if rule.0 >= self.rules || more > MOST_NOTED_HITS - pass.hits {
            return;
        }
        let numbers = numbers_of(status, hits);
        add_numbers(&self.table.shared, &mut pass.seat, rule.0, &numbers, more);
        pass.hits += more;
    }

    /// The numbers of a rule, read one after the other: each has at least what this pass noted. It takes no memory and waits for nobody.
    pub fn numbers(&self, pass: &mut StatsPass, rule: u32) -> RuleNumbers
        requires pass { stats_of pass.old ≡ stats_id self.now }
        requires rule { rule < rules_of self.now }
        ensures least { hits_in (notes_of pass.old) ≤ MOST_NOTED_HITS → IsAtMost (sums 0 rule (notes_of pass.old)) result }
        ensures reads { reads_of pass.new ≡ reads_of pass.old ++ (rule, result) ∷ [] }
        ensures noted { noted_of pass.new ≡ noted_of pass.old }
        ensures pass { stats_of pass.new ≡ stats_of pass.old }
    {
        let numbers = look_at(&self.table.shared, &mut pass.seat, rule);
        pass.reads = pass.reads.and(&rule, &numbers);
        numbers
    }

    /// The text of the numbers of all rules that counted anything, in the order of the rules: `{"rules":[..]}`. Each number is read once, as in
    /// [`SharedStats::numbers`], and has at least what this pass noted; they aren't of one moment.
    pub fn text(&self, alloc: Global, pass: &mut StatsPass) -> Result<String, OutOfMemory>
        requires pass { stats_of pass.old ≡ stats_id self.now }
        ensures text { IfOk result (λ t. (found : List RuleNumbers)
            × IsReading (rules_of self.now) (notes_of pass.old) (reads_of pass.old) (reads_of pass.new) found
            × (string_bytes t ≡ stats_text found)) }
        ensures grows { (more : List (ℕ × RuleNumbers)) × (reads_of pass.new ≡ reads_of pass.old ++ more) }
        ensures noted { noted_of pass.new ≡ noted_of pass.old }
        ensures pass { stats_of pass.new ≡ stats_of pass.old }
    {
        let mut out = String::new(alloc);
        out.push_str("{\"rules\":[")?;
        let mut later = false;
        'rules: for rule in 0..self.rules {
            let numbers = self.numbers(pass, rule);
            later = put_counted(&mut out, later, rule, &numbers)?;
        }
        out.push_str("]}")?;
        Ok(out)
    }

    /// The numbers of all rules, each at the place of its rule, for which all passes are given back: the sums of what all their notes add,
    /// as long as no pass noted more hits than it adds. What a pass read before is at most what there is now.
    pub fn close(
        self,
        alloc: Global,
        passes: Vec<StatsPass>,
    ) -> Result<Vec<RuleNumbers>, OutOfMemory>
        requires passes { All (λ p. stats_of p ≡ stats_id self) passes.items }
        requires every { vec_len passes ≡ passes_of self }
        ensures count { IfOk result (λ v. length v.items ≡ rules_of self) }
        ensures sums { IfOk result (λ v. All (λ p. hits_in (notes_of p) ≤ MOST_NOTED_HITS) passes.items
            → (rule : ℕ) → rule < rules_of self → get_or v.items rule nothing ≡ sums 0 rule (flat_map notes_of passes.items)) }
        ensures reads { IfOk result
            (λ v. All (λ p. All (λ t. IsAtMost t.1 (get_or v.items t.0 nothing)) (reads_of p)) passes.items) }
    {
        let SharedStats { table, rules } = self;
        let all = join_passes(&table.shared, passes);
        let closed = table.close_with(all);
        let numbers = closed_numbers(alloc, &closed, rules);
        closed.free();
        numbers
    }
}
