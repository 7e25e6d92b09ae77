// The numbers of the rules of all versions.
ghost use Rattle.std.specs.Prelude.{◌≡◌, ◌≤◌, ℕ, OnOk, [], get_or, length};
ghost use Rattle.rule_stats.specs.Sums.{plus, numbers_at, AllBelow};

use crate::numbers::numbers_of;
use crate::texts::push_versions;
use crate::version_numbers::VersionNumbers;
use rate_types::OutOfMemory;
use rls_core::Status;
use std::alloc::Global;
use std::marker::Model;

/// The most statuses that a tally takes: 2^25. So no number is above 2^57.
pub const MOST_NOTES: u64 = 33_554_432;

// Makes the list of versions at least so long. Those that come have numbers of no rule.
#[tactic(auto, using(crate::proofs::Places::stays_empty))]
fn reach_version(
    alloc: Global,
    versions: &mut Vec<VersionNumbers>,
    wanted: usize,
) -> Result<(), OutOfMemory>
    ensures same { (version : ℕ) → get_or versions.new.items version [] ≡ get_or versions.old.items version [] }
    ensures there { OnOk result (wanted ≤ length versions.new.items) }
{
    'places: for _ in versions.len()..wanted {
        versions.push(VersionNumbers::new(alloc))?;
    }
    Ok(())
}

// Adds the numbers of other versions, each to those of the same version.
fn merge_versions(
    alloc: Global,
    versions: &mut Vec<VersionNumbers>,
    others: &[VersionNumbers],
) -> Result<(), OutOfMemory>
    requires these { AllBelow MOST_NOTES versions.old.items }
    requires others { AllBelow MOST_NOTES others.now }
    ensures sums { OnOk result ((version rule : ℕ) → numbers_at versions.new.items version rule
        ≡ plus (numbers_at versions.old.items version rule) (numbers_at others.now version rule)) }
{
    reach_version(alloc, versions, others.len())?;
    'places: for place in 0..others.len() {
        versions[place].merge(&others[place])?;
    }
    Ok(())
}

/// The numbers of the rules of all versions, added up from statuses by one thread. Contracts see a list of the numbers of each version's
/// rules, and how many statuses were added.
#[derive(Drop)]
pub struct Tally {
    alloc: Global,
    versions: Vec<VersionNumbers>,
    notes: u64,
}

impl Model for Tally {
    ghost use Rattle.std.specs.Prelude.{◌≤◌};
    ghost use Rattle.rule_stats.specs.declared.tally.TheConstants.{MOST_NOTES};
    ghost use Rattle.rule_stats.specs.Sums.{TallyView, AllBelow};

    ghost Value = { TallyView };

    ghost view = { λ t. record { versions = t.versions.items; notes = t.notes } };

    ghost invariant = { λ t. (t.notes ≤ MOST_NOTES) × AllBelow t.notes t.versions.items };
}

impl Tally {
    ghost use Rattle.std.specs.Prelude.{◌≡◌, ◌+◌, ◌<◌, ℕ, List, IfOk, OnOk, OnErr, [], ◌∷◌, ◌++◌, map, string_bytes};
    ghost use Rattle.rule_stats.specs.declared.tally.TheConstants.{MOST_NOTES};
    ghost use Rattle.rule_stats.specs.Statistics.{Note};
    ghost use Rattle.rule_stats.specs.Sums.{AreSums, numbers_at};
    ghost use Rattle.rule_stats.specs.Lines.{texts_of};

    /// Numbers that count nothing.
    pub fn new(alloc: Global) -> Tally
        ensures { result ≡ record { versions = []; notes = 0 } }
    {
        Tally {
            alloc,
            versions: Vec::new(alloc),
            notes: 0,
        }
    }

    /// Adds a status that was answered by a version, with the hits of its descriptor, to the numbers of its rule. Want of memory adds nothing.
    pub fn add(&mut self, version: u32, hits: u32, status: &Status) -> Result<(), OutOfMemory>
        requires room { self.old.notes < MOST_NOTES }
        ensures sums { OnOk result ((notes : List Note) → AreSums notes self.old.versions
            → AreSums (notes ++ record { version = version; hits = hits; status = status.now } ∷ []) self.new.versions) }
        ensures notes { OnOk result (self.new.notes ≡ self.old.notes + 1) }
        ensures same { OnErr result ((version rule : ℕ)
            → numbers_at self.new.versions version rule ≡ numbers_at self.old.versions version rule) }
        ensures kept { OnErr result (self.new.notes ≡ self.old.notes) }
    {
        let Some(rule) = status.rule else {
            self.notes += 1;
            return Ok(());
        };
        let numbers = numbers_of(status, hits);
        reach_version(self.alloc, &mut self.versions, version as usize + 1)?;
        self.versions[version as usize].add(rule.0, numbers)?;
        self.notes += 1;
        Ok(())
    }

    /// The numbers of both tallies: those of the statuses that were added to this one, and of those that were added to the other.
    pub fn merge(self, other: &Tally) -> Result<Tally, OutOfMemory>
        requires room { self.notes + other.now.notes ≤ MOST_NOTES }
        ensures sums { IfOk result (λ t. (mine others : List Note) → AreSums mine self.versions → AreSums others other.now.versions
            → AreSums (mine ++ others) t.versions) }
        ensures notes { IfOk result (λ t. t.notes ≡ self.notes + other.now.notes) }
    {
        let Tally {
            alloc,
            mut versions,
            notes,
        } = self;
        merge_versions(alloc, &mut versions, &other.versions)?;
        Ok(Tally {
            alloc,
            versions,
            notes: notes + other.notes,
        })
    }

    /// The texts of the rules that counted anything, by version and then by rule, without line feeds.
    pub fn texts(&self) -> Result<Vec<String>, OutOfMemory>
        ensures { IfOk result (λ texts. map (λ t. string_bytes t) texts.items ≡ texts_of self.now.versions) }
    {
        let mut texts = Vec::new(self.alloc);
        push_versions(self.alloc, &mut texts, &self.versions)?;
        Ok(texts)
    }
}
