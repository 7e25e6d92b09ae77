// The counters of a call that have no claim.
ghost use Rattle.std.specs.Prelude.{◌≡◌, ℕ, ◌+◌, ◌≤◌, ◌<◌, [], nat_lt, length, take, vec_len, vec_capacity, IfOk, OnOk};
ghost use mathlib.Core.List.{IsPrefix};
ghost use lib.ListN.{get_elem?};
ghost use Rattle.counter_directory.specs.Keys.{key_at, keys_at, key_count, IsMissing};
ghost use Rattle.counter_directory.specs.Acquiring.{AddsMissing, IsUnclaimedAt};

use crate::claim_table::ClaimTable;
use crate::sought_name::SoughtName;
use counter_cells::CellNaming;
use rate_types::{CounterName, OutOfMemory};
use std::alloc::Global;

// Whether the name is among these.
fn contains(names: &[CounterName], name: &SoughtName<'_>) -> bool
    ensures { (m : ℕ) → result ≡ nat_lt 0 (key_count (key_at m name.now) (keys_at m names.now)) }
{
    for other in names {
        if SoughtName::of(other) == *name {
            return true;
        }
    }
    false
}

impl<N: CellNaming> ClaimTable<N> {
    // Adds the name where its counter has no claim and it isn't there yet.
    fn add_missing(
        &self,
        name: &SoughtName<'_>,
        missing: &mut Vec<CounterName>,
    ) -> Result<(), OutOfMemory>
        requires { vec_len missing.old < vec_capacity missing.old }
        ensures adds { OnOk result (AddsMissing self.now.pool.claims (key_at self.now.pool.last name.now)
            (keys_at self.now.pool.last missing.old.items) (keys_at self.now.pool.last missing.new.items)) }
        ensures behind { IsPrefix missing.old.items missing.new.items }
        ensures room { (vec_len missing.new ≤ vec_len missing.old + 1) × (vec_capacity missing.new ≡ vec_capacity missing.old) }
    {
        if self.find(name).is_some() {
            return Ok(());
        }
        if contains(missing.as_slice(), name) {
            return Ok(());
        }
        let own = name.copy()?;
        missing.push_reserved(own);
        Ok(())
    }

    /// The names of the counters without a claim, each once. The first of them stands at the place `first`.
    pub(crate) fn missing(
        &self,
        alloc: Global,
        names: &[SoughtName<'_>],
        first: usize,
    ) -> Result<Vec<CounterName>, OutOfMemory>
        requires first { IsUnclaimedAt first (keys_at self.now.pool.last names.now) self.now.pool.claims }
        requires before { IsMissing self.now.pool.claims (take first (keys_at self.now.pool.last names.now)) [] }
        ensures missing { IfOk result (λ v. IsMissing self.now.pool.claims (keys_at self.now.pool.last names.now)
            (keys_at self.now.pool.last v.items)) }
        ensures few { IfOk result (λ v. (1 ≤ vec_len v) × (vec_len v ≤ length names.now)) }
        ensures is_first { IfOk result (λ v. get_elem? v.items 0 ≡ get_elem? names.now first) }
    {
        let mut missing = Vec::with_capacity(alloc, names.len())?;
        let own = names[first].copy()?;
        missing.push_reserved(own);
        for place in first + 1..names.len() {
            self.add_missing(&names[place], &mut missing)?;
        }
        Ok(missing)
    }
}
