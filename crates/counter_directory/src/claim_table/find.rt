// Where the counters of a call are found.
ghost use Rattle.std.specs.Prelude.{◌≡◌, ◌≤◌, ℕ, length, true, false, IfSome, IfNone};
ghost use Rattle.rate_types.specs.declared.limits.TheConstants.{MOST_PINS};
ghost use Rattle.rate_types.specs.declared.counter_key.CounterKey.{CounterKey};
ghost use Rattle.counter_directory.specs.Claims.{claims_of, bindings_of};
ghost use Rattle.counter_directory.specs.Keys.{key_at, keys_at, key_count};
ghost use Rattle.counter_directory.specs.Acquiring.{AreFirstBound, IsUnclaimedAt};

use crate::claim_table::ClaimTable;
use crate::sought_name::SoughtName;
use arrayvec::ArrayVec;
use counter_cells::{CellNaming, Spot};

impl<N: CellNaming> ClaimTable<N> {
    /// Where a claim binds the counter of the name, in the window of the last moment. None exactly where it has no claim.
    pub(crate) fn find(&self, name: &SoughtName<'_>) -> Option<Spot>
        ensures bound { IfSome result (λ s. 1 ≤ bindings_of (key_at self.now.pool.last name.now) s.cell s.claim self.now.pool.claims) }
        ensures none { IfNone result (claims_of (key_at self.now.pool.last name.now) self.now.pool.claims ≡ 0) }
    {
        let unit = usize::from(name.unit().rank());
        self.index[unit].spots.get(name).copied()
    }

    /// Adds where claims bind the counters of the names, in order, from the first name on that has no spot yet. False where one
    /// of them has no claim: it is then the first name without a spot.
    pub(crate) fn find_rest(&self, names: &[SoughtName<'_>], spots: &mut ArrayVec<Spot, 32>) -> bool
        requires names { length names.now ≤ MOST_PINS }
        requires bound { AreFirstBound self.now.pool.claims (keys_at self.now.pool.last names.now) spots.old.items }
        ensures bound { AreFirstBound self.now.pool.claims (keys_at self.now.pool.last names.now) spots.new.items }
        ensures all { result ≡ true → length spots.new.items ≡ length names.now }
        ensures missing { result ≡ false
            → IsUnclaimedAt (length spots.new.items) (keys_at self.now.pool.last names.now) self.now.pool.claims }
        ensures found { ((q : CounterKey) → 1 ≤ key_count q (keys_at self.now.pool.last names.now) → 1 ≤ claims_of q self.now.pool.claims)
            → result ≡ true }
    {
        for place in spots.len()..names.len() {
            let Some(spot) = self.find(&names[place]) else {
                return false;
            };
            spots.push(spot);
        }
        true
    }
}
