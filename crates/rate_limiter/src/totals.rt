// The totals of open windows, from the counts of the cells.
ghost use Rattle.std.specs.Prelude.{◌≡◌, ◌<◌, ◌≤◌, ◌++◌, ◌∷◌, ℕ, [], length, All, IfOk, OnOk};
ghost use Rattle.rate_types.specs.declared.counter_key.CounterKey.{CounterKey};
ghost use Rattle.counter_directory.specs.Open.{open_claims_of};
ghost use Rattle.rls_core.specs.Totals.{AreTotals};
ghost use Rattle.rate_limiter.specs.Summed.{CountCharged, HaveClaims, open_totals};

use counter_directory::OpenClaim;
use rate_types::{OutOfMemory, Seconds};
use rls_core::{Total, Totals, in_key_order};
use std::alloc::Global;
use window_keys::end_of;

// Adds what the cell of a claim counts, where that isn't 0 and the window of the claim's counter is open at the moment.
fn add_count(
    totals: &mut Vec<Total>,
    claim: OpenClaim,
    counts: &[u64],
    moment: Seconds,
) -> Result<(), OutOfMemory>
    requires cell { claim.spot.cell < length counts.now }
    ensures { OnOk result (totals.new.items ≡ totals.old.items ++ open_totals moment counts.now (claim ∷ [])) }
{
    let OpenClaim { key, spot } = claim;
    let charged = counts[spot.cell as usize];
    if charged == 0 || end_of(&key) <= moment.get() {
        return Ok(());
    }
    totals.push(Total { key, charged })?;
    Ok(())
}

/// The totals of the windows that are open at the moment, by the counts of the cells of all claims that may be open then.
/// Their counters are moved.
pub(crate) fn totals_of(
    alloc: Global,
    claims: Vec<OpenClaim>,
    counts: &[u64],
    moment: Seconds,
) -> Result<Totals, OutOfMemory>
    requires cells { All (λ x. x.spot.cell < length counts.now) claims.items }
    requires once { (q : CounterKey) → open_claims_of q claims.items ≤ 1 }
    ensures { IfOk result (λ ts. (charged : CounterKey → ℕ) → CountCharged charged moment counts.now claims.items
        → HaveClaims charged moment claims.items → AreTotals charged moment ts) }
{
    let mut totals = Vec::with_capacity(alloc, claims.len())?;
    for claim in claims {
        add_count(&mut totals, claim, counts, moment)?;
    }
    Ok(in_key_order(totals))
}
