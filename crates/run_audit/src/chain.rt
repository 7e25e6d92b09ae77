// Charges in order, each with what is due after the one before it.
ghost use Rattle.std.specs.Prelude.{◌≡◌, ◌↔◌, ◌==◌, IsTrue};
ghost use Rattle.std.specs.List.Sorted.{IsPermutation, IsSorted};
ghost use Rattle.rate_types.specs.Counters.{same_counter};
ghost use Rattle.run_audit.specs.Chain.{IsChain, charge_cmp, due_after, follow, is_chain};

use crate::ShownCharge;

fn due_after(last: &ShownCharge, next: &ShownCharge) -> u128
    ensures { result ≡ due_after same_counter last.now next.now }
{
    if last.counter() == next.counter() {
        last.after()
    } else {
        0
    }
}

fn follows(last: &ShownCharge, next: &ShownCharge) -> bool
    ensures { result ≡ (next.now.before == due_after same_counter last.now next.now) }
{
    u128::from(next.before()) == due_after(last, next)
}

fn follow(charges: &[ShownCharge]) -> bool
    ensures { result ≡ follow same_counter charges.now }
{
    'charges: for i in 1..charges.len() {
        if !follows(&charges[i - 1], &charges[i]) {
            return false;
        }
    }
    true
}

/// Whether the first has nothing before it, and each other what is due after the one before it.
pub fn is_chain(charges: &[ShownCharge]) -> bool
    ensures { result ≡ is_chain same_counter charges.now }
{
    match charges.first() {
        Some(first) => first.before() == 0 && follow(charges),
        None => true,
    }
}

/// The same charges in their order.
pub fn sorted(charges: Vec<ShownCharge>) -> Vec<ShownCharge>
    ensures same { IsPermutation charges.items result.items }
    ensures sorted { IsSorted charge_cmp result.items }
{
    let mut charges = charges;
    charges.sort_unstable();
    charges
}

/// Whether before each charge stand exactly the hits of the charges with less before them, and no two that have hits have the same
/// before them.
pub fn are_chain(charges: Vec<ShownCharge>) -> bool
    ensures { IsTrue result ↔ IsChain same_counter charges.items }
{
    let charges = sorted(charges);
    let chain = is_chain(&charges);
    chain
}
