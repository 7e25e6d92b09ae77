// What workers know of counters.
ghost use Rattle.std.proofs.Common.{rules};
ghost use Rattle.std.specs.Prelude.{◌≡◌, ℕ, ◌≤◌, ◌∷◌, [], IfOk, if◌then◌else◌};
ghost use Rattle.std.specs.Cmp.{partial_order_from_own_ties};
ghost use Rattle.std.specs.Cmp.Rules.{comparing};
ghost use Rattle.std.specs.Ordering.{as_partial_cmp, is_eq, nat_cmp, on, then_cmp};
ghost use Rattle.rate_types.specs.Counters.{key_cmp};
ghost use Rattle.rate_types.specs.contracts.counter_key.CounterKeyOrd.TheImpl.Laws.{matches_eq-law as counter_ties};
ghost use Rattle.rate_types.specs.declared.counter_key.CounterKey.{CounterKey};
ghost use Rattle.script_run.specs.Values.{KnownAtMost};
ghost use Rattle.run_audit.specs.Known.{Learns, known_cmp, same_known, value_in};

use rate_types::{CounterKey, OutOfMemory};
use std::alloc::Global;
use std::cmp::Ordering;
use std::collections::BTreeMap;

/// A counter that a worker knows. They are ordered by their workers and by the starts of their windows, since a worker's windows come one
/// after the other, then by their counters.
#[derive(Drop)]
pub struct KnownCounter {
    pub worker: u32,
    pub counter: CounterKey,
}

// Compares the names of counters only where they have the same start.
fn by_start(one: &CounterKey, other: &CounterKey) -> Ordering
    ensures { result ≡ then_cmp (on (λ k. k.start) nat_cmp) key_cmp one.now other.now }
{
    match one.start.cmp(&other.start) {
        Ordering::Less => Ordering::Less,
        Ordering::Equal => one.cmp(other),
        Ordering::Greater => Ordering::Greater,
    }
}

impl PartialEq for KnownCounter {
    ghost eq = { same_known };

    ghost laws = { Prim.search (comparing, rules) depth 20 };

    fn eq(&self, other: &KnownCounter) -> bool {
        self.worker == other.worker
            && (self.counter.start == other.counter.start && self.counter == other.counter)
    }
}

impl Eq for KnownCounter {
    ghost laws = { Prim.search (comparing, rules) depth 20 };
}

impl Ord for KnownCounter {
    ghost cmp = { known_cmp };

    ghost total = { Prim.search (comparing, rules) depth 20 };

    ghost matches_partial_cmp = { Prim.search (comparing, rules) depth 20 };

    ghost matches_eq = { Prim.search (comparing, counter_ties, rules) depth 20 };

    fn cmp(&self, other: &KnownCounter) -> Ordering {
        match self.worker.cmp(&other.worker) {
            Ordering::Less => Ordering::Less,
            Ordering::Equal => by_start(&self.counter, &other.counter),
            Ordering::Greater => Ordering::Greater,
        }
    }
}

impl PartialOrd for KnownCounter {
    ghost partial_cmp = { as_partial_cmp known_cmp };

    ghost laws = { partial_order_from_own_ties
        (Prim.search (comparing, counter_ties, rules) depth 20)
        (Prim.search (comparing, counter_ties, rules) depth 20) };

    fn partial_cmp(&self, other: &KnownCounter) -> Option<Ordering> {
        Some(self.cmp(other))
    }
}

/// The greatest value that each worker knows of each counter.
pub type KnownValues = BTreeMap<KnownCounter, u128>;

fn known_of(values: &KnownValues, key: &KnownCounter) -> u128
    ensures { result ≡ value_in values.now.entries key.now.worker key.now.counter }
{
    match values.get(key) {
        Some(value) => *value,
        None => 0,
    }
}

fn put(values: &mut KnownValues, key: KnownCounter, value: u128) -> Result<(), OutOfMemory>
    ensures { IfOk result (λ _. (w : ℕ) (c : CounterKey) → value_in values.new.entries w c
        ≡ (if is_eq (known_cmp key (record { worker = w; counter = c })) then value else value_in values.old.entries w c)) }
{
    values.insert(key, value)?;
    Ok(())
}

/// Whether a worker knows at most so much of a counter. Where it does, it then knows this value of it, which is at least as much.
pub fn learn(
    values: &mut KnownValues,
    key: KnownCounter,
    most: u128,
    value: u128,
) -> Result<bool, OutOfMemory>
    requires { most ≤ value }
    ensures { IfOk result (λ b. Learns values.old.entries values.new.entries key.worker b
        (λ known. KnownAtMost known key.counter most) (record { counter = key.counter; seen = value } ∷ [])) }
{
    if known_of(values, &key) > most {
        return Ok(false);
    }
    put(values, key, value)?;
    Ok(true)
}
