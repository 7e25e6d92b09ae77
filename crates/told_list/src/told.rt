ghost use Rattle.std.specs.Prelude.{◌≡◌, ◌≤◌, ◌<◌, ◌+◌, ℕ, List, [], ◌++◌, length, false, All, IfOk, MatchOption, vec_len};
ghost use Rattle.rate_types.specs.declared.limits.TheConstants.{MOST_PASSES};

use crate::act::Act;
use crate::into_seen::IntoSeen;
use crate::kept::Kept;
use crate::queue::wait;
use crate::rule::{AWAITED, LENGTH, ListRule, Loads, Setup, TokenView};
use crate::seen::Seen;
use crate::tokens::{join_tokens, put_in, split_tokens, take_last};
use crate::turn::{add_kept, end, take};
use atomic_table::Table;
use rate_types::OutOfMemory;
use std::alloc::Global;
use std::sync::{Mutex, Wait};

/// A list that only grows, behind a lock.
///
/// The kept value lies in a slot of the table beside the word that is the list's length, so one rule ties the value,
/// the word and all tokens to one another, and no type says which list it is. Threads wait for their turn at `queue`,
/// a lock that carries nothing. Whoever has it finds the slot free.
#[derive(Drop)]
pub struct Told<K: Kept + Drop> {
    table: Table<Option<K>, TokenView<K::Item>, Setup<K>, ListRule, Global>,
    queue: Mutex<()>,
    ghost words: { table.shared.table_id.words ≡ 2 },
    ghost slots: { table.shared.table_id.slots ≡ 1 },
    ghost tokens: { 1 ≤ table.shared.key.tokens },
}

impl<K: Kept + Drop> Told<K> {
    ghost use mathlib.Core.List.{IsPrefix};
    ghost use Rattle.rate_types.specs.Sums.{total, times};
    ghost use Rattle.told_list.specs.Lists.{IsOwnedOnce};
    ghost use Rattle.told_list.specs.Tokens.{list_id, first_value, tokens, list_of, view, known, IsFresh, HasLoaded, HasTurned};

    /// A list that begins with the items of `kept`, and so many tokens, 1 to 1,024, each of which knows these items.
    pub fn make(
        alloc: Global,
        kept: K,
        seats: u32,
    ) -> Result<(Told<K>, Vec<Seen<K, K::Item>>), OutOfMemory>
        requires seats { (1 ≤ seats) × (seats ≤ MOST_PASSES) }
        ensures told { IfOk result (λ r. (first_value r.0 ≡ kept) × (tokens r.0 ≡ seats)) }
        ensures count { IfOk result (λ r. vec_len r.1 ≡ seats) }
        ensures tokens { IfOk result (λ r. All (λ s. (list_of s ≡ list_id r.0) × IsFresh (K.items kept) (view s)) r.1.items) }
    {
        let len = kept.len();
        let setup = Setup {
            kept,
            tokens: seats as u64,
        };
        let (table, mut seat) = Table::vacant(alloc, &[len, AWAITED], 1, &setup)?;
        let Setup { kept, tokens: _ } = setup;
        let shared = &table.shared;
        put_in(shared, &mut seat, kept);
        let tokens = split_tokens(alloc, shared, seat, seats, len)?;
        let told = Told {
            table,
            queue: Mutex::new(()),
        };
        Ok((told, tokens))
    }

    /// The length of the list, exactly where it is greater than the one that the token knows. It is one load, and waits
    /// for nobody. What the token knows stays.
    pub fn behind(&self, seen: &mut Seen<K, K::Item>) -> Option<u64>
        requires seen { list_of seen.old ≡ list_id self.now }
        ensures answer { MatchOption result ((view seen.new).shown ≡ length (known seen.old))
            (λ n. (n ≡ (view seen.new).shown) × (length (known seen.old) < n)) }
        ensures loaded { HasLoaded K.MOST (view seen.old) (view seen.new) }
        ensures seen { list_of seen.new ≡ list_of seen.old }
    {
        let found = self.table.shared.load::<Loads<K>>(&mut seen.seat, LENGTH);
        if found > seen.len { Some(found) } else { None }
    }

    /// One turn at the lock, in which `act` is lent the kept value. The answer is the act's. The token then knows the
    /// list that the act left, and the places of what the act added are its own. It may wait for other turns.
    pub fn with<A: Act<K>, R: Wait>(
        &self,
        rt: &R,
        seen: &mut Seen<K, K::Item>,
        act: &mut A,
    ) -> A::Out
        requires seen { list_of seen.old ≡ list_id self.now }
        requires ready { (found : K) → K.fixed found ≡ K.fixed (first_value self.now) → A.ready act.old found }
        ensures turn { (found : K) × (left : K) × A.did act.old found result act.new left
            × HasTurned (K.items found) (K.items left) (view seen.old) (view seen.new) × (K.fixed found ≡ K.fixed (first_value self.now))
            × (K.fixed left ≡ K.fixed (first_value self.now)) }
        ensures seen { list_of seen.new ≡ list_of seen.old }
    {
        let _turn = wait(rt, &self.queue);
        let shared = &self.table.shared;
        let mut kept = take(rt, shared, &mut seen.seat);
        let before = kept.len();
        let out = act.act(&mut kept);
        add_kept(shared, &mut seen.seat, &kept, before);
        seen.len = kept.len();
        end(shared, &mut seen.seat, kept);
        out
    }

    /// The kept value, for which all tokens are given back, each alone or in a type around it. What each of them knows is
    /// a prefix of the value's list, and each place past the first list is the own place of exactly one of them. It waits
    /// for nobody.
    pub fn close<P: IntoSeen<K> + Drop>(self, passes: Vec<P>) -> K
        requires passes { All (λ p. P.list p ≡ list_id self) passes.items }
        requires every { vec_len passes ≡ tokens self }
        ensures prefixes { All (λ p. IsPrefix (P.known p) (K.items result)) passes.items }
        ensures owned { (n : ℕ) → IsOwnedOnce (length (K.items (first_value self))) (length (K.items result)) n
            (total (λ p. times n (P.own p)) passes.items) }
        ensures fixed { K.fixed result ≡ K.fixed (first_value self) }
    {
        let Told { table, queue: _ } = self;
        let shared = &table.shared;
        let mut all = join_tokens(shared, passes);
        take_last(shared, &mut all)
    }
}
