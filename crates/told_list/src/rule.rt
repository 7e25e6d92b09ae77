// The rule of the table, what each step tells, and how a view is split and joined.
use crate::kept::Kept;
use atomic_table::{Join, Play, Split, TableRule};
use std::collections::LinkedList;
use std::marker::{Brand, PhantomData};

/// The word that is the length of the list.
pub const LENGTH: usize = 0;

/// The word that says where the value is.
pub const LOCK: usize = 1;

/// The lock word while the value lies in the table.
pub const FREE: u64 = 0;

/// The lock word while one seat has the value.
pub const TAKEN: u64 = 1;

/// The lock word until the value is put in.
pub const AWAITED: u64 = 2;

/// The slot of the value.
pub const VALUE: usize = 0;

/// What the table is told when it is made: the kept value, and the number of tokens.
#[derive(Drop)]
pub struct Setup<K> {
    pub kept: K,
    pub tokens: u64,
}

/// What a seat knows. No value of it is made.
pub struct TokenView<T> {
    /// The list that it knows.
    pub known: LinkedList<T>,
    /// How many loads it has done.
    pub loads: u64,
    /// What the last load showed.
    pub shown: u64,
    /// How many turns it has had.
    pub turns: u64,
    /// The places of the items that it added.
    pub own: LinkedList<u64>,
    /// How many tokens it stands for.
    pub tokens: u64,
    /// Whether it has yet to put the value into the table.
    pub unfilled: bool,
    /// Whether it has the value.
    pub holds: bool,
    /// The lists that the joined tokens knew, in order.
    pub joined_lists: LinkedList<LinkedList<T>>,
}

/// The rule of the table.
pub struct ListRule;

impl<K: Kept> TableRule<Option<K>, TokenView<K::Item>, Setup<K>> for ListRule {
    ghost use Rattle.told_list.specs.Rule.{IsLawful, first_view};

    ghost holds = { λ o s. IsLawful K.items K.fixed K.MOST o s };

    ghost first = { λ o. first_view (K.items o.kept) o.tokens };
}

/// What a turn learns of the value that it finds, and where it finds that another turn goes on. The caller picks both.
pub trait TurnFacts<K> {
    ghost fact: { K → Type 0 };

    ghost busy: { Type 0 };
}

impl<K> TurnFacts<K> for Brand {
    ghost fact = { λ _. Unit {0} };

    ghost busy = { Unit {0} };
}

/// The items that a turn adds, which the caller picks.
pub trait Adding<T> {
    ghost use Rattle.std.specs.Prelude.{List};

    ghost items: { List T };
}

impl<T> Adding<T> for Brand {
    ghost use Rattle.std.specs.Prelude.{[]};

    ghost items = { [] };
}

/// A load of the length.
pub struct Loads<K>(PhantomData<K>);

impl<K: Kept> Play<Option<K>, TokenView<K::Item>> for Loads<K> {
    ghost use Rattle.std.specs.Prelude.{◌≡◌};
    ghost use Rattle.told_list.specs.Rule.{Loaded};

    ghost then = { λ s v n w. Loaded K.MOST v.0 n w.0 × (w.1 ≡ v.1) };
}

/// A seat that stands for no token.
pub struct Enters;

impl<K, T> Play<Option<K>, TokenView<T>> for Enters {
    ghost use Rattle.std.specs.Prelude.{◌≡◌, []};
    ghost use Rattle.told_list.specs.Rule.{empty_view};

    ghost then = { λ s v n w. w ≡ (empty_view, []) };
}

/// The first seat gets the slot of the value, which is empty yet.
pub struct TakesSlot;

impl<K, T> Play<Option<K>, TokenView<T>> for TakesSlot {
    ghost use Rattle.std.specs.Prelude.{◌≡◌, [], ◌∷◌};
    ghost use Rattle.std.specs.declared.option.Option.TheVariants.{None};
    ghost use Rattle.told_list.specs.Rule.{slot_taken};

    ghost then = { λ s v n w. w ≡ (slot_taken v.0, (0, None) ∷ []) };
}

/// A turn begins, where none goes on.
pub struct Begins<K, M>(PhantomData<(K, M)>);

impl<K: Kept, M: TurnFacts<K>> Play<Option<K>, TokenView<K::Item>> for Begins<K, M> {
    ghost use Rattle.told_list.specs.Rule.{Began};

    ghost then = { λ s v n w. Began K.items K.fixed M.fact M.busy v n w };
}

/// The length grows by the items that the turn added.
pub struct Adds<M>(PhantomData<M>);

impl<K, T, M: Adding<T>> Play<Option<K>, TokenView<T>> for Adds<M> {
    ghost use Rattle.std.specs.Prelude.{◌≡◌};
    ghost use Rattle.told_list.specs.Rule.{added};

    ghost then = { λ s v n w. w ≡ (added M.items v.0, v.1) };
}

/// A turn ends: the value goes back.
pub struct Ends;

impl<K, T> Play<Option<K>, TokenView<T>> for Ends {
    ghost use Rattle.std.specs.Prelude.{◌≡◌, []};
    ghost use Rattle.told_list.specs.Rule.{ended};

    ghost then = { λ s v n w. w ≡ (ended v.0, []) };
}

/// A token is split off, and at closing joined.
pub struct Tokens;

impl<T> Split<TokenView<T>> for Tokens {
    ghost use Rattle.told_list.specs.Rule.{one_less, one_token};

    ghost left = { one_less };

    ghost right = { one_token };
}

impl<T> Join<TokenView<T>> for Tokens {
    ghost use Rattle.told_list.specs.Rule.{joined, empty_view};

    ghost both = { joined };

    ghost spent = { empty_view };
}
