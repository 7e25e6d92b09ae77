// The rule of the table, what each step tells, and how a view is split and joined.
use atomic_table::{Join, Play, Seat, Shared, Split, TableRule};
use std::collections::LinkedList;

/// What the table is told when it is made.
#[derive(Drop)]
pub struct Setup {
    /// How many words there are.
    pub words: u64,
    /// How many passes there are.
    pub passes: u64,
}

/// An amount that was added to a word, or found there.
pub struct Amount {
    pub word: u64,
    pub amount: u64,
}

/// What a seat knows. No value of it is made.
pub struct AdderView {
    /// What it added, in order.
    pub added: LinkedList<Amount>,
    /// What it found, in order.
    pub found: LinkedList<Amount>,
    /// How many passes it stands for.
    pub passes: u64,
}

/// The rule of the table.
pub struct StatsRule;

impl TableRule<u8, AdderView, Setup> for StatsRule {
    ghost use Rattle.shared_stats.specs.Rule.{IsLawful, idle_view};

    ghost holds = { IsLawful };

    ghost first = { λ o. idle_view o.passes };
}

pub(crate) type SharedTable = Shared<u8, AdderView, Setup, StatsRule>;

pub(crate) type TableSeat = Seat<u8, AdderView>;

/// An amount is added to a word.
pub struct Adds;

impl Play<u8, AdderView> for Adds {
    ghost use Rattle.std.specs.Prelude.{◌≡◌};
    ghost use Rattle.shared_stats.specs.Rule.{adding};

    ghost then = { λ s v n w. w ≡ (adding s.word s.first v.0, v.1) };
}

/// A word is read: it has at least what the seat added.
pub struct Finds;

impl Play<u8, AdderView> for Finds {
    ghost use Rattle.std.specs.Prelude.{◌≡◌, ◌≤◌};
    ghost use Rattle.shared_stats.specs.Rule.{finding, added_to};

    ghost then = { λ s v n w. (w ≡ (finding s.word n v.0, v.1)) × (added_to s.word v.0.added ≤ n) };
}

/// A seat that stands for no pass.
pub struct Enters;

impl Play<u8, AdderView> for Enters {
    ghost use Rattle.std.specs.Prelude.{◌≡◌, []};
    ghost use Rattle.shared_stats.specs.Rule.{idle_view};

    ghost then = { λ s v n w. w ≡ (idle_view 0, []) };
}

/// A pass is split off, and at closing joined.
pub struct Passes;

impl Split<AdderView> for Passes {
    ghost use Rattle.shared_stats.specs.Rule.{one_less, idle_view};

    ghost left = { one_less };

    ghost right = { λ v. idle_view 1 };
}

impl Join<AdderView> for Passes {
    ghost use Rattle.shared_stats.specs.Rule.{joined, idle_view};

    ghost both = { joined };

    ghost spent = { idle_view 0 };
}
