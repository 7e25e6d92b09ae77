// The rule of the table, what each step tells, and how a view is split and joined.
use atomic_table::{Join, Play, Seat, Shared, Split, TableRule};
use std::collections::LinkedList;

/// The word that says how often a number was asked for.
pub const ASKED: usize = 0;

/// What the table is told when it is made.
#[derive(Drop)]
pub struct Setup {
    /// How many lines there are.
    pub lines: u64,
    /// How many drawers there are.
    pub drawers: u64,
}

/// What a seat knows. No value of it is made.
pub struct DrawerView {
    /// How many lines there are.
    pub lines: u64,
    /// The numbers that it drew, in order.
    pub drawn: LinkedList<u64>,
    /// The next number is at least this.
    pub least: u64,
    /// How often it was told that there are no more.
    pub ends: u64,
    /// How many drawers it stands for.
    pub drawers: u64,
}

/// The rule of the table.
pub struct NumbersRule;

impl TableRule<u8, DrawerView, Setup> for NumbersRule {
    ghost use Rattle.line_numbers.specs.Rule.{IsLawful, idle_view};

    ghost holds = { IsLawful };

    ghost first = { λ o. idle_view o.lines o.drawers };
}

pub(crate) type SharedTable = Shared<u8, DrawerView, Setup, NumbersRule>;

pub(crate) type TableSeat = Seat<u8, DrawerView>;

/// One number is drawn, or there are no more.
pub struct Draws;

impl Play<u8, DrawerView> for Draws {
    ghost use Rattle.std.specs.Prelude.{◌≡◌};
    ghost use Rattle.line_numbers.specs.Rule.{Drew};

    ghost then = { λ s v n w. Drew v.0 n w.0 × (w.1 ≡ v.1) };
}

/// A seat that stands for no drawer.
pub struct Enters;

impl Play<u8, DrawerView> for Enters {
    ghost use Rattle.std.specs.Prelude.{◌≡◌, []};
    ghost use Rattle.line_numbers.specs.Rule.{empty_view};

    ghost then = { λ s v n w. w ≡ (empty_view, []) };
}

/// A drawer is split off, and at closing joined.
pub struct Drawers;

impl Split<DrawerView> for Drawers {
    ghost use Rattle.line_numbers.specs.Rule.{one_less, one_drawer};

    ghost left = { one_less };

    ghost right = { one_drawer };
}

impl Join<DrawerView> for Drawers {
    ghost use Rattle.line_numbers.specs.Rule.{joined, empty_view};

    ghost both = { joined };

    ghost spent = { empty_view };
}
