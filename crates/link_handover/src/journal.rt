// What a pass knows, the rule of the queue, and what each step tells.
use crate::Taken;
use crossbeam_channel::protocol::{Join, Lesson, Outcome, Protocol, Split};
use std::collections::LinkedList;

/// What a pass has put and taken. No value of it is made.
pub struct Journal<N: Drop> {
    /// It is the pass that puts.
    pub puts: bool,
    /// How many of the passes it stands for.
    pub parts: u64,
    /// The links that it put, in order.
    pub links: LinkedList<N>,
    /// How many end marks it put.
    pub marks: u64,
    /// What it took, in order.
    pub taken: LinkedList<Taken<N>>,
}

/// The rule of the queue.
pub struct InOrder;

impl<N: Drop> Protocol<Taken<N>, Journal<N>> for InOrder {
    ghost use Rattle.link_handover.specs.Handover.{HandoverLawful};
    ghost use Rattle.link_handover.specs.Journals.{first_journal};

    ghost holds = { HandoverLawful };

    ghost first = { first_journal };
}

/// A link is put.
pub struct Puts;

impl<N: Drop> Outcome<Taken<N>, Journal<N>> for Puts {
    ghost use Rattle.link_handover.specs.Journals.{HasPut};

    ghost then = { λ v x w. HasPut x v w };
}

impl<N: Drop> Lesson<Taken<N>, Journal<N>> for Puts {
    ghost use Rattle.std.specs.Prelude.{⊤};

    ghost fact = { λ v items. ⊤ };
}

/// A link or an end mark is taken.
pub struct Takes;

impl<N: Drop> Outcome<Taken<N>, Journal<N>> for Takes {
    ghost use Rattle.link_handover.specs.Journals.{HasTaken};

    ghost then = { λ v x w. HasTaken x v w };
}

impl<N: Drop> Lesson<Taken<N>, Journal<N>> for Takes {
    ghost use Rattle.std.specs.Prelude.{⊤};

    ghost fact = { λ v items. ⊤ };
}

/// A pass that takes is split off, and at the end joined.
pub struct Parts;

impl<N: Drop> Split<Journal<N>> for Parts {
    ghost use Rattle.link_handover.specs.Journals.{one_less, one_taker};

    ghost left = { one_less };

    ghost right = { λ v. one_taker };
}

impl<N: Drop> Join<Journal<N>> for Parts {
    ghost use Rattle.link_handover.specs.Journals.{joined, no_journal};

    ghost both = { joined };

    ghost spent = { no_journal };
}

/// What is left in the queue, once one pass stands for all.
pub struct Rest;

impl<N: Drop> Lesson<Taken<N>, Journal<N>> for Rest {
    ghost use Rattle.link_handover.specs.Journals.{Leaves};

    ghost fact = { Leaves };
}
