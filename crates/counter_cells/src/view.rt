// What a pass or the claimer knows. These are the words of contracts: no value of them is ever made.
use std::collections::LinkedList;

/// One tick of a pass.
pub struct Tick {
    /// The pass's number.
    pub number: u64,
    /// The moment that the tick answered.
    pub moment: u64,
    /// The moment that the pass asked for, where that was later than its own moment.
    pub offer: Option<u64>,
}

/// One addition to a count.
pub struct Charge {
    /// The claim under which the cell was pinned.
    pub claim: u64,
    /// The count found.
    pub before: u64,
    /// What was added.
    pub hits: u64,
}

/// A gate that a pin found closed or with another claim than it asked for.
pub struct OtherGate {
    /// The gate's cell.
    pub cell: u64,
    /// The claim found.
    pub claim: u64,
    /// Whether it was open.
    pub is_open: bool,
}

/// What the claimer knows of a cell.
pub struct Cell {
    /// It was taken at some time.
    pub ever: bool,
    /// Its gate is open.
    pub is_open: bool,
    /// Its count was set to 0 since it was taken last.
    pub reset: bool,
    /// The claim under which it was taken last.
    pub claim: u64,
}

/// What a pass or the claimer knows.
pub struct CellView {
    /// The pass's number. At closing the claimer has those of the joined passes.
    pub numbers: LinkedList<u64>,
    /// The ticks, in order.
    pub ticks: LinkedList<Tick>,
    /// The moment that the last tick answered.
    pub moment: u64,
    /// The good pins, each as a cell and the claim that it holds, newest first.
    pub good: LinkedList<(u64, u64)>,
    /// The cells of the pins that found another claim or a closed gate, and aren't given back yet.
    pub stray: LinkedList<u64>,
    /// What the pins found that were not good, in order.
    pub others: LinkedList<OtherGate>,
    /// The unused looks, each as a cell and the count seen.
    pub unused: LinkedList<(u64, u64)>,
    /// The charges, in order.
    pub charges: LinkedList<Charge>,
    /// The looks, each as a claim and the count seen, in order.
    pub looks: LinkedList<(u64, u64)>,
    /// The cells and claims of all good pins, present or past.
    pub pairs: LinkedList<(u64, u64)>,
    /// Whether it is the claimer's.
    pub claimer: bool,
    /// How many passes it may still make.
    pub unmade: u64,
    /// Of the claimer: what it knows of each cell.
    pub cells: LinkedList<Cell>,
    /// Of the claimer: the claims under which it took cells, newest first.
    pub used_claims: LinkedList<u64>,
    /// The cells that the claimer found pinned, each with the number of pins, in order. A pass has those that were
    /// tried for it.
    pub held: LinkedList<(u64, u64)>,
    /// Of the claimer: the latest moment that it heard of the clock, or at first 0.
    pub heard: u64,
}
