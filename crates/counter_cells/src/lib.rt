//! Counts that many threads charge at once, each by one atomic addition, in cells that are used again.
//!
//! A cell is a gate and a count. The gate's word holds a claim number, an open bit and a number of pins. The one
//! claimer takes a cell under a new claim (`reclaim`), sets its count to 0 (`reset`) and opens it (`open_cell`). A pass,
//! of which each thread has its own, pins the cell under its claim (`pin`), looks at the count, charges hits and gives
//! the pin back. A pinned cell isn't taken for another claim. One more word is the clock, which ticks only raise.
//!
//! **The promise.** Between any two steps of any passes and the claimer the cells are lawful (`CellsLawful` of
//! `specs/Lawful.antt`, in eight parts). So whatever the interleaving, the charges under each claim form a lawful
//! ledger: each charge found exactly the sum of the charges before it, and no addition is lost. What the claimer and the
//! passes found has its cause in the rule: a cell that was found pinned is one that some pass has noted a pin on, and a
//! pass that pinned a cell isn't told of another gate there while it holds the pin. `Cells::close` states this. Each
//! step's contract says what the pass or the claimer knows after it, as an equation with a function of `specs/Steps.antt`.
//!
//! **Trusted.** That `tick` and `hear` answer by the clock as it stood at their step, and not by an earlier one, is no
//! clause: a load that goes unused looks like one that was done before. A test has two passes tick in turn.
//!
//! **Memory.** Each cell has 16 bytes, in blocks of 256 cells. The clock has a line of memory of 64 bytes to itself, and the first 64 cells
//! of each block begin one line each, so that threads on few cells share no line.
//!
//! **Limits.** 1,048,576 cells, 1,024 passes, 32 pins of a pass at a time, claims below 2 ^ 40, hits of one charge
//! below 2 ^ 32. No step takes memory, waits or locks. Nothing is said of progress: a `reclaim` is one try.
#![tactic(auto)]

mod answers;
mod cells;
mod claimer;
mod closed;
mod gate;
mod naming;
mod opened;
mod pass;
mod plays;
mod rule;
mod setup;
mod view;
mod word_index;

pub use answers::{Pin, Reclaim, Spot};
pub use cells::Cells;
pub use claimer::CellClaimer;
pub use closed::{ClosedCells, Counts};
pub use naming::CellNaming;
pub use opened::OpenedCells;
pub use pass::CellPass;
pub use setup::Setup;
pub use view::{Cell, CellView, Charge, OtherGate, Tick};
