//! Workers that run the lines of a script side by side on one limiter.
//!
//! Each [`Worker`] owns a pass and a drawer of line numbers. It draws a line, reads it (`script_lines`), runs it through its pass, and
//! writes the record into its own journal, until there are no more lines ([`work`]). A [`Gate`] is told before and after each line.
//!
//! [`run_lines`] runs a worker for each pass, each in a thread of its own where threads can be made, joins them, and puts the
//! records of all journals in the order of their lines.
//!
//! The promise of a worker (`specs/Journal.antt`): the records of its journal are, in order, the steps of its pass at the lines
//! that it drew. None of it speaks of other workers. The promise of a run (`specs/Work.antt`, `specs/Clauses.antt`): each line has
//! one record, by one of the workers, and along a worker's records versions and moments never fall. [`run_script`] closes the limiter:
//! then the records are those of a lawful run (`script_run`'s `specs/Run.antt`), and the totals are those of the records.
//!
//! Where statistics are asked for, each worker adds the answered checks of its journal to a tally of its own, and those of all workers are
//! added up to the numbers of the run (`run_stats`).
//!
//! The limits: 1 to 64 workers, 1,048,576 lines. No clause says that workers run beside one another: a test shows it.
#![tactic(auto)]

mod finishing;
mod gate;
mod lines;
mod running;
mod tallying;
mod working;

pub use finishing::{Finished, run_script};
pub use gate::{Gate, Open};
pub use running::{Ran, run_lines};
pub use working::{Shared, Worked, Worker, work};
