//! The commands `drive` and `gen`: a script run by several workers, and a made-up load run by four.
//!
//! [`drive_and_write`] runs an input as a script by a configuration, and writes a line for each record, then for each total, and where
//! they are asked for one for each rule that counted anything; the memory for them is taken before the first is written. The promise:
//! the lines are the texts of a lawful run of this script, of its totals and of its statistics (`specs/Driven.antt`). [`run_gen`] runs the load of a number and writes the one summary that each of
//! its runs has (`specs/Generated.antt`).
#![tactic(auto)]

mod driving;
mod generated;
mod load_run;
mod run_pieces;

pub use driving::drive_and_write;
pub use generated::run_gen;
