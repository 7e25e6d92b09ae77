//! Made-up load, and the summary of its runs.
//!
//! The load of a number is a script of checks, each of one hit on one of 64 counters that admit 100 hits an hour
//! (`specs/Load.antt`). [`Load`] makes each line when it is run, and [`summary`] tells of the records of a run how many checks were
//! answered, how many of them admitted and how many denied.
//!
//! The promise (`specs/Summary.antt`): each lawful run of a load, by any number of workers in any interleaving, has the summary of the
//! load, where there are cells enough.
//!
//! The limit: at most 1,048,576 checks.
#![tactic(auto)]

mod config;
mod constants;
mod counts;
mod lines;

pub use config::load_config;
pub use counts::summary;
pub use lines::Load;
