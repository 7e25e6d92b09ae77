//! The statistics of a run: what each rule of each version counted in the answered checks of a script.
//!
//! A record has no hits, so a worker adds an answered check to a tally of its own while it has the line ([`add_line`]). [`merge_tallies`]
//! adds up the tallies of all workers.
//!
//! The promise (`specs/RunStats.antt`): the numbers are the sums of what the statuses of all answered checks add, each with the hits of its
//! descriptor, and no others.
#![tactic(auto)]

mod checks;
mod tallies;

pub use checks::add_line;
pub use tallies::merge_tallies;
