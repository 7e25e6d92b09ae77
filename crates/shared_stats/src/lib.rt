//! Rule statistics that many threads add to at once, each number by one atomic addition.
//!
//! A [`SharedStats`] holds the six numbers of each rule of a configuration, each in a word. A thread owns a [`StatsPass`]. It notes a status
//! by one addition for each number that the status adds to ([`SharedStats::note`]): no lock, no memory, and nobody waits. Any thread may read
//! the numbers at any time ([`SharedStats::numbers`], [`SharedStats::text`]).
//!
//! The promise: whatever the interleaving, the numbers at the end are the sums of what the notes of all passes add, so no note is lost or
//! counted twice ([`SharedStats::close`]); what a pass reads before has at least all that it noted itself, and at most what there is at the
//! end. The numbers of one reading aren't of one moment.
//!
//! The limits: 65,536 rules, 64 passes. A pass adds up to 2^57 hits; what comes after is noted and not added, which takes 4,000 years at a
//! million hits a second. A status of a rule that isn't among them adds nothing.
#![tactic(auto)]

mod adding;
mod at_end;
mod looking;
mod pass;
mod passes;
mod rule;
mod shared_stats;
mod text;

pub use pass::{MOST_NOTED_HITS, StatsPass};
pub use shared_stats::SharedStats;
