//! Checks whose statuses are noted, so that there are statistics of rules.
//!
//! [`CountedChecks`] answers checks as those inside do, and notes the status of each descriptor of each answered check, with the hits of the
//! descriptor, in shared statistics: each once, in order, and nothing for a check that was refused. Where the statistics are asked for, the
//! text that it answers has at least all that it noted until then (`specs/Counting.antt`). [`close_stats`] tells, once no more checks are
//! made, that no number of a text is greater than the sum over all checks (`specs/AtEnd.antt`). Where no statistics are kept, checks are
//! answered as those inside answer them.
#![tactic(auto)]

mod counted_checks;
mod made;
mod note;
mod pass_stats;

pub use counted_checks::CountedChecks;
pub use made::{close_stats, counted, open_stats, parts_of};
pub use pass_stats::PassStats;
