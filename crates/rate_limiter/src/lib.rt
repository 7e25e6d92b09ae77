//! A limiter that many workers use at once: versions of a configuration, a directory of counters, and cells.
//!
//! Each worker owns a [`Pass`]. A check ([`Limiter::check`]) uses one version of the configuration, no older than the pass
//! knows of, and counts each descriptor of its request on its counter by one atomic addition, in the windows of one moment.
//!
//! The promise: an answered check is a step of its pass (`specs/PassStep.antt`): its reply is that of one version, one moment
//! and of the counts that it found (`specs/Counts.antt`), and the pass charged exactly what the reply shows, each charge under
//! a claim that binds its counter. A refused check charges nothing, leaves no pin, and has its cause (`specs/Refusals.antt`).
//!
//! At the end [`Limiter::close`] puts the passes together: the charges of all are one lawful ledger (`specs/Closing.antt`).
//!
//! A pass keeps what it knows of its counters. A check whose counters it knows, and whose cells are theirs still, asks the directory
//! for nothing. [`Limiter::check_open`] is such a check alone: it takes no lock and no memory, or isn't answered, for a cause
//! (`specs/Opens.antt`). A counter that the pass has seen above the limit is answered without a look at its cell, and where all
//! counters of a check are such, no cell is asked for: the check tries no pin (`specs/Turns.antt`).
//!
//! The limits: `check`, `reload` and `meet` may wait for other calls on the limiter.
#![tactic(auto)]

mod acquire;
mod answer;
mod asked;
mod check;
mod check_open;
mod close;
mod count;
mod emptied;
mod hold;
mod known_counters;
mod limiter;
mod make;
mod meet;
mod missed;
mod names;
mod not_open;
mod overall;
mod pass;
mod pass_counters;
mod plan;
mod reload;
mod renew;
mod scratch;
mod split;
mod totals;

pub use close::Closed;
pub use limiter::{Limiter, Limits};
pub use not_open::NotOpen;
pub use pass::Pass;
