//! One quota bucket and its strategy: what its history says, and what has to be kept of it.
//!
//! `specs/` defines over a bucket's whole history which phase it is in (`History`), which requests are allowed
//! (`Strategies`), when it reports and what (`Reports`), and how many requests an effect can allow (`Allowance`).
//! The code keeps a few numbers of that history, `BucketState`. The promise: each step of these numbers is the event on the
//! history (the clauses `history` of `advanced`, `advance_report`, `asked` and `assigned`), and an advance before the moment
//! that `BucketState::due` tells changes nothing (its clause `quiet`), so that a bucket wants no work until then. Moments are
//! milliseconds, at most 1,000,000,000,000. Buckets by name, settings and streams are the crates above.
#![tactic(auto)]

mod bucket_state;
mod due;
mod meter;
mod moments;
mod rules;
mod strategy;
mod timed_phase;

pub use bucket_state::{Advance, Asked, BucketState, Usage};
pub use meter::{Meter, Verdict};
pub use rules::{AtExpiry, BucketRules};
pub use strategy::Strategy;
pub use timed_phase::{InForce, TimedPhase};
