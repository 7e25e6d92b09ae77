//! Rule statistics: what each rule of each version of a configuration counted, admitted and refused.
//!
//! A rule has six numbers ([`RuleNumbers`]), which envoyproxy/ratelimit has under the same names: hits in all, those within the limit, near
//! it and over it, those of counters that were only seen over it, and those that a shadow rule let pass. `specs/Statistics.antt` says what
//! each status adds to them. [`Tally`] adds the statuses of one thread, and its lines are those of the rules that counted anything, by
//! version and rule (`specs/Lines.antt`).
//!
//! The promise: the numbers of each rule are the sums of what the statuses that were added add, and no others.
//!
//! The limit: 33,554,432 statuses a tally, so that no number is above 2^57.
#![tactic(auto)]

mod line;
mod numbers;
mod tally;
mod texts;
mod version_numbers;

pub use numbers::{RuleNumbers, numbers_of};
pub use tally::{MOST_NOTES, Tally};
