//! Checks: a request against a configuration and the counts of its counters.
//!
//! A reply is the status of each descriptor by one configuration, at one moment, with the count of its counter.
//! [`Totals`] are what was charged on the counters of open windows, in key order.
//! [`CounterSums`] are sums for each of some counters.
#![tactic(auto)]

mod counter_sums;
mod fault;
mod reply;
mod status;
mod totals;

pub use counter_sums::CounterSums;
pub use fault::{CheckFault, ReloadFault};
pub use reply::Reply;
pub use status::{Code, Count, Status, status_for};
pub use totals::{Total, Totals, in_key_order};
