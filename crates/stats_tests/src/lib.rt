//! Tests of the statistics of rules. They stand in a crate of their own, since a crate with tests is proved twice.
#![tactic(auto)]

#[cfg(test)]
mod prometheus;
#[cfg(test)]
mod shared;
#[cfg(test)]
mod statuses;
