//! Tests of connections that are polled.
#![tactic(auto)]

#[cfg(test)]
mod stats;
#[cfg(test)]
mod tasks;
