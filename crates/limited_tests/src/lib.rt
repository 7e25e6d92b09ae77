//! Tests of connections that are polled and served by one limiter.
#![tactic(auto)]

#[cfg(test)]
mod limited;
#[cfg(test)]
mod peers;
#[cfg(test)]
mod stats;
