//! Tests of the fronts and the answers of connections. They stand in a crate of their own, since a crate with tests is proved twice.
#![tactic(auto)]

#[cfg(test)]
mod connections;
#[cfg(test)]
mod fronts;
#[cfg(test)]
mod hostile;
#[cfg(test)]
mod stats;
