//! Tests of checks, of runs by several workers and of their journals. They stand in a crate of their own, since a crate with tests is
//! proved twice.
#![tactic(auto)]

#[cfg(test)]
mod checks;
#[cfg(test)]
mod configs;
#[cfg(test)]
mod journals;
#[cfg(test)]
mod workers;
