//! Tests of the lists and numbers that threads share. They stand in a crate of their own, since a crate with tests is proved twice.
#![tactic(auto)]

#[cfg(test)]
mod numbers;
#[cfg(test)]
mod told;
#[cfg(test)]
mod versions;
