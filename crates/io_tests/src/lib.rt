//! Tests of what a program reads, writes and waits for. They stand in a crate of their own, since a crate with tests is proved twice.
#![tactic(auto)]

#[cfg(test)]
mod clocks;
#[cfg(test)]
mod files;
#[cfg(test)]
mod links;
#[cfg(test)]
mod streams;
