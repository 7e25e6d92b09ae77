//! Tests of cells, directories and what a pass knows of its counters. They stand in a crate of their own, since a crate with tests is proved twice.
#![tactic(auto)]

#[cfg(test)]
mod cells;
#[cfg(test)]
mod directory;
#[cfg(test)]
mod hashes;
#[cfg(test)]
mod known;
