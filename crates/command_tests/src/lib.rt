//! Tests of the program's one public call, over files, a source, a sink and a listener in memory. They stand in a crate of their
//! own, since a crate with tests is proved twice.
#![tactic(auto)]

#[cfg(test)]
mod commands;
