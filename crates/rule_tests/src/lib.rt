//! Tests of configurations, rules, checks and the texts of requests and replies. They stand in a crate of their own, since a crate
//! with tests is proved twice.
#![tactic(auto)]

#[cfg(test)]
mod checks;
#[cfg(test)]
mod compact;
#[cfg(test)]
mod configs;
#[cfg(test)]
mod lookups;
#[cfg(test)]
mod messages;
#[cfg(test)]
mod scripts;
#[cfg(test)]
mod trees;
