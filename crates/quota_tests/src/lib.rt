//! Tests of the settings of quota buckets, of pools and of the lines of recorded streams. They stand in a crate of their own, since a crate
//! with tests is proved twice.
#![tactic(auto)]

#[cfg(test)]
mod events;
#[cfg(test)]
mod pools;
#[cfg(test)]
mod settings;
