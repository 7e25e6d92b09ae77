//! Tests of quota buckets: the moments at which they wait, what one decides, and what many answer and report. They stand in a crate of their
//! own, since a crate with tests is proved twice.
#![tactic(auto)]

#[cfg(test)]
mod bucket;
#[cfg(test)]
mod buckets;
#[cfg(test)]
mod moments;
