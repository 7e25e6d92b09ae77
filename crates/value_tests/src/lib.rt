//! Tests of the crates at the bottom: values, lines of text, fields of messages, windows. They stand in a crate of their own, since
//! a crate with tests is proved twice.
#![tactic(auto)]

#[cfg(test)]
mod fields;
#[cfg(test)]
mod lines;
#[cfg(test)]
mod numbers;
#[cfg(test)]
mod values;
#[cfg(test)]
mod windows;
