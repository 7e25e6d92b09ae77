//! An agenda: the next moment of each index that has one, and which indices a moment reaches.
//!
//! The moments stand in rows, each the earlier of every two below, up to a row of one moment, so that setting one costs a
//! step for each row that changes, and finding the indices that a moment reaches costs as much as there are of them, times the
//! number of rows. Setting takes no memory. The promise: contracts see an agenda as the list of its moments, each a moment or
//! none, and `reached` gives exactly the indices whose moment is there and isn't later, in rising order. An agenda keeps its
//! length; a longer one is made anew.
#![tactic(auto)]

mod agenda;
mod moment;
mod row;

pub use agenda::Agenda;
pub use moment::{earlier, is_reached};
