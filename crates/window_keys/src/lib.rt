//! Windows of time and the counters that belong to them.
//!
//! A fixed window of a unit starts at a multiple of the unit's length. A counter is a domain, the entries of a
//! descriptor, a unit and the start of a window, so the same name counts anew in each window. `write_key` spells a
//! counter as bytes, for maps: different counters have different bytes.
#![tactic(auto)]

mod counter;
mod key;
mod window;

pub use counter::{counter_at, end_of};
pub use key::{KeyBuffer, write_key};
pub use window::{end, reset, start};
