//! The command `lookup`: for each line of the input, which rule each descriptor of its request finds.
//!
//! [`find_and_write`] makes the lines of an input by a configuration, writes each by one call, and flushes. `specs/Lookup.antt` says
//! what each line is: what the descriptors of its request find, whatever the others find, or the first fault of a line that is no
//! request. All lines are made before the first is written, so want of memory comes before anything is written.
#![tactic(auto)]

mod finding;
mod found_json;
mod lookup;

pub use finding::find_and_write;
