//! What one pass knows of its counters, so that it needn't ask for their cells again.
//!
//! An [`OverCache`] is a map from the bytes of a counter's key to the spot of its cell and the greatest value that the pass
//! has seen there. It keeps the 1,024 keys that were used last. To be asked for and known is a use, and so is a note.
//!
//! The promise (`specs/Uses.antt`): after any uses, the keys known are the 1,024 that were used last, or all where they are
//! fewer. What is known of a key was noted, and its value is the greatest that was noted of the key under that claim since the
//! claim became known. A note of a known key takes no memory, nor does any question; a refused note changes nothing.
//!
//! The limits: what was noted may be out of date. A counter whose window is over may have lost its cell, which only a pin of
//! the cell shows. A key has the bytes of `window_keys::write_key`; no call looks into them.
#![tactic(auto)]

mod key_bytes;
mod known;
mod over_cache;

pub use known::Known;
pub use over_cache::{MOST_KNOWN, OverCache};
