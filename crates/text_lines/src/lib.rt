//! Lines of bytes, as scripts, look-up input and quota streams have them.
//!
//! Bytes are cut at each line feed (10), and at nothing else: a carriage return stays in its line. What stands behind the
//! last line feed is a line where it isn't empty. The promise: the lines that `cut_line` gives one after the other are
//! those of the definition `cut`, and each call leaves fewer bytes. No call takes memory or copies a byte.
#![tactic(auto)]

mod cut;

pub use cut::{cut_line, line_feed};
