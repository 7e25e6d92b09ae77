//! Values put behind a text as compact JSON.
//!
//! Each call adds to a text that its caller owns, so that a line or a reply takes no text of its own for each of its parts: a number,
//! a text between quotes, a duration, a comma. `put_number`, `put_duration` and `put_comma` fail only where the text has no room for
//! what they add. After want of memory a first part may stand there.
#![tactic(auto)]

mod plain;
mod put;

pub use plain::needs_escape;
pub use put::{put_comma, put_duration, put_number, put_quoted};
