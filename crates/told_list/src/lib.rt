//! One list that only grows, behind a lock, of which all threads are told.
//!
//! A [`Told`] keeps a value that stands for a list, as a [`Kept`], and each thread owns a token, a [`Seen`]. What a
//! token knows is a prefix of the one list. [`Told::behind`] tells by one load, without the lock, how long the list is,
//! where that is more than the token knows. [`Told::with`] lends the kept value to an [`Act`], which may add items
//! behind those that are there; the token then knows the list that the act left. At the end [`Told::close`] gives the
//! kept value back.
//!
//! The promise: what a token knew is a prefix of each list that a later turn finds, which is at least as long as what
//! its last load showed; every place past the first list belongs to exactly one token, the one whose turn added it;
//! and nothing that the kept value declares fixed ever changes. None of this names a thread or a lock: it is said of
//! tokens, through the words of `specs/Tokens.antt`.
//!
//! The limits: a turn may wait for another thread's, and nothing is said of how long. A list is closed only with all
//! of its tokens.
#![tactic(auto)]

mod act;
mod into_seen;
mod kept;
mod queue;
mod rule;
mod seen;
mod tokens;
mod told;
mod turn;

pub use act::Act;
pub use into_seen::IntoSeen;
pub use kept::Kept;
pub use seen::Seen;
pub use told::Told;
