//! The handover of links: one thread puts links in, numbered from 0 in order, and others take them out, each once.
//!
//! A [`Handover`] is a bounded queue. The one [`PutPass`] puts links and, when all are put, one end mark for each that takes. Each
//! thread that takes has a [`TakePass`], which knows what it took, in order.
//!
//! The promise: between any two steps, whatever the threads do, the rule `HandoverLawful` (`specs/Handover.antt`) holds: the
//! numbers put are those from 0 on, each stands in the queue or was taken by one pass, with the link that was put under it; the
//! queue holds its numbers in rising order, and each pass took its own in rising order; end marks stand behind all numbers, so
//! where a pass took one the queue holds no number. When all passes are given back and each took its end mark, what they took is
//! what was put ([`Handover::close`]).
//!
//! The limits: 1 to 64 that take. `put`, `finish` and `take` may wait; none of them has a refusal. Nothing is said of which pass gets
//! which link.
#![tactic(auto)]

mod handover;
mod journal;
mod passes;
mod taken;

pub use handover::Handover;
pub use passes::{PutPass, TakePass};
pub use taken::Taken;
