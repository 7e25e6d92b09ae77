//! The links of a listener, served on one thread by a limiter of one pass.
//!
//! [`serve_limited_tasks`] makes a limiter of the configuration, whose start is moment 0, accepts so many links and serves each once, as
//! a task that is polled beside the others, all with one pass. Its promise (`specs/Limited.antt`): each link was served with the answers
//! of what it read, and each check was a step of the pass, which offered the moment that the link told for it. After the last link the
//! limiter is closed: each reply is that of the configuration, each refusal has its cause, each moment was offered by a check, and the
//! charges of all replies of all links, in the order in which the checks were made, are one lawful ledger. Where statistics are kept, no
//! number of a text that a link told is greater than the sum over the checks of all links.
#![tactic(auto)]

mod limited;

pub use limited::{TaskSetup, serve_limited_tasks};
