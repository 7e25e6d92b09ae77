//! The links of a listener, served by a limiter of several passes.
//!
//! [`serve_limited`] makes a limiter of the configuration, whose start is moment 0, accepts so many links and serves each once, on
//! as many threads as there are passes, each link with one of the passes. Its promise (`specs/Limited.antt`): each link was served
//! with the answers of what it read, and each check was a step of the pass that served the link, which offered the moment that the
//! link told for it. After the last link the limiter is closed: each reply is that of the configuration, each refusal has its cause,
//! each moment was offered by a check, and the charges of all replies of all links are one lawful ledger. Where statistics are kept, no
//! number of a text that a link told is greater than the sum over the checks of all links.
#![tactic(auto)]

mod limited;

pub use limited::{Setup, serve_limited};
