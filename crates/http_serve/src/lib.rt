//! Many connections: links are accepted on the calling thread and handed to workers through a queue, each of which serves one link
//! after the other in a thread of its own.
//!
//! [`serve_links`] has a checker for each worker. Its promise (`specs/Links.antt`), for any number of workers and any order of
//! their steps: each link that was accepted was served once, by one of the checkers, shut and given back under its number, and its
//! end is told in the order of accepting.
//!
//! The limits: 1 to 64 workers. Where a worker has no memory no more links are accepted, and the call ends with want of memory; so
//! it does where no thread can be started. Nothing is said of which worker serves which link.
#![tactic(auto)]

mod accepted;
mod accepting;
mod giving;
mod links;
mod links_served;
mod merging;
mod served;
mod serving;
mod signals;
mod worker;

pub use links::{LinksFault, serve_links};
pub use links_served::LinksServed;
pub use merging::filled;
pub use served::{Fresh, Served};
