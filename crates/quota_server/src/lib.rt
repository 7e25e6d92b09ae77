//! A quota server that shares one pool of each bucket among its clients, and never gives away more than the pool has.
//!
//! A client's report is answered with its share of each bucket that it used: a fair part of the pool, but no more than the other clients
//! leave, for a lifetime (`specs/Shares.antt`, `Servers.antt`). `pool_lines` answers the lines of an events file one after the other:
//! `specs/Outcomes.antt` says what comes of each, `Texts.antt` the lines that are written. The promise: at each moment, what all
//! clients hold by the assignments that were written is together at most the pool, whichever of them arrive.
//!
//! A client is found in constant time, and a grant takes time in the shares that end and in those of its client that are smaller, and
//! none in the number of clients.
//!
//! Limits: those of `quota_pools`; an events file has at most 1,048,576 lines. A share is live from the moment at which it is written:
//! delay on the way isn't modelled.
#![tactic(auto)]

mod events;
mod grant;
mod hold;
mod holds;
mod live;
mod live_share;
mod pool_shares;
mod server;
mod step;
mod texts;

pub use events::pool_lines;
pub use grant::{Grant, TimeBack};
pub use server::Server;
