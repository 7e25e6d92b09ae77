//! The command `serve`: the connections of a port, served by a limiter.
//!
//! [`listen_and_serve`] has the port of a job, writes its line and flushes, since a caller waits for it, accepts the connections and
//! serves each once by threads, and writes how each ended, line by line, in the order of accepting. [`poll_and_serve`] does the same over a
//! listener that doesn't wait, by tasks on one thread. `specs/Served.antt` says what each exit of them says: which links were accepted and
//! served by the limiter of the configuration, and which lines were written.
#![tactic(auto)]

mod lines;
mod serve;
mod tasks;

pub use lines::PortLine;
pub use serve::listen_and_serve;
pub use tasks::poll_and_serve;
