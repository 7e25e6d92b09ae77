//! Connections that are polled, over the system's sockets: the adapters of `mio`. What `mio` answers is trusted, and that it tells of each
//! change at a socket: from a call that would have waited on, or from a read on that found fewer bytes than it had room for.
#![tactic(auto)]

mod mio_link;
mod mio_listen;

pub use mio_link::MioLink;
pub use mio_listen::MioListen;
