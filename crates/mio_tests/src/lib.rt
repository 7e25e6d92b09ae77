//! Tests of connections that are polled over the system's sockets.
#![tactic(auto)]

#[cfg(test)]
mod sockets;
