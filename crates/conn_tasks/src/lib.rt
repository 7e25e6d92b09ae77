//! Connections as tasks that are polled: each poll goes on until the link would wait, a check is wanted, or the connection ends.
//!
//! [`ConnTask`] holds one connection. `poll_turn` reads, answers and writes as far as the link takes it (`specs/Tasks.antt`): at each
//! moment what was written is a first part of the answers to the bytes that were read, front by front, with the checks that were
//! answered (`IsOn`); it waits only where the link said that it would wait; and at the end the answers are all those of the bytes
//! (`TaskServed`). A check offers the moment that the link's clock told between the last read of its request and the first write of its
//! answer.
//!
//! [`PollLink`] and [`PollListen`] are what connections come from (`specs/Polls.antt`, `specs/Listening.antt`): in memory, with lists of
//! the calls that fail or wait; over the system's sockets they are in `mio_links`.
#![tactic(auto)]

mod conn;
mod conn_task;
mod front;
mod lawful_link;
mod mem_peer;
mod mem_poll;
mod mem_poll_listen;
mod poll_link;
mod poll_listen;
mod polled;
mod put;
mod reading;
mod room;
mod woke;

pub use conn::{Conn, Mode, Step, Turned};
pub use conn_task::ConnTask;
pub use front::{NextPoll, next_front};
pub use lawful_link::LawfulLink;
pub use mem_peer::MemPeer;
pub use mem_poll::MemPoll;
pub use mem_poll_listen::MemPollListen;
pub use poll_link::PollLink;
pub use poll_listen::PollListen;
pub use polled::Polled;
pub use put::{Put, put_on};
pub use reading::{Awaited, Filled, Look, fill, look_on};
pub use room::Room;
pub use woke::Woke;
