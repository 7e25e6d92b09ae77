//! The front of a connection's bytes: which request stands there, and the answer that it asks for.
//!
//! `specs/Front.antt` says by cases what stands at the front of bytes after which the input ends (`IsFront`): nothing, a part of a
//! request, a fixed answer, a check, or a request for the statistics of rules, to which `stats_answer` is the answer. `read_front` says
//! what is known of it while bytes are still coming; where it knows the front, the front stays whatever follows. A body isn't looked at
//! before it is whole. Heads are those of the grammar of `httparse`, statuses and phrases those of `http`. `print_answer` writes an
//! answer's bytes (`specs/Printed.antt`) into a buffer that its caller keeps.
//!
//! No call reads more than 16,384 bytes of a head, and only the reading of a JSON body takes memory.
#![tactic(auto)]

mod answer;
mod asks;
mod front;
mod head;
mod part;
mod print;
mod request;

pub use answer::{Allow, Body, HttpAnswer};
pub use asks::Method;
pub use front::{Front, sends_body, stats_answer};
pub use part::{Part, read_front};
pub use print::{out_of_memory_answer, print_answer};
