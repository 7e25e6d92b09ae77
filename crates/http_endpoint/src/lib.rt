//! Connections: the requests of each one after the other, each with its answer.
//!
//! `serve_link` serves a connection from its first byte to its end. What it promises is one record (`specs/Served.antt`): the
//! bytes that the reads handed out are answered front by front (`AreAnswers` of `specs/Answers.antt`), each answer by one
//! write, and the checks that were made are those of the fronts that ask for one, in order, each from the state that the one
//! before it left. What answers checks is a trait, `Checks`, whose ghost member says what a check does, and whether there are
//! statistics of rules and what they say. A request for them asks no moment of the clock.
//!
//! `listening_line` and `link_end_line` are the lines that serving prints (`specs/ServeLines.antt`).
//!
//! The limits: at most 1,024 answers a connection; where memory is wanting, 500 stands in the place of an answer
//! that takes some (`WantsMemory`) and closes. No other answer does: a refusal by a request's head, and 503 for a check that has no counter, are
//! printed into room that is kept.
//! A connection of n bytes costs a time in proportion to n and to the number of reads times the bytes of a head.
#![tactic(auto)]

mod body;
mod buffers;
mod checks;
mod inbox;
mod lines;
mod link_end;
mod next;
mod page;
mod serve;
mod turn;

pub use buffers::Buffers;
pub use checks::Checks;
pub use inbox::Inbox;
pub use lines::{link_end_line, listening_line};
pub use link_end::{LinkCause, LinkEnd};
pub use page::Page;
pub use serve::serve_link;
pub use turn::{Printed, answer_fixed, closes_after, print_result, print_stats};
