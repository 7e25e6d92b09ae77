//! The text in which Prometheus reads the statistics of rules and other numbers of a server: its text format, version 0.0.4.
//!
//! [`labels_of`] makes the [`Labels`] of each node of a configuration once, in the order of their numbers. [`put_metrics`] puts the six metrics
//! of rules behind a text: for each metric its two head lines, and a line for each rule that counted anything. [`put_gauge`] and
//! [`put_counter`] put a metric of one number.
//!
//! The promise: the text is exactly that of the labels and the numbers that were given (`specs/Text.antt`). The value of a label reads back by
//! the format's rule (`specs/Escapes.antt`), and labels that differ have different parts of a line. Want of memory alone ends it sooner.
//!
//! The limits: two rules of a domain whose paths are spelled alike, as a key `a_b` and a key `a` with the value `b`, have the same labels.
//! Whoever has such rules adds their numbers up before, since Prometheus takes a series once.
#![tactic(auto)]

mod escape;
mod kind;
mod labels;
mod lines;
mod metric;
mod metrics;
mod single;

pub use labels::{Labels, labels_of};
pub use metrics::put_metrics;
pub use single::{put_counter, put_gauge};
