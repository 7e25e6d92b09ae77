//! The words of a command line, read into a command.
//!
//! `specs/Words.antt` says which words are a command: the first names it, and what stands behind is taken by `clap` under the rules of
//! that command, its numbers within their ranges. [`read_words`] answers the command that the words are, or that they are none.
//! [`HELP`] and [`VERSION`] are the texts of `--help` and `--version`. What a command reads and does is the business of `ratelimit_cli`.
#![tactic(auto)]

mod audit_words;
mod command;
mod gen_words;
mod help;
mod named;
mod number;
mod parsers;
mod pool_words;
mod serve_words;
mod texts;
mod words;

pub use command::{AuditJob, Command, PoolJob, QuotaJob, ServeBy, ServeJob, ThreadJob};
pub use help::{HELP, VERSION};
pub use serve_words::MOST_TASKS;
pub use words::{WordsFault, read_words};
