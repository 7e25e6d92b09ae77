//! The program's one public call: words in, an exit out, over files, a source and a sink that are handed in.
//!
//! `command_words` says which words are a command. `specs/Exits.antt` says when each exit comes, in the histories of what
//! was handed in: with `Done` the writes are the output of the command, which the crate of each command says: the texts of a lawful
//! run of the script that the reads of the source handed out, by the configuration of the files that were read, and of its totals
//! (`cli_drive`); what each descriptor of the requests finds (`cli_lookup`); the output of each recorded stream, in order, or the answers
//! of pools (`cli_quota`); the lines of a server (`cli_serve`); the verdict on a printed run (`cli_audit`); the summary of a made-up load;
//! the help or the version. A flush that was done stands behind them. Every other exit says what was asked for, read and written before
//! its cause, and that nothing was after it. `cli_exits` says which status and which line an exit has.
#![tactic(auto)]

mod auditing;
mod outside;
mod pool;
mod quota;
mod serve;
mod top;
mod work;

pub use outside::Outside;
pub use top::ratelimit;
