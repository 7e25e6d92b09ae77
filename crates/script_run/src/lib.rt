//! What a line of a script says, and which records are a lawful run of a script by any number of workers.
//!
//! A [`Line`] is an event or a refusal. `specs/Run.antt` relates the lines of a script to the records of a run: each clause
//! stands in a file of its own. No word of it speaks of threads, cells or locks: it is said of lines and of records alone.
//!
//! Each worker writes the records of its lines into a [`Journal`] of its own. [`RunJournals`] has those of all workers, and stands for their
//! records in the order of the lines ([`merge`]). [`RunJournals::in_order`] finds that order: [`RunRecords`] says where each lies.
//! [`count_answers`] counts the answered checks journal after journal.
#![tactic(auto)]

mod answer_counts;
mod journal;
mod line;
mod merging;
mod run_journals;
mod run_records;

pub use answer_counts::{AnswerCounts, count_answers};
pub use journal::Journal;
pub use line::Line;
pub use run_journals::{RunJournals, merge};
pub use run_records::RunRecords;
