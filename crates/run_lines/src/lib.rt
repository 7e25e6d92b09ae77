//! The lines of a run, made one by one as they are written.
//!
//! A run writes a line for each record, then one for each total, and then those of other texts, each with its line feed.
//! [`RunLines::make`] takes all memory that these lines want: it makes those of records that aren't short and all behind the records, and
//! room for the line of one short record.
//! After that [`RunLines::advance`] makes each line in its turn, which can't fail.
//!
//! The promise: the lines that `advance` comes to, one after the other, are those of the records, totals and texts
//! (`specs/RunLines.antt`), and nothing can be wanting once the first of them is there. So want of memory is found before anything is
//! written, though the lines of a run are never held all at once.
#![tactic(auto)]

mod making;
mod run_lines;

pub use run_lines::RunLines;
