//! Records and totals read from their texts.
//!
//! `reply_text` prints a record of a run, or a total, as a line of compact JSON. [`read_record`] and [`read_total`] are the
//! inverses: each answers the record or the total whose text the bytes are, and None exactly where there is none
//! (`specs/Said.antt` says which records and totals texts show).
//!
//! A line is read as JSON, what it shows is taken for a record, and that record is printed and compared with the line. So a text
//! with a space, with names in another order, with a number that has another form or with a name too much is no record.
#![tactic(auto)]

mod bytes;
mod members;
mod outcomes;
mod pointer;
mod record;
mod run;
mod said;
mod statuses;
mod total;

pub use record::read_record;
pub use run::{RunText, read_run};
pub use said::{BadLine, Said};
pub use total::read_total;
