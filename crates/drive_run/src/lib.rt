//! The run of a script on cells, a limiter and workers of its own.
//!
//! [`drive_script`] runs the lines of a script (`script_lines`) by workers that are threads. Its records are a lawful run
//! of the script (`script_run`'s `specs/Run.antt`), and with them come the totals of the windows that are open at the end and, where they are
//! asked for, the numbers of the rules (`run_stats`).
#![tactic(auto)]

mod run;

pub use run::{Driven, Setup, drive_script};
