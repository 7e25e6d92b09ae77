//! The command `audit`: a printed run of a script, judged.
//!
//! [`read_run_files`] reads the configuration files of a job and then the printed run, and [`judge_and_write`] judges the run of a script
//! by a configuration, writes the verdict as one line, and flushes. The promise (`specs/Audited.antt`): the line is that of the verdict
//! on these bytes, the first line that is none of a run, the first clause of a lawful run that doesn't hold, or that all hold.
#![tactic(auto)]

mod auditing;

pub use auditing::{RunFiles, judge_and_write, read_run_files};
