//! How the program ends, and what its commands share: files, configurations and the input are read here, and output is written.
//!
//! An [`Exit`] has a status and a line on standard error (`specs/Reports.antt`). `specs/World.antt` says what a call of the program found
//! and did, `specs/Jobs.antt` which files each command reads, `specs/Configured.antt` what they and the input say. [`read_files`],
//! [`configuration`] and [`read_input`] answer what was asked for, or the exit whose cause stands in the way, and [`write_all`] writes
//! pieces each by one call and flushes behind the last (`specs/Parts.antt`). The promise: a call that answers an exit did so by the
//! history of what was handed in, with all that it did before the cause and nothing after it.
#![tactic(auto)]

mod configs;
mod exit;
mod input;
mod limits;
mod output;
mod pieces;
mod report;

pub use configs::{configuration, read_files};
pub use exit::Exit;
pub use input::{are_few_lines, read_input};
pub use limits::MOST_RUN_BYTES;
pub use output::{write_all, write_line, write_lines, write_text};
pub use pieces::Pieces;
