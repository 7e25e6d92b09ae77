//! Recorded streams between a client and its quota server, replayed: what a lawful client would have done, line by line.
//!
//! `replay_all` answers, for each stream in memory, the text of its output: at each line the reports that fall due, and then what
//! its event did. `specs/Output.antt` defines the output of a stream by its bytes, `Outcomes.antt` what comes of a line by the
//! histories of the stream's buckets, `Texts.antt` the lines that are written. The answer is the same for every number of
//! workers. A `StreamTask` is the replay of one stream, 64 lines a turn, and a future. `replay` goes from a source to a sink, a line at
//! a time (`Replays.antt`).
//!
//! Limits: those of `quota_lines`; a stream has at most 67,108,864 bytes and 1,048,576 lines. `replay_all` has the streams in memory
//! with their whole output. Nothing is said of how the turns of several workers lie beside one another.
#![tactic(auto)]

mod action_answer;
mod line_number;
mod output_lines;
mod progress;
mod put_lines;
mod put_parts;
mod replay_fault;
mod replaying;
mod step;
mod stream_task;
mod task_future;
mod workers;
mod writing;

pub use action_answer::ActionAnswer;
pub use line_number::LineNumber;
pub use output_lines::cut_output_line;
pub use put_parts::{put_at_start, put_bucket, put_number_start, put_refused_part};
pub use replay_fault::ReplayFault;
pub use replaying::replay;
pub use stream_task::StreamTask;
pub use workers::replay_all;
