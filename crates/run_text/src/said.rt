use rate_types::Seconds;
use reply_text::Record;

/// The record of a refused line, whose place is a JSON pointer.
#[derive(Drop)]
pub struct BadLine {
    pub line: u32,
    pub worker: u32,
    pub version: u32,
    pub moment: Seconds,
    pub at: String,
    pub number: u32,
}

/// A record as its text shows it: its statuses have no numbers of rules.
#[derive(Drop)]
pub enum Said {
    /// A line that was run.
    Run(Record),
    /// A refused line.
    Bad(BadLine),
}
