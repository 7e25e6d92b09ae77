// What buckets answer, decide and report.
mod answers;
mod decisions;
mod gaps;
mod reports;
mod steps;
