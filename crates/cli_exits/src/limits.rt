//! The bounds of what is read by this crate alone.

/// The most bytes of a printed run that is judged. A run is longer than its script, which has at most 67,108,864 bytes.
pub const MOST_RUN_BYTES: u64 = 1_073_741_824;
