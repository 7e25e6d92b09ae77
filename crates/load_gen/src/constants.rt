//! The numbers and names of a made-up load.

/// The domain of its checks.
pub const DOMAIN: &str = "gen";

/// The key of their entries.
pub const KEY: &str = "u";

/// How many values the entries have, and so how many counters there are.
pub const VALUES: u32 = 64;

/// From one check to the next the value moves on by so many places.
pub const STEP: u32 = 37;

/// The hits that a counter admits in an hour.
pub const LIMIT: u32 = 100;

/// How many checks a worker draws at a time: each is done so soon that workers would else wait for one another at the word that they draw from.
pub const BATCH: u64 = 64;
