//! The bounds of what is read, kept and run.

/// The most bytes of a file or of an input.
pub const MOST_BYTES: u64 = 67_108_864;
/// The most lines of a script or of a stream.
pub const MOST_LINES: u32 = 1_048_576;
/// The most cells of counters.
pub const MOST_CELLS: u32 = 1_048_576;
/// The cells of a run that names no other number.
pub const DEFAULT_CELLS: u32 = 262_144;
/// The most claims of a run.
pub const MOST_CLAIMS: u64 = 33_554_432;
/// The most claims that are ever made on the cells of a table. Their numbers are below it.
pub const MOST_CLAIM_NUMBERS: u64 = 1_099_511_627_776;
/// The most hits of one charge.
pub const MOST_HITS: u32 = 4_294_967_295;
/// The most configuration versions of a run.
pub const MOST_VERSIONS: u32 = 1_048_576;
/// The most workers.
pub const MOST_WORKERS: u32 = 64;
/// The workers of a command that serves connections or quota streams and names no other number.
pub const DEFAULT_WORKERS: u32 = 4;
/// The most connections that a server accepts.
pub const MOST_CONNECTIONS: u32 = 1_048_576;
/// The most checks of a generated script.
pub const MOST_CHECKS: u32 = 1_048_576;
/// The most passes of a limiter.
pub const MOST_PASSES: u32 = 1_024;
/// The most pins of a pass.
pub const MOST_PINS: u32 = 32;
/// The latest moment, in seconds or in milliseconds.
pub const LATEST_MOMENT: u64 = 1_000_000_000_000;
/// The longest duration, in seconds.
pub const LONGEST_DURATION: u64 = 1_000_000_000;
/// The most bytes of a domain, a key, a value or a name.
pub const LONGEST_TEXT: usize = 1_024;
/// The most descriptors of a request.
pub const MOST_DESCRIPTORS: usize = 32;
/// The most entries of a descriptor.
pub const MOST_ENTRIES: usize = 32;
/// The deepest level of a node; the roots are on level 1.
pub const DEEPEST_LEVEL: u32 = 32;
/// The most nodes of a configuration.
pub const MOST_NODES: u32 = 65_536;
/// The most rules that a rule replaces.
pub const MOST_REPLACED: usize = 32;
/// The most parts of a bucket's id.
pub const MOST_PARTS: usize = 32;
