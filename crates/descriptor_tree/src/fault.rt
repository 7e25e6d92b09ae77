use rate_types::{At, Fault};

/// Why a configuration isn't made: its first fault, with its file and its place, or want of memory.
pub type ConfigFault = Fault<At>;
