use rate_types::{Fault, Refused};

/// Why a message isn't read: its first fault, with its place and its number, or want of memory.
pub type FormFault = Fault<Refused>;
