use thiserror::Error;

/// Why a replay stopped before the end of its stream.
#[derive(Clone, Copy, Debug, PartialEq, Eq, Error)]
pub enum ReplayFault {
    /// The source couldn't be read.
    #[error("read failed")]
    Read,
    /// The sink couldn't be written.
    #[error("write failed")]
    Write,
    /// The stream has more than 67,108,864 bytes, or else more than 1,048,576 lines; `read` were seen.
    #[error("input too long")]
    TooLong { read: u64 },
    /// There was no memory.
    #[error("out of memory")]
    OutOfMemory,
}
