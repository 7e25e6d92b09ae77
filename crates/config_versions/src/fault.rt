use thiserror::Error;

/// Why a version isn't installed.
#[derive(Clone, Copy, Debug, PartialEq, Eq, Error)]
pub enum InstallFault {
    /// There are `versions` versions, as many as there can be: 1,048,576. The pass is at the newest.
    #[error("there are {versions} versions, and there can be no more")]
    VersionsFull { versions: u32 },
    /// There was no memory. No version was added, and the pass is at the version at which it was.
    #[error("out of memory")]
    OutOfMemory,
}
