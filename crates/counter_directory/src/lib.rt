//! Which cell a counter has, and when a cell may be used again.
//!
//! A limiter with millions of keys has a fixed number of cells. The directory binds each counter once, under its lock,
//! to a cell whose last window has ended and that no pass has pinned. The bindings are one list of claims that only grows. Each
//! thread owns a [`DirectoryPass`], which knows a prefix of it.
//!
//! The promise: the list of claims is lawful (`specs/Claims.antt`): counters and numbers differ, moments never fall and
//! lie in their counters' windows, and a cell is claimed anew only once its last window has ended. [`Directory::acquire`]
//! pins, with the cell pass of the caller, the cell of each counter under the number of its claim, or says why not, in exact
//! numbers. A call that is refused adds no claim and leaves no pin.
//!
//! The limits: `acquire` may wait for other calls, and nothing is said of how long. At most 2^40 claims are ever made.
#![tactic(auto)]

mod acquire;
mod acquired;
mod cell_pool;
mod claim;
mod claim_table;
mod closed;
mod directory;
mod keys;
mod pass;
mod pins;
mod ring;
mod sought_name;
mod ticks;
mod unit_index;

pub use acquired::{AcquireFault, Acquired};
pub use claim::{Claim, Claims};
pub use closed::{ClosedDirectory, OpenClaim};
pub use directory::Directory;
pub use pass::DirectoryPass;
pub use pins::give_back;
pub use sought_name::SoughtName;
