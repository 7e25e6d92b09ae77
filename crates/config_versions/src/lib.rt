//! Versions of a configuration, and passes that use one version each.
//!
//! Workers must learn of a new version without waiting, and a check must use one version all the way. So each worker
//! owns a [`VersionPass`], which is at one version and owns a share of it. [`Versions::is_behind`] tells by one load,
//! without the lock, whether there is a newer version; [`Versions::refresh`] brings the pass to the newest, and
//! [`Versions::install`] adds one. What a version is, is the caller's: `I` is any type.
//!
//! The promise: what a pass knows of the versions is a prefix of the one list of all of them, and the version at which it
//! is, is the one of its number in that list; this number never falls; each version but the first was installed by
//! exactly one pass.
//!
//! The limits: at most 1,048,576 versions; calls that take the lock may wait, and nothing is said of how long. Only the
//! newest version takes memory, and those at which a pass is: the list of all of them is there for contracts alone.
#![tactic(auto)]

mod fault;
mod install;
mod pass;
mod passes;
mod refresh;
mod version_list;
mod version_log;
mod versions;

pub use fault::InstallFault;
pub use pass::VersionPass;
pub use version_log::VersionLog;
pub use versions::{ClosedVersions, Versions};
