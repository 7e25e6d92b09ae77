use crate::version_list::VersionList;
use std::sync::Arc;
use told_list::Act;

/// What became of a pass that was to be brought to the newest version.
pub enum Refreshed<I> {
    /// It is at the newest version.
    Newest,
    /// This version is newer, and the newest.
    Newer(u32, Arc<I>),
    /// There is a newer version, of which no copy could be made.
    OutOfMemory,
}

/// Looks for a version that is newer than the one with this number.
#[derive(Drop)]
pub struct Refresh {
    pub version: u32,
}

impl<I: Drop> Act<VersionList<I>> for Refresh {
    ghost use Rattle.config_versions.specs.Acts.{Refreshes};

    type Out = Refreshed<I>;

    ghost ready = { λ _ _. Unit {0} };

    ghost did = { λ p b r q c. Refreshes p.version b.versions r c.versions };

    fn act(&mut self, kept: &mut VersionList<I>) -> Refreshed<I> {
        kept.newer_than(self.version)
    }
}
