ghost use Rattle.std.specs.Prelude.{◌≡◌, ◌+◌, ◌≤◌, length};
ghost use Rattle.std.specs.Arc.{arc_value};
ghost use Rattle.rate_types.specs.declared.limits.TheConstants.{MOST_VERSIONS};
ghost use Rattle.config_versions.specs.PassState.{IsVersion};

use crate::install::Installed;
use crate::refresh::Refreshed;
use crate::version_log::VersionLog;
use rate_types::limits::MOST_VERSIONS;
use std::sync::Arc;
use told_list::Kept;

/// The versions, in the order in which they were installed, of which only the newest takes memory.
#[derive(Drop)]
pub struct VersionList<I> {
    pub versions: VersionLog<I>,
    /// The number of the newest.
    pub last: u32,
    pub newest: Arc<I>,
    ghost count: { length versions ≡ last + 1 },
    ghost few: { last + 1 ≤ MOST_VERSIONS },
    ghost is_newest: { IsVersion versions last (arc_value newest) },
}

impl<I> Kept for VersionList<I> {
    ghost use Rattle.rate_types.specs.declared.limits.TheConstants.{MOST_VERSIONS};

    type Item = I;

    ghost MOST = { MOST_VERSIONS };

    const MOST: u64 = MOST_VERSIONS as u64;

    ghost Fixed = { Unit {0} };

    ghost fixed = { λ _. tt };

    ghost items = { λ b. b.versions };

    fn len(&self) -> u64 {
        u64::from(self.last) + 1
    }
}

impl<I: Drop> VersionList<I> {
    ghost use Rattle.std.specs.Prelude.{[], ◌∷◌};
    ghost use Rattle.config_versions.specs.Acts.{Installs, Refreshes};

    /// Only the first version.
    pub fn of(first: Arc<I>) -> VersionList<I>
        ensures { result.versions ≡ arc_value first ∷ [] }
    {
        let mut versions = VersionLog::new();
        versions.add(&*first);
        VersionList {
            versions,
            last: 0,
            newest: first,
        }
    }

    /// Adds a version, where there is room for one.
    pub fn install(&mut self, next: &Arc<I>) -> Installed<I>
        ensures { Installs (arc_value next.now) self.old.versions result self.new.versions }
    {
        if self.last + 1 >= MOST_VERSIONS {
            return match Arc::try_clone(&self.newest) {
                Ok(newest) => Installed::Full(newest),
                Err(_) => Installed::OutOfMemory,
            };
        }
        let Ok(own) = Arc::try_clone(next) else {
            return Installed::OutOfMemory;
        };
        self.versions.add(&**next);
        self.last += 1;
        self.newest = own;
        Installed::Added(self.last)
    }

    /// The newest version, where it has a greater number.
    pub fn newer_than(&self, version: u32) -> Refreshed<I>
        ensures { Refreshes version self.now.versions result self.now.versions }
    {
        if self.last <= version {
            return Refreshed::Newest;
        }
        match Arc::try_clone(&self.newest) {
            Ok(newest) => Refreshed::Newer(self.last, newest),
            Err(_) => Refreshed::OutOfMemory,
        }
    }
}
