ghost use Rattle.std.specs.Prelude.{◌≡◌, length};
ghost use Rattle.std.specs.Arc.{arc_value};
ghost use Rattle.rate_types.specs.declared.limits.TheConstants.{MOST_PASSES};
ghost use Rattle.told_list.specs.Tokens.{first_value};

use crate::fault::InstallFault;
use crate::install::{Install, Installed};
use crate::pass::VersionPass;
use crate::passes::{passes_of, tokens_of};
use crate::refresh::{Refresh, Refreshed};
use crate::version_list::VersionList;
use crate::version_log::VersionLog;
use rate_types::OutOfMemory;
use rate_types::limits::MOST_VERSIONS;
use std::alloc::Global;
use std::sync::{Arc, Wait};
use told_list::Told;

/// The versions of what the passes use, in the order in which they were installed, behind their lock.
#[derive(Drop)]
pub struct Versions<I: Drop> {
    pub(crate) told: Told<VersionList<I>>,
    ghost first: { length (first_value told).versions ≡ 1 },
}

/// What is left of versions that are closed.
#[derive(Drop)]
pub struct ClosedVersions<I> {
    /// All versions, for contracts alone.
    pub versions: VersionLog<I>,
    /// The number of the newest.
    pub last: u32,
    /// The newest.
    pub newest: Arc<I>,
}

impl<I: Drop> Versions<I> {
    ghost use Rattle.std.specs.Prelude.{◌≡◌, ◌≤◌, ◌<◌, ◌+◌, ℕ, All, IfOk, MatchOption, vec_len};
    ghost use mathlib.Core.List.{IsPrefix};
    ghost use Rattle.rate_types.specs.Sums.{total, times};
    ghost use Rattle.told_list.specs.Lists.{IsOwnedOnce};
    ghost use Rattle.config_versions.specs.PassState.{IsFirst, IsVersion, HasLoaded};
    ghost use Rattle.config_versions.specs.Answers.{AnswersInstall, AnswersRefresh};
    ghost use Rattle.config_versions.specs.Passes.{IsPassOf, pass_count, pass_state};

    /// The version 0, which is `first`, and 1 to 1,024 passes that are at it.
    pub fn make(
        alloc: Global,
        first: Arc<I>,
        passes: u32,
    ) -> Result<(Versions<I>, Vec<VersionPass<I>>), OutOfMemory>
        requires passes { (1 ≤ passes) × (passes ≤ MOST_PASSES) }
        ensures count { IfOk result (λ r. (pass_count r.0 ≡ passes) × (vec_len r.1 ≡ passes)) }
        ensures first { IfOk result (λ r. All (λ p. IsPassOf r.0 p × IsFirst (arc_value first) (pass_state p)) r.1.items) }
    {
        let own = Arc::try_clone(&first)?;
        let version_list = VersionList::of(own);
        let (told, seats) = Told::make(alloc, version_list, passes)?;
        let passes = passes_of(alloc, seats, &first)?;
        Ok((Versions { told }, passes))
    }

    /// Adds `next` as the newest version, and brings the pass to it. The answer is its number. It may wait for other
    /// calls on these versions.
    pub fn install<R: Wait>(
        &self,
        rt: &R,
        pass: &mut VersionPass<I>,
        next: Arc<I>,
    ) -> Result<u32, InstallFault>
        requires pass { IsPassOf self.now pass.old }
        ensures pass { IsPassOf self.now pass.new }
        ensures answer { AnswersInstall (arc_value next) result (pass_state pass.old) (pass_state pass.new) }
    {
        let mut act = Install { next };
        match self.told.with(rt, &mut pass.seen, &mut act) {
            Installed::Added(number) => {
                let Install { next } = act;
                pass.version = number;
                pass.index = next;
                Ok(number)
            }
            Installed::Full(newest) => {
                pass.version = MOST_VERSIONS - 1;
                pass.index = newest;
                Err(InstallFault::VersionsFull {
                    versions: MOST_VERSIONS,
                })
            }
            Installed::OutOfMemory => Err(InstallFault::OutOfMemory),
        }
    }

    /// Brings the pass to the newest version. It may wait for other calls on these versions. After `OutOfMemory` the pass
    /// is at the version at which it was, and `is_behind` still tells that it is behind.
    pub fn refresh<R: Wait>(&self, rt: &R, pass: &mut VersionPass<I>) -> Result<(), OutOfMemory>
        requires pass { IsPassOf self.now pass.old }
        ensures pass { IsPassOf self.now pass.new }
        ensures answer { AnswersRefresh result (pass_state pass.old) (pass_state pass.new) }
    {
        let mut act = Refresh {
            version: pass.version,
        };
        match self.told.with(rt, &mut pass.seen, &mut act) {
            Refreshed::Newest => Ok(()),
            Refreshed::Newer(version, index) => {
                pass.version = version;
                pass.index = index;
                Ok(())
            }
            Refreshed::OutOfMemory => Err(OutOfMemory),
        }
    }

    /// The number of the newest version, exactly where it is greater than that of the pass's version. It is one load, and
    /// waits for nobody.
    pub fn is_behind(&self, pass: &mut VersionPass<I>) -> Option<u32>
        requires pass { IsPassOf self.now pass.old }
        ensures pass { IsPassOf self.now pass.new }
        ensures answer { MatchOption result ((pass_state pass.new).view.shown ≡ (pass_state pass.old).version + 1)
            (λ n. (n + 1 ≡ (pass_state pass.new).view.shown) × ((pass_state pass.old).version < n)) }
        ensures loaded { HasLoaded (pass_state pass.old) (pass_state pass.new) }
        ensures at { IsVersion (pass_state pass.new).view.known (pass_state pass.new).version (pass_state pass.new).index }
    {
        let length = match self.told.behind(&mut pass.seen) {
            Some(length) => length,
            None => pass.seen.length(),
        };
        let newest = (length - 1) as u32;
        if newest > pass.version {
            Some(newest)
        } else {
            None
        }
    }

    /// All versions, for which all passes are given back. What each pass knew is a prefix of them, and each number but 0
    /// is the own number of exactly one pass, which installed that version. It waits for nobody. After `OutOfMemory` the
    /// versions and the passes are given up.
    pub fn close(
        self,
        alloc: Global,
        passes: Vec<VersionPass<I>>,
    ) -> Result<ClosedVersions<I>, OutOfMemory>
        requires passes { All (λ p. IsPassOf self p) passes.items }
        requires every { vec_len passes ≡ pass_count self }
        ensures newest { IfOk result (λ c. (length c.versions ≡ c.last + 1) × IsVersion c.versions c.last (arc_value c.newest)) }
        ensures prefixes { IfOk result (λ c. All (λ p. IsPrefix (pass_state p).view.known c.versions) passes.items) }
        ensures owned { IfOk result (λ c. (n : ℕ) → IsOwnedOnce 1 (length c.versions) n
            (total (λ p. times n (pass_state p).view.own) passes.items)) }
    {
        let Versions { told } = self;
        let seats = tokens_of(alloc, passes)?;
        let VersionList {
            versions,
            last,
            newest,
        } = told.close(seats);
        Ok(ClosedVersions {
            versions,
            last,
            newest,
        })
    }
}
