ghost use Rattle.std.specs.Prelude.{◌≡◌};
ghost use Rattle.std.specs.Arc.{arc_value};
ghost use Rattle.told_list.specs.Tokens.{known};
ghost use Rattle.config_versions.specs.PassState.{IsVersion};

use crate::version_list::VersionList;
use std::sync::Arc;
use told_list::Seen;

/// What one worker has of the versions: the version at which it is. It goes with the [`Versions`](crate::Versions) that
/// it was made with.
#[derive(Drop)]
pub struct VersionPass<I> {
    pub(crate) seen: Seen<VersionList<I>, I>,
    pub(crate) version: u32,
    pub(crate) index: Arc<I>,
    ghost at: { IsVersion (known seen) version (arc_value index) },
}

impl<I> VersionPass<I> {
    ghost use Rattle.config_versions.specs.Passes.{pass_state};

    /// The number of the version at which the pass is. The first version has the number 0.
    pub fn version(&self) -> u32
        ensures { result ≡ (pass_state self.now).version }
    {
        self.version
    }

    /// The version at which the pass is.
    pub fn index(&self) -> &I
        ensures same { result.now ≡ (pass_state self.now).index }
        ensures known { IsVersion (pass_state self.now).view.known (pass_state self.now).version result.now }
    {
        &*self.index
    }
}
