use crate::version_list::VersionList;
use std::sync::Arc;
use told_list::Act;

/// What became of a version that was to be installed.
pub enum Installed<I> {
    /// It has this number.
    Added(u32),
    /// There was no room. This is the newest version.
    Full(Arc<I>),
    /// There was no memory, and no version was added.
    OutOfMemory,
}

/// Installs the version `next`.
#[derive(Drop)]
pub struct Install<I> {
    pub next: Arc<I>,
}

impl<I: Drop> Act<VersionList<I>> for Install<I> {
    ghost use Rattle.std.specs.Prelude.{◌≡◌};
    ghost use Rattle.std.specs.Arc.{arc_value};
    ghost use Rattle.config_versions.specs.Acts.{Installs};

    type Out = Installed<I>;

    ghost ready = { λ _ _. Unit {0} };

    ghost did = { λ p b r q c. (arc_value q.next ≡ arc_value p.next)
        × Installs (arc_value p.next) b.versions r c.versions };

    fn act(&mut self, kept: &mut VersionList<I>) -> Installed<I> {
        kept.install(&self.next)
    }
}
