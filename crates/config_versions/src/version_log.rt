ghost use Rattle.std.specs.Prelude.{◌≡◌, [], ◌∷◌, ◌++◌};

use http_server::Log;
use std::marker::Model;

/// Versions in the order in which they were installed. It is for contracts and proofs alone, which see it as a list, and
/// takes no memory.
#[derive(Drop)]
pub struct VersionLog<I> {
    log: Log<I, ()>,
}

impl<I> Model for VersionLog<I> {
    ghost use Rattle.std.specs.Prelude.{List, map};

    ghost Value = { List I };

    ghost view = { λ v. map (λ x. x.0) v.log.items };
}

impl<I> VersionLog<I> {
    /// No version.
    pub(crate) fn new() -> VersionLog<I>
        ensures { result ≡ [] }
    {
        VersionLog { log: Log::new() }
    }

    /// One more version.
    pub(crate) fn add(&mut self, version: &I)
        ensures { self.new ≡ self.old ++ version.now ∷ [] }
    {
        self.log = self.log.and(version, &());
    }
}
