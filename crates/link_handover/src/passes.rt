// What threads hold of a handover.
ghost use Rattle.std.specs.Prelude.{◌≡◌, ◌≤◌, [], length, true, false};
ghost use Rattle.crossbeam_channel.specs.Claims.{view};

use crate::Taken;
use crate::journal::Journal;
use crossbeam_channel::Pass;

pub(crate) type QueuePass<N> = Pass<Taken<N>, Journal<N>>;

/// Puts links and end marks. There is one.
#[derive(Drop)]
pub struct PutPass<N: Drop> {
    pub(crate) pass: QueuePass<N>,
    pub(crate) next: u32,
    ghost counted: { length (view pass).links ≡ next },
    ghost puts: { (view pass).puts ≡ true },
    ghost idle: { (view pass).taken ≡ [] },
    ghost few: { ((view pass).parts ≤ 65) × (1 ≤ (view pass).parts) },
}

/// Takes links and an end mark. Each thread that takes has one.
#[derive(Drop)]
pub struct TakePass<N: Drop> {
    pub(crate) pass: QueuePass<N>,
    ghost takes: { ((view pass).puts ≡ false) × ((view pass).parts ≡ 1) },
}

impl<N: Drop> PutPass<N> {
    ghost use Rattle.link_handover.specs.Passes.{links_put};

    /// How many links were put.
    pub fn count(&self) -> u32
        ensures { result ≡ length (links_put self.now) }
    {
        self.next
    }
}
