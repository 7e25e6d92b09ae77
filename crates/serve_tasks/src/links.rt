ghost use Rattle.std.specs.Prelude.{◌≡◌, ◌≤◌, vec_len};
ghost use Rattle.rate_types.specs.declared.limits.TheConstants.{MOST_CONNECTIONS};
ghost use Rattle.serve_tasks.specs.Running.{live_count};

use crate::running::{Parked, ServedTask};
use conn_tasks::{PollLink, Room};

/// The links that were accepted, each under its number: those that go on, and those that were served.
#[derive(Drop)]
pub struct Links<N: PollLink + Drop> {
    pub tasks: Vec<Option<Parked<N>>>,
    pub served: Vec<Option<ServedTask<N>>>,
    /// How many go on.
    pub live: u32,
    /// The room that is lent to the one that is polled.
    pub spare: Option<Room>,
    ghost as_many: { vec_len served ≡ vec_len tasks },
    ghost few: { vec_len tasks ≤ MOST_CONNECTIONS },
    ghost counted: { live ≡ live_count tasks.items },
}
