ghost use Rattle.std.specs.Prelude.{◌≡◌, [], IfOk};

use crate::{Inbox, Page};
use rate_types::OutOfMemory;
use std::alloc::Global;
use std::marker::Model;

/// The room that serving connections takes: the bytes that were read and not used yet, which contracts see, and the answer that
/// is printed. It is made once and kept from one connection to the next.
#[derive(Drop)]
pub struct Buffers {
    pub(crate) inbox: Inbox,
    pub(crate) out: Page,
}

impl Model for Buffers {
    ghost use Rattle.std.specs.Prelude.{List, ℕ};

    ghost Value = { List ℕ };

    ghost view = { λ b. b.inbox };
}

impl Buffers {
    /// Room for a head of 16,384 bytes and for an answer, with no byte kept.
    pub fn make(alloc: Global) -> Result<Buffers, OutOfMemory>
        ensures { IfOk result (λ b. b ≡ []) }
    {
        let inbox = Inbox::make(alloc)?;
        let out = Page::make(alloc)?;
        Ok(Buffers { inbox, out })
    }
}
