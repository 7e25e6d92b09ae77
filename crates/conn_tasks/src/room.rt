use http_endpoint::{Inbox, Page};
use rate_types::OutOfMemory;
use std::alloc::Global;

/// What a connection reads into and prints into. Between two requests it needs none, so a thread lends one to the connection that it polls.
#[derive(Drop)]
pub struct Room {
    pub inbox: Inbox,
    pub out: Page,
}

impl Room {
    ghost use Rattle.std.specs.Prelude.{◌≡◌, [], true, IfOk};
    ghost use Rattle.std.specs.Option.{is_some};

    /// An empty one.
    pub fn make(alloc: Global) -> Result<Room, OutOfMemory> {
        let inbox = Inbox::make(alloc)?;
        let out = Page::make(alloc)?;
        Ok(Room { inbox, out })
    }

    /// Sees to it that there is one to lend.
    pub fn refill(alloc: Global, spare: &mut Option<Room>) -> Result<(), OutOfMemory>
        ensures { IfOk result (λ _. is_some spare.new ≡ true) }
    {
        if spare.is_none() {
            *spare = Some(Room::make(alloc)?);
        }
        Ok(())
    }

    /// Nothing is in it.
    pub fn clear(&mut self)
        ensures inbox { self.new.inbox ≡ [] }
        ensures out { self.new.out ≡ [] }
    {
        self.inbox.clear();
        self.out.clear();
    }
}
