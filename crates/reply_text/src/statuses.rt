ghost use Rattle.std.specs.Prelude.{◌≡◌, ◌≤◌, ◌<◌, ◌^◌, [], ◌∷◌, IfOk, IsOk, length};
ghost use Rattle.rate_types.specs.declared.limits.TheConstants.{MOST_DESCRIPTORS};
ghost use Rattle.reply_text.specs.Held.{held_answer};
ghost use Rattle.rls_core.specs.declared.status.Status.{Status};

use crate::StatusItems;
use crate::packed_status::PackedStatus;
use rate_types::OutOfMemory;
use rls_core::{Reply, Status};
use std::alloc::Global;
use std::marker::Model;

/// Whether the overall code is OVER_LIMIT, and where the statuses lie: one in the value itself, packed, or several apart.
#[derive(Drop)]
enum HeldStatuses {
    One { over: bool, status: PackedStatus },
    Several { over: bool, statuses: Vec<Status> },
}

/// The statuses of an answered check, one per descriptor in order, and whether its overall code is OVER_LIMIT.
#[derive(Drop)]
pub struct Statuses {
    held: HeldStatuses,
}

impl Model for Statuses {
    ghost use Rattle.std.specs.Prelude.{◌≤◌, length};
    ghost use Rattle.rate_types.specs.declared.limits.TheConstants.{MOST_DESCRIPTORS};
    ghost use Rattle.reply_text.specs.Answer.{Answer};
    ghost use Rattle.reply_text.specs.Held.{held_answer};

    ghost Value = { Answer };

    ghost view = { λ s. held_answer s.held };

    ghost invariant = { λ s. length (held_answer s.held).statuses ≤ MOST_DESCRIPTORS };
}

// One status where it can be packed, else a copy of the list.
#[inline(always)]
fn held_of(alloc: Global, over: bool, statuses: &[Status]) -> Result<HeldStatuses, OutOfMemory>
    ensures same { IfOk result (λ h. held_answer h ≡ record { over = over; statuses = statuses.now }) }
    ensures one { (s : Status) → statuses.now ≡ s ∷ [] → s.reset < 2 ^ 32 → IsOk result }
{
    if let [status] = statuses
        && let Some(status) = PackedStatus::of(status)
    {
        return Ok(HeldStatuses::One { over, status });
    }
    let mut list = Vec::with_capacity(alloc, statuses.len())?;
    list.extend_from_slice(statuses)?;
    Ok(HeldStatuses::Several {
        over,
        statuses: list,
    })
}

impl Statuses {
    /// The statuses of a reply. One status takes no memory, unless its time to reset has more than 32 bits.
    #[inline(always)]
    pub fn of_reply(alloc: Global, reply: &Reply) -> Result<Statuses, OutOfMemory>
        ensures same { IfOk result (λ s. s ≡ record { over = reply.now.over; statuses = reply.now.statuses.items }) }
        ensures one { (s : Status) → reply.now.statuses.items ≡ s ∷ [] → s.reset < 2 ^ 32 → IsOk result }
    {
        let held = held_of(alloc, reply.over, reply.statuses.as_slice())?;
        Ok(Statuses { held })
    }

    /// The overall code is OVER_LIMIT.
    pub fn over(&self) -> bool
        ensures { result ≡ self.now.over }
    {
        match self.held {
            HeldStatuses::One { over, .. } => over,
            HeldStatuses::Several { over, .. } => over,
        }
    }

    /// The statuses in order.
    #[inline(always)]
    pub fn items(&self) -> StatusItems<'_>
        ensures all { result ≡ self.now.statuses }
        ensures few { length self.now.statuses ≤ MOST_DESCRIPTORS }
    {
        match &self.held {
            HeldStatuses::One { status, .. } => StatusItems::one(status.unpack()),
            HeldStatuses::Several { statuses, .. } => StatusItems::several(statuses),
        }
    }
}
