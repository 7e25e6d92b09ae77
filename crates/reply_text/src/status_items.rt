// The statuses of an answer as a slice.
ghost use Rattle.std.specs.Prelude.{◌≡◌, [], ◌∷◌};

use rls_core::Status;
use std::marker::Model;
use std::slice;

/// One status, which was unpacked, or several that are lent.
#[derive(Drop)]
enum HeldItems<'a> {
    One(Status),
    Several(&'a [Status]),
}

/// The statuses of an answer, in order. Contracts see the list of them.
#[derive(Drop)]
pub struct StatusItems<'a> {
    held: HeldItems<'a>,
}

impl<'a> Model for StatusItems<'a> {
    ghost use Rattle.std.specs.Prelude.{List};
    ghost use Rattle.rls_core.specs.declared.status.Status.{Status};
    ghost use Rattle.reply_text.specs.Held.{held_items};

    ghost Value = { List Status };

    ghost view = { λ s. held_items s.held };
}

impl<'a> StatusItems<'a> {
    #[inline(always)]
    pub(crate) fn one(status: Status) -> StatusItems<'a>
        ensures { result ≡ status ∷ [] }
    {
        StatusItems {
            held: HeldItems::One(status),
        }
    }

    #[inline(always)]
    pub(crate) fn several(statuses: &'a [Status]) -> StatusItems<'a>
        ensures { result ≡ statuses.now }
    {
        StatusItems {
            held: HeldItems::Several(statuses),
        }
    }

    /// The statuses as std has them.
    #[inline(always)]
    pub fn as_slice(&self) -> &[Status]
        ensures { result.now ≡ self.now }
    {
        match &self.held {
            HeldItems::One(status) => slice::from_ref(status),
            HeldItems::Several(statuses) => statuses,
        }
    }
}
