// The history of a listener. It exists only in proofs: it takes no memory, and its methods do nothing at run time.
ghost use Rattle.std.specs.Prelude.{◌≡◌, List, [], ◌∷◌, ◌++◌};
ghost use Rattle.std.specs.Borrow.{ftrue};
ghost use Rattle.rate_io.specs.Listeners.{ListenEvent};
ghost use Rattle.rate_io.specs.StoredListens.{listens_code};

use crate::History;
use std::marker::Model;

/// What a listener did, call by call.
#[derive(Drop)]
pub struct ListenHistory {
    pub ghost events: { List ListenEvent } by { listens_code },
}

impl Model for ListenHistory {
    ghost also_owns = { λ _. ftrue };
}

/// One call of a listener.
#[derive(Clone, Copy, Drop)]
pub enum ListenCall<'a> {
    /// It was asked for this port, and is bound to this one.
    Bound {
        asked: u16,
        port: u16,
    },
    /// It was asked for this port, and wasn't bound.
    BindFailed {
        asked: u16,
    },
    /// It handed out the next link.
    Accepted,
    /// It handed out none.
    AcceptFailed,
    /// The link of this number came back, with its calls.
    GaveBack {
        number: u32,
        calls: &'a History,
        is_shut: bool,
    },
}

impl ListenHistory {
    ghost use Rattle.rate_io.specs.ListenCalls.{listen_event};

    /// No call.
    pub fn new() -> ListenHistory
        ensures { result.events ≡ [] }
    {
        ListenHistory {}
    }

    /// The same calls and one more behind them.
    pub fn and(&self, _call: &ListenCall<'_>) -> ListenHistory
        ensures { result.events ≡ self.now.events ++ listen_event _call.now ∷ [] }
    {
        ListenHistory {}
    }
}
