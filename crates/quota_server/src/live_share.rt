ghost use Rattle.std.specs.Prelude.{◌≡◌};

use rate_types::{Millis, Text};
use std::marker::Model;

/// The count of an assignment, and from when until when it is live, in milliseconds.
#[derive(Clone, Copy, Debug, PartialEq, Eq)]
pub struct Span {
    pub count: u64,
    pub from: Millis,
    pub until: u64,
}

/// An assignment to a client.
#[derive(Drop)]
pub struct LiveShare {
    client: Text,
    span: Span,
}

impl Model for LiveShare {
    ghost use Rattle.quota_server.specs.Shares.{Share};

    ghost Value = { Share };

    ghost view = { λ s. record { client = s.client; count = s.span.count; from = s.span.from; until = s.span.until } };
}

impl LiveShare {
    /// This assignment to this client. It takes no memory.
    pub fn of(client: Text, span: Span) -> LiveShare
        ensures { result ≡ record { client = client; count = span.count; from = span.from; until = span.until } }
    {
        LiveShare { client, span }
    }

    /// The client.
    pub fn client(&self) -> &Text
        ensures { result.now ≡ self.now.client }
    {
        &self.client
    }

    /// The count.
    pub fn count(&self) -> u64
        ensures { result ≡ self.now.count }
    {
        self.span.count
    }

    /// The moment of its end, in milliseconds.
    pub fn until(&self) -> u64
        ensures { result ≡ self.now.until }
    {
        self.span.until
    }
}
