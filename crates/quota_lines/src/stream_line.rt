use crate::bucket_action::BucketActions;
use quota_settings::Attributes;
use rate_types::Millis;

/// What happened to the stream between a client and its quota server.
#[derive(Clone, Copy, Debug, PartialEq, Eq)]
pub enum Connection {
    /// It was lost.
    Lost,
    /// It came up.
    Up,
}

/// The event of a line.
#[derive(Drop)]
pub enum StreamEvent {
    /// A request with these attributes arrived at the client.
    Request(Attributes),
    /// A message of the quota server, Envoy's `RateLimitQuotaResponse`, with these actions.
    Response(BucketActions),
    /// The stream was lost or came up.
    Connection(Connection),
    /// Nothing but that time goes on to the line's moment.
    Passes,
}

/// A line of a stream: its moment, and what happened then.
#[derive(Drop)]
pub struct StreamLine {
    pub at: Millis,
    pub event: StreamEvent,
}
