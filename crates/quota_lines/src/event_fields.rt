use proto_json::Placed;

/// The values of the three fields of a line of which one may hold its event, unread.
#[derive(Drop)]
pub struct EventFields {
    pub request: Option<Placed>,
    pub response: Option<Placed>,
    pub connection: Option<Placed>,
}
