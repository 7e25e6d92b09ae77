use http_endpoint::LinkEnd;

/// Links that were accepted and served, all or those before an accept that failed.
#[derive(Drop)]
pub struct TasksServed {
    /// How each link ended, in the order of accepting.
    pub ends: Vec<LinkEnd>,
    /// No accept failed.
    pub is_all: bool,
}
