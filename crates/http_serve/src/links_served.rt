use http_endpoint::LinkEnd;

/// Links that were accepted and served, all or those before an accept that failed, with the checkers in order.
#[derive(Drop)]
pub struct LinksServed<K: Drop> {
    pub checks: Vec<K>,
    /// How each link ended, in the order of accepting.
    pub ends: Vec<LinkEnd>,
    /// No accept failed.
    pub is_all: bool,
}
