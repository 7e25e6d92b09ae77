use crate::Served;
use http_endpoint::Checks;
use rate_io::Link;

/// Links that were accepted and served, in the order of accepting.
#[derive(Drop)]
pub struct Accepted<N: Link + Drop, K: Checks + Drop> {
    pub checks: Vec<K>,
    pub served: Vec<Served<N>>,
    /// No accept failed.
    pub is_all: bool,
}
