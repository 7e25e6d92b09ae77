ghost use Rattle.std.specs.Prelude.{◌≡◌, [], false};

use crate::Status;
use arrayvec::ArrayVec;
use rate_types::Seconds;
use rate_types::limits::MOST_DESCRIPTORS;

/// The answer to a request (Envoy's `RateLimitResponse`).
#[derive(Drop)]
pub struct Reply {
    /// The configuration's version.
    pub version: u32,
    pub moment: Seconds,
    /// The overall code is OVER_LIMIT.
    pub over: bool,
    /// One status per descriptor, in order.
    pub statuses: ArrayVec<Status, MOST_DESCRIPTORS>,
}

impl Reply {
    /// No statuses, of version 0 at moment 0: what a caller lends to the calls that write their reply.
    pub fn new() -> Reply
        ensures statuses { result.statuses.items ≡ [] }
        ensures rest { (result.version ≡ 0) × (result.moment ≡ 0) × (result.over ≡ false) }
    {
        Reply {
            version: 0,
            moment: Seconds::capped(0),
            over: false,
            statuses: ArrayVec::new(),
        }
    }
}
