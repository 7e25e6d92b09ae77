//! The client side of Envoy's Rate Limit Quota Service: the quota buckets of one stream to the quota server.
//!
//! A request belongs to the bucket that the settings name, is decided there by the strategy in effect, and is counted
//! for the bucket's next report. Contracts see `Buckets` as the stream so far: its time, whether it is up, and each
//! bucket that is there with all that happened to it (`specs/Streams.antt`). The promise: each call changes this history
//! by its one event and answers what the history says; decisions, phases and reports are recounted from the whole
//! history in `quota_bucket`, and the code keeps of each bucket a state that is proved to be that of it. No effect of a
//! bucket ever allows more than its strategy's number, whatever else happens (`KeepAllowance`).
//!
//! `advance` costs as much as falls due, times a logarithm; `find`, `decide` and `request` look a bucket up by its name.
//! `decide`, `assign`, `abandon`, `set_up` and `phase` take no memory. The slots of erased buckets are used again once there are
//! as many slots as there is room for: that is at most 16 more than twice the most buckets that were there at once.
#![tactic(auto)]

mod answers;
mod bucket;
mod buckets;
mod call;
mod gaps;
mod phase;
mod report;
mod shared_id;
mod slots;
mod table;

pub use answers::{AdvanceFault, Assigned, Decided, NoBucket};
pub use buckets::Buckets;
pub use phase::Phase;
pub use quota_bucket::{AtExpiry, BucketRules, Strategy};
pub use quota_settings::{
    Attributes, BucketId, BucketSettings, Pair, Part, PartSource, Parts, Settings,
};
pub use report::{Report, Reports};
