//! The settings of quota buckets: which bucket a request belongs to, and the rules that its bucket is made with.
//!
//! Settings are a list. The first of them that a request's attributes fit gives the bucket's name and its rules. The
//! promise: `Settings::covering` finds exactly the first that fits, and `BucketSettings::id_of` gives the name that its
//! parts spell (`specs/Covering.antt`). Attributes and names of buckets are sorted by name, with names that differ, so
//! equal names are equal lists.
#![tactic(auto)]

mod attributes;
mod bucket_id;
mod pair;
mod part;
mod settings;

pub use attributes::Attributes;
pub use bucket_id::BucketId;
pub use pair::Pair;
pub use part::{Part, PartSource, Parts};
pub use settings::{BucketSettings, Settings};
