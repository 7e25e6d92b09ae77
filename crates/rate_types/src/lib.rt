//! The values that requests, configurations and answers are made of.
//!
//! Each type keeps its bounds by itself: a `Text` has at most 1,024 bytes, a `Seconds` is at most
//! 1,000,000,000,000, `Entries` are 1 to 32 with keys that aren't empty. So no other crate tests them again.
//! `specs/Ledger.antt` defines what a ledger of charges is, which every crate above speaks of.
#![tactic(auto)]

mod blob;
mod counter_key;
mod counter_name;
mod duration;
mod entries;
mod fault;
mod items;
pub mod limits;
mod memory;
mod millis;
mod place;
pub mod refusals;
mod refused;
mod request;
mod rule_id;
mod seconds;
mod text;
mod text_words;
mod unit;
mod word;

pub use blob::{Blob, Blobs};
pub use counter_key::CounterKey;
pub use counter_name::CounterName;
pub use duration::{DurationFault, is_numeral, print_duration, read_duration};
pub use entries::{Entries, EntriesFault, Entry};
pub use fault::Fault;
pub use items::Items;
pub use memory::OutOfMemory;
pub use millis::Millis;
pub use place::Place;
pub use refused::{At, Refused};
pub use request::{Descriptor, OwnLimit, Request, RequestFault};
pub use rule_id::RuleId;
pub use seconds::Seconds;
pub use text::{Text, TextFault};
pub use unit::Unit;
pub use word::{Names, Word};
