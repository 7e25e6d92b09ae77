//! Requests, replies, records and totals as JSON.
//!
//! Each text is compact JSON of a value that `specs/Texts.antt` gives, with the names of each object in byte order.
//! `read_request` answers what a value spells, or the first of all its faults with its place and its number (`specs/ReadRequest.antt`,
//! field by field, both spellings of each).
#![tactic(auto)]

mod array;
mod descriptor_list;
mod entry_list;
mod field_names;
mod packed_status;
mod put_status;
mod read_descriptors;
mod read_entries;
mod read_limit;
mod record;
mod record_json;
mod refused;
mod reply;
mod request;
mod status_items;
mod statuses;
mod total_json;

pub use array::array_value;
pub use record::{Outcome, Record, Records};
pub use record_json::{LONGEST_SHORT_RECORD, is_short, put_record, record_text};
pub use refused::refused_value;
pub use reply::{put_reply, reply_body};
pub use request::read_request;
pub use status_items::StatusItems;
pub use statuses::Statuses;
pub use total_json::{put_total, total_text};
