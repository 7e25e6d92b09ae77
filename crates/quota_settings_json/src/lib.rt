//! Reading the settings of quota buckets from JSON.
//!
//! `read_settings`, `read_attributes` and `read_strategy` answer what the JSON spells, or the first of all its faults
//! with its place and its number. `specs/Read*.antt` say what each object says, field by field, both spellings of each.
//! `take_attributes`, `take_strategy` and `take_empty` take a field of this kind of another message.
//!
//! Limits: those of `proto_json`; a name has at most 32 parts.
#![tactic(auto)]

mod attributes;
mod behaviors;
mod expiry;
mod field_names;
mod part_list;
mod read_bucket;
mod read_parts;
mod settings_file;
mod strategies;

pub use attributes::{read_attributes, take_attributes};
pub use behaviors::take_empty;
pub use settings_file::read_settings;
pub use strategies::{read_strategy, take_strategy};
