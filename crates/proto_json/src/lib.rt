//! JSON messages: what bytes read as, and the fields of an object, after the proto3 JSON mapping.
//!
//! `specs/` says what a part of a message says: the list of all its faults, each with its place and its number, and
//! the value beside them. A reader answers the first fault, or the value where there is none. A reader of a message
//! takes the fields of its object in their order, each by its two spellings, and ends the object:
//!
//! ```text
//! let mut fields = Fields::of(value, place)?;
//! let key = fields.take_text(KEY)?;
//! let shadow = fields.take_bool(SHADOW_MODE)?;
//! let place = fields.end()?;
//! ```
//!
//! Each take equals the field's definition (`Fields.antt`, `Kinds.antt`), so that the reader equals its message's, which
//! is the same list of takes; `Laws.antt` has the laws for that. `read_items` reads the items of a list, each of one `Kind`,
//! and `read_members` an object whose names are data, each of its members a `NamedMember`.
//!
//! Limits: `serde_json` refuses more than 127 arrays and objects inside one another, and reads a name that stands
//! twice with one spelling as the later one.
#![tactic(auto)]

mod bytes;
mod durations;
mod fault;
mod field_name;
mod fields;
mod kinds;
mod lists;
mod named_members;
mod numbers;
mod placed;
mod texts;

pub use bytes::parse;
pub use durations::read_duration;
pub use fault::FormFault;
pub use field_name::FieldName;
pub use fields::Fields;
pub use lists::{Kind, read_items};
pub use named_members::{NamedMember, read_members};
pub use numbers::read_whole;
pub use placed::{List, Placed};
pub use texts::{ShortText, read_text};
