//! The fields of a request, each by its two spellings.

use proto_json::FieldName;

/// A request's domain.
pub const DOMAIN: FieldName = ("domain", "domain");

/// A request's descriptors.
pub const DESCRIPTORS: FieldName = ("descriptors", "descriptors");

/// The hits of a request, or those of a descriptor.
pub const HITS_ADDEND: FieldName = ("hitsAddend", "hits_addend");

/// A descriptor's entries.
pub const ENTRIES: FieldName = ("entries", "entries");

/// A descriptor's own limit.
pub const LIMIT: FieldName = ("limit", "limit");

/// An entry's key.
pub const KEY: FieldName = ("key", "key");

/// An entry's value.
pub const VALUE: FieldName = ("value", "value");

/// How many hits a limit admits.
pub const REQUESTS_PER_UNIT: FieldName = ("requestsPerUnit", "requests_per_unit");

/// A limit's unit.
pub const UNIT: FieldName = ("unit", "unit");
