//! The fields of a configuration file, each by its two spellings.

use proto_json::FieldName;

/// A file's name, which is ignored; a policy's name; a replaced rule's name.
pub const NAME: FieldName = ("name", "name");

/// A file's domain.
pub const DOMAIN: FieldName = ("domain", "domain");

/// The nodes of a file, or those below a node.
pub const DESCRIPTORS: FieldName = ("descriptors", "descriptors");

/// A node's key.
pub const KEY: FieldName = ("key", "key");

/// A node's value.
pub const VALUE: FieldName = ("value", "value");

/// A node's policy.
pub const RATE_LIMIT: FieldName = ("rateLimit", "rate_limit");

/// Whether a node's rule is a shadow rule.
pub const SHADOW_MODE: FieldName = ("shadowMode", "shadow_mode");

/// A node's flag for detailed metrics, which is ignored.
pub const DETAILED_METRIC: FieldName = ("detailedMetric", "detailed_metric");

/// A policy's unit.
pub const UNIT: FieldName = ("unit", "unit");

/// A policy's limit.
pub const REQUESTS_PER_UNIT: FieldName = ("requestsPerUnit", "requests_per_unit");

/// Whether a policy is unlimited.
pub const UNLIMITED: FieldName = ("unlimited", "unlimited");

/// The rules that a policy replaces.
pub const REPLACES: FieldName = ("replaces", "replaces");
