//! The fields of a line of a script.

use proto_json::FieldName;

/// The request that a line checks.
pub const CHECK: FieldName = ("check", "check");

/// The configuration that a line installs, as a list of files.
pub const RELOAD: FieldName = ("reload", "reload");

/// The moment that a line offers.
pub const TICK: FieldName = ("tick", "tick");
