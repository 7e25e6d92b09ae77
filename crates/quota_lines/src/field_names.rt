//! The fields of a stream line, each by its two spellings.

use proto_json::FieldName;

/// The moment of a line.
pub const AT: FieldName = ("at", "at");

/// A request.
pub const REQUEST: FieldName = ("request", "request");

/// A message of the quota server.
pub const RESPONSE: FieldName = ("response", "response");

/// What happened to the stream.
pub const CONNECTION: FieldName = ("connection", "connection");

/// The attributes of a request.
pub const ATTRIBUTES: FieldName = ("attributes", "attributes");

/// The list of actions of a message.
pub const BUCKET_ACTION: FieldName = ("bucketAction", "bucket_action");

/// The id of an action's bucket.
pub const BUCKET_ID: FieldName = ("bucketId", "bucket_id");

/// The names of an id with their values.
pub const BUCKET: FieldName = ("bucket", "bucket");

/// An assignment.
pub const QUOTA_ASSIGNMENT_ACTION: FieldName = ("quotaAssignmentAction", "quota_assignment_action");

/// An abandonment.
pub const ABANDON_ACTION: FieldName = ("abandonAction", "abandon_action");

/// The lifetime of an assignment.
pub const ASSIGNMENT_TIME_TO_LIVE: FieldName = ("assignmentTimeToLive", "assignment_time_to_live");

/// The strategy of an assignment.
pub const RATE_LIMIT_STRATEGY: FieldName = ("rateLimitStrategy", "rate_limit_strategy");
