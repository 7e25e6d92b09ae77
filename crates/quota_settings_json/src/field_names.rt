//! The fields of settings, each by its two spellings.

use proto_json::FieldName;

/// The domain of settings.
pub const DOMAIN: FieldName = ("domain", "domain");

/// The list of buckets of settings.
pub const BUCKETS: FieldName = ("buckets", "buckets");

/// The attributes that a bucket's settings match.
pub const MATCHES: FieldName = ("match", "match");

/// A bucket's builder, and the builder's own field of the same name.
pub const BUCKET_ID_BUILDER: FieldName = ("bucketIdBuilder", "bucket_id_builder");

/// The time from one report of a bucket to the next.
pub const REPORTING_INTERVAL: FieldName = ("reportingInterval", "reporting_interval");

/// What a bucket does before its first assignment.
pub const NO_ASSIGNMENT_BEHAVIOR: FieldName = ("noAssignmentBehavior", "no_assignment_behavior");

/// What a bucket does after its assignment expired.
pub const EXPIRED_ASSIGNMENT_BEHAVIOR: FieldName = (
    "expiredAssignmentBehavior",
    "expired_assignment_behavior",
);

/// The fixed text of a part.
pub const STRING_VALUE: FieldName = ("stringValue", "string_value");

/// The attribute that gives a part its value.
pub const ATTRIBUTE: FieldName = ("attribute", "attribute");

/// The strategy of either behaviour.
pub const FALLBACK_RATE_LIMIT: FieldName = ("fallbackRateLimit", "fallback_rate_limit");

/// How long an expired behaviour lasts.
pub const EXPIRED_TIMEOUT: FieldName = (
    "expiredAssignmentBehaviorTimeout",
    "expired_assignment_behavior_timeout",
);

/// The object that asks for reuse of the last assignment.
pub const REUSE_LAST_ASSIGNMENT: FieldName = ("reuseLastAssignment", "reuse_last_assignment");

/// The name of a strategy's blanket rule.
pub const BLANKET_RULE: FieldName = ("blanketRule", "blanket_rule");

/// A strategy's limit per unit, and the limit's own field of the same name.
pub const REQUESTS_PER_TIME_UNIT: FieldName = ("requestsPerTimeUnit", "requests_per_time_unit");

/// A strategy's token bucket.
pub const TOKEN_BUCKET: FieldName = ("tokenBucket", "token_bucket");

/// The unit of a limit.
pub const TIME_UNIT: FieldName = ("timeUnit", "time_unit");

/// How many tokens a token bucket has at most.
pub const MAX_TOKENS: FieldName = ("maxTokens", "max_tokens");

/// How many tokens a fill brings.
pub const TOKENS_PER_FILL: FieldName = ("tokensPerFill", "tokens_per_fill");

/// The time from one fill to the next.
pub const FILL_INTERVAL: FieldName = ("fillInterval", "fill_interval");
