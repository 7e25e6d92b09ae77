//! The fields of pools and of reports, each by its two spellings.

use proto_json::FieldName;

/// The domain of pools, and of reports.
pub const DOMAIN: FieldName = ("domain", "domain");

/// The list of pools.
pub const POOLS: FieldName = ("pools", "pools");

/// The requests of a pool in each of its units.
pub const REQUESTS_PER_TIME_UNIT: FieldName = ("requestsPerTimeUnit", "requests_per_time_unit");

/// The unit of a pool.
pub const TIME_UNIT: FieldName = ("timeUnit", "time_unit");

/// The lifetime of a pool's assignments.
pub const ASSIGNMENT_TIME_TO_LIVE: FieldName = ("assignmentTimeToLive", "assignment_time_to_live");

/// The moment of a line.
pub const AT: FieldName = ("at", "at");

/// The client that reported.
pub const CLIENT: FieldName = ("client", "client");

/// What the client reported.
pub const REPORTS: FieldName = ("reports", "reports");

/// The list of usages of reports.
pub const BUCKET_QUOTA_USAGES: FieldName = ("bucketQuotaUsages", "bucket_quota_usages");

/// The time of a usage.
pub const TIME_ELAPSED: FieldName = ("timeElapsed", "time_elapsed");

/// The allowed requests of a usage.
pub const NUM_REQUESTS_ALLOWED: FieldName = ("numRequestsAllowed", "num_requests_allowed");

/// The denied requests of a usage.
pub const NUM_REQUESTS_DENIED: FieldName = ("numRequestsDenied", "num_requests_denied");
