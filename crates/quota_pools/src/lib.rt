//! Pools of quota, and the reports of the clients that share them: what their JSON reads as.
//!
//! A pools file says how many requests a unit each bucket has for all clients together, and how long a share of it lives
//! (`specs/ReadPools.antt`). A report line says that a client reported its usage at a moment (`specs/ReadReport.antt`): Envoy's
//! `RateLimitQuotaUsageReports` with the moment and the client beside it. `read_pools` and `read_report_line` answer what the
//! bytes spell, or the first of all its faults with its place and its number.
//!
//! Limits: those of `proto_json`; a moment and a lifetime are at most 1,000,000,000 seconds; a bucket has at most 32 names.
//! That moments don't fall from line to line, and that the domain of a report is the pools', is no matter of one line.
#![tactic(auto)]

mod field_names;
mod pool;
mod pool_places;
mod pools;
mod pools_file;
mod read_pool;
mod read_usage;
mod report_line;
mod report_reading;

pub use pool::Pool;
pub use pool_places::PoolPlaces;
pub use pools::{PoolList, Pools};
pub use pools_file::read_pools;
pub use report_line::{BucketIds, ReportLine, UsageReports};
pub use report_reading::read_report_line;
