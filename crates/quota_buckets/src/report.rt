ghost use Rattle.std.specs.Prelude.{◌≡◌, OnOk};
ghost use Rattle.quota_buckets.specs.Sending.{by_moment};

use quota_bucket::Usage;
use quota_settings::BucketId;
use rate_types::{Items, Millis, OutOfMemory};

/// What is reported of a bucket: Envoy's `BucketQuotaUsage`.
#[derive(Drop)]
pub struct Report {
    /// The report moment.
    pub at: Millis,
    pub bucket: BucketId,
    /// The time since the bucket's last report, for the first one since its first request.
    pub elapsed: Millis,
    /// Requests allowed since then. The two counts stop at the greatest u64.
    pub allowed: u64,
    /// Requests denied since then.
    pub denied: u64,
}

impl Report {
    ghost use Rattle.quota_buckets.specs.Sending.{report_from};

    /// A report of a bucket. It takes no memory.
    pub fn of(bucket: BucketId, usage: Usage) -> Report
        ensures { result ≡ report_from bucket usage }
    {
        Report {
            at: usage.at,
            bucket,
            elapsed: usage.elapsed,
            allowed: usage.allowed,
            denied: usage.denied,
        }
    }
}

/// Reports in the order in which they are sent.
pub type Reports = Items<Report>;

/// Puts reports in order of their moments; those of one moment stay by age of bucket.
pub fn order(reports: &mut Vec<Report>) -> Result<(), OutOfMemory>
    ensures { OnOk result (reports.new.items ≡ by_moment reports.old.items) }
{
    reports.sort_by_key(|report| report.at.get())?;
    Ok(())
}
