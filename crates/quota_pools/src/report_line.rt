ghost use Rattle.std.specs.Prelude.{◌≡◌};

use quota_settings::BucketId;
use rate_types::{Items, Millis, Text};
use std::marker::Model;

/// The buckets of usages, in order.
pub type BucketIds = Items<BucketId>;

/// What a client reports: Envoy's `RateLimitQuotaUsageReports`, of which the domain and the buckets are kept.
#[derive(Drop)]
pub struct UsageReports {
    domain: Text,
    buckets: BucketIds,
}

impl Model for UsageReports {
    ghost use Rattle.quota_pools.specs.Reports.{ClientReports};

    ghost Value = { ClientReports };

    ghost view = { λ r. record { domain = r.domain; buckets = r.buckets } };
}

impl UsageReports {
    /// Reports of this domain, with these buckets. It takes no memory.
    pub fn of(domain: Text, buckets: BucketIds) -> UsageReports
        ensures { result ≡ record { domain = domain; buckets = buckets } }
    {
        UsageReports { domain, buckets }
    }

    /// The domain, which may be empty.
    pub fn domain(&self) -> &Text
        ensures { result.now ≡ self.now.domain }
    {
        &self.domain
    }

    /// The bucket of each usage, in order.
    pub fn buckets(&self) -> &[BucketId]
        ensures { result.now ≡ self.now.buckets }
    {
        self.buckets.items()
    }
}

/// A line: the reports of a client at a moment.
#[derive(Drop)]
pub struct ReportLine {
    at: Millis,
    client: Text,
    reports: UsageReports,
}

impl Model for ReportLine {
    ghost use Rattle.quota_pools.specs.Reports.{OneReport};

    ghost Value = { OneReport };

    ghost view = { λ l. record { at = l.at; client = l.client; reports = l.reports } };
}

impl ReportLine {
    /// The reports of this client at this moment. It takes no memory.
    pub fn of(at: Millis, client: Text, reports: UsageReports) -> ReportLine
        ensures { result ≡ record { at = at; client = client; reports = reports } }
    {
        ReportLine {
            at,
            client,
            reports,
        }
    }

    /// The moment of the line.
    pub fn at(&self) -> Millis
        ensures { result ≡ self.now.at }
    {
        self.at
    }

    /// The client.
    pub fn client(&self) -> &Text
        ensures { result.now ≡ self.now.client }
    {
        &self.client
    }

    /// What it reported.
    pub fn reports(&self) -> &UsageReports
        ensures { result.now ≡ self.now.reports }
    {
        &self.reports
    }
}
