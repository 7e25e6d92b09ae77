ghost use Rattle.std.specs.Prelude.{◌≡◌};

use crate::quota_action::QuotaAction;
use quota_settings::BucketId;
use rate_types::Items;
use std::marker::Model;

/// An action of the quota server on a bucket: Envoy's `BucketAction` of a `RateLimitQuotaResponse`.
#[derive(Drop)]
pub struct BucketAction {
    bucket: BucketId,
    action: QuotaAction,
}

/// The actions of a message of the quota server, in order.
pub type BucketActions = Items<BucketAction>;

impl Model for BucketAction {
    ghost use Rattle.quota_lines.specs.Actions.{OneAction};

    ghost Value = { OneAction };

    ghost view = { λ a. record { bucket = a.bucket; action = a.action } };
}

impl BucketAction {
    /// This action on this bucket. It takes no memory.
    pub fn of(bucket: BucketId, action: QuotaAction) -> BucketAction
        ensures { result ≡ record { bucket = bucket; action = action } }
    {
        BucketAction { bucket, action }
    }

    /// The id of the bucket.
    pub fn bucket(&self) -> &BucketId
        ensures { result.now ≡ self.now.bucket }
    {
        &self.bucket
    }

    /// What becomes of it.
    pub fn action(&self) -> QuotaAction
        ensures { result ≡ self.now.action }
    {
        self.action
    }
}
