use quota_bucket::Strategy;
use rate_types::Millis;

/// What becomes of a bucket by the quota server.
#[derive(Clone, Copy, Debug, PartialEq, Eq)]
pub enum QuotaAction {
    /// It is assigned this strategy; without a lifetime the assignment doesn't expire.
    Assign {
        lifetime: Option<Millis>,
        strategy: Strategy,
    },
    /// It is abandoned.
    Abandon,
}
