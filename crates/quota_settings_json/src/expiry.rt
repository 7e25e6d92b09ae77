use quota_bucket::AtExpiry;
use rate_types::Millis;

/// What a bucket does after its assignment expired, and how long, if that ends by itself.
#[derive(Clone, Copy)]
pub struct Expiry {
    pub behavior: AtExpiry,
    pub timeout: Option<Millis>,
}
