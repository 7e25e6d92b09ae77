use rate_types::{Millis, Unit};

/// What a client is granted of a bucket.
#[derive(Clone, Copy, Debug, PartialEq, Eq)]
pub enum Grant {
    /// So many requests in each unit, for so many milliseconds.
    Share {
        count: u64,
        unit: Unit,
        lifetime: Millis,
    },
    /// The bucket has no pool.
    NoPool,
}

/// The moment is before the present time.
#[derive(Clone, Copy, Debug, PartialEq, Eq)]
pub struct TimeBack {
    /// The present time.
    pub last: Millis,
}
