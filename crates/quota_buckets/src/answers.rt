use crate::report::Report;
use quota_settings::BucketId;
use rate_types::Millis;

/// Why time doesn't go on. Nothing changed then.
#[derive(Clone, Copy, Debug, PartialEq, Eq)]
pub enum AdvanceFault {
    /// The moment is before `last`, the present time.
    TimeBack { last: Millis },
    /// There was no memory for the reports that fall due.
    OutOfMemory,
}

/// What an assignment did.
#[derive(Clone, Copy, Debug, PartialEq, Eq)]
pub enum Assigned {
    /// It took effect, and the counts begin anew.
    New,
    /// It renewed the lifetime of an equal one, whose effect and counts go on.
    Renewed,
}

/// There is no bucket of this name.
#[derive(Clone, Copy, Debug, PartialEq, Eq)]
pub struct NoBucket;

/// The answer to a request.
#[derive(Drop)]
pub struct Decided {
    /// The bucket of the request; None where no settings fit it, and it is allowed.
    pub bucket: Option<BucketId>,
    pub allowed: bool,
    /// The first report of a bucket that this request made, while the stream is up.
    pub report: Option<Report>,
}
