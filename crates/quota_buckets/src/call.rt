ghost use Rattle.std.specs.Prelude.{◌≡◌};

use quota_bucket::Strategy;
use rate_types::Millis;

/// A call on the buckets, as their history tells it. Requests stand there with their attributes, and what is done to one
/// bucket with its name.
#[derive(Clone, Copy)]
pub enum Call {
    /// Time goes on to this moment.
    Advance(Millis),
    /// The stream to the quota server is up, or isn't.
    SetUp(bool),
    /// A request arrived.
    Request,
    /// A request of the bucket is to be decided.
    Decide,
    /// The server assigned this strategy, for the lifetime if one is given.
    Assign(Option<Millis>, Strategy),
    /// The server abandoned the bucket.
    Abandon,
}

impl Call {
    /// An assignment as a call.
    pub fn assign(lifetime: &Option<Millis>, strategy: &Strategy) -> Call
        ensures { result ≡ Call.Assign lifetime.now strategy.now }
    {
        Call::Assign(*lifetime, *strategy)
    }
}
