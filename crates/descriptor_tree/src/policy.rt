use rate_types::Unit;

/// What a rule does with a request.
#[derive(Clone, Copy, Debug, PartialEq, Eq)]
pub enum Policy {
    /// At most `limit` hits in each window of this unit.
    Limited { limit: u32, unit: Unit },
    /// No limit: nothing is counted.
    Unlimited,
}
