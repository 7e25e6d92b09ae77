use rate_types::{RuleId, Unit};

/// What a descriptor's look-up finds.
#[derive(Clone, Copy, Debug, PartialEq, Eq, Default)]
pub enum Found {
    #[default]
    /// The descriptor isn't limited.
    NoRule,
    /// The rule counts nothing.
    Unlimited {
        rule: RuleId,
    },
    /// So many hits in each window of the unit. `rule` is None exactly for a descriptor's own limit.
    Limited {
        limit: u32,
        unit: Unit,
        shadow: bool,
        rule: Option<RuleId>,
    },
}
