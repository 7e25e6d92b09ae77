ghost use Rattle.std.specs.Prelude.{◌≡◌};
ghost use Rattle.rate_types.specs.Units.{seconds_of, unit_rank};
ghost use Rattle.rate_types.specs.UnitNames.{unit_name};

/// The length of a window: Envoy's `RateLimitUnit` without WEEK, MONTH and YEAR. Second is the least.
#[derive(Clone, Copy, Debug, PartialEq, Eq, PartialOrd, Ord, Hash)]
pub enum Unit {
    /// 1 second.
    Second,
    /// 60 seconds.
    Minute,
    /// 3,600 seconds.
    Hour,
    /// 86,400 seconds.
    Day,
}

impl Unit {
    /// The length in seconds: 1, 60, 3,600 or 86,400.
    pub fn seconds(self) -> u64
        ensures { result ≡ seconds_of self }
    {
        match self {
            Unit::Second => 1,
            Unit::Minute => 60,
            Unit::Hour => 3600,
            Unit::Day => 86400,
        }
    }

    /// The name that Envoy's API gives it, in upper case.
    pub fn name(self) -> &'static str
        ensures { result.now ≡ unit_name self }
    {
        match self {
            Unit::Second => "SECOND",
            Unit::Minute => "MINUTE",
            Unit::Hour => "HOUR",
            Unit::Day => "DAY",
        }
    }

    /// The unit's place in the order of units, from 0.
    pub fn rank(self) -> u8
        ensures { result ≡ unit_rank self }
    {
        match self {
            Unit::Second => 0,
            Unit::Minute => 1,
            Unit::Hour => 2,
            Unit::Day => 3,
        }
    }
}
