use rate_types::{OutOfMemory, Seconds};
use thiserror::Error;

/// Why a check isn't answered. Nothing is charged then.
#[derive(Clone, Copy, Debug, PartialEq, Eq, Error)]
pub enum CheckFault {
    /// There is no cell for the counters of the check: at `moment`, `live` counters have cells whose windows aren't
    /// over, `held` cells are held by others, and `wanted` counters of the check have none.
    #[error("counters full: {live} have cells, {held} cells are held and {wanted} counters have none")]
    CountersFull {
        moment: Seconds,
        live: u32,
        held: u32,
        wanted: u32,
    },
    /// `claims` counters were given cells, and `wanted` more are above what the limiter was made for.
    #[error("claims spent: {claims} counters were given cells and {wanted} have none")]
    ClaimsSpent {
        claims: u64,
        wanted: u32,
    },
    /// There was no memory for the check.
    #[error("out of memory")]
    OutOfMemory,
}

impl From<OutOfMemory> for CheckFault {
    ghost use Rattle.std.specs.Prelude.{◌≡◌};
    ghost use Rattle.rls_core.specs.declared.fault.CheckFault.TheVariants as fault;

    ghost from_gives = { λ _ e. e ≡ fault.OutOfMemory };

    fn from(_: OutOfMemory) -> Self {
        CheckFault::OutOfMemory
    }
}

/// Why a configuration isn't put in force. The version in force stays then.
#[derive(Clone, Copy, Debug, PartialEq, Eq, Error)]
pub enum ReloadFault {
    /// There are `versions` versions, as many as there can be: 1,048,576.
    #[error("there are {versions} versions, and there can be no more")]
    VersionsFull { versions: u32 },
    /// There was no memory for the version.
    #[error("out of memory")]
    OutOfMemory,
}

impl From<OutOfMemory> for ReloadFault {
    ghost use Rattle.std.specs.Prelude.{◌≡◌};
    ghost use Rattle.rls_core.specs.declared.fault.ReloadFault.TheVariants as fault;

    ghost from_gives = { λ _ e. e ≡ fault.OutOfMemory };

    fn from(_: OutOfMemory) -> Self {
        ReloadFault::OutOfMemory
    }
}
