ghost use Rattle.std.specs.Prelude.{◌≡◌};
ghost use Rattle.rate_limiter.specs.Opening.{refusal_for};

use crate::missed::Missed;
use thiserror::Error;

/// Why a check isn't answered without a lock and without memory. Nothing is charged then, and no pin is left.
/// [`Limiter::check`](crate::Limiter::check) answers such a check.
#[derive(Clone, Copy, Debug, PartialEq, Eq, Error)]
pub enum NotOpen {
    /// A newer version than the pass's is installed: the newest that was loaded has this number.
    #[error("behind: version {version} is installed")]
    Behind { version: u32 },
    /// The pass doesn't know the counter of the descriptor at this place, in the windows of its moment. It knows those of the
    /// descriptors before it.
    #[error("unknown: descriptor {place} has a counter that the pass doesn't know")]
    Unknown { place: u32 },
    /// The cell under which the pass knows the counter of the descriptor at this place is another counter's by now: it was found
    /// under this claim.
    #[error("reclaimed: the cell of descriptor {place} has the claim {claim}")]
    Reclaimed { place: u32, claim: u64 },
}

impl NotOpen {
    pub(crate) fn of(missed: Missed) -> NotOpen
        ensures { result ≡ refusal_for missed }
    {
        match missed {
            Missed::Unknown { place } => NotOpen::Unknown { place },
            Missed::Reclaimed { place, claim } => NotOpen::Reclaimed { place, claim },
        }
    }
}
