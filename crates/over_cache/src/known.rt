ghost use Rattle.std.specs.Prelude.{◌≡◌};
ghost use Rattle.over_cache.specs.Entries.{noted_over};

use counter_cells::Spot;

/// What is known of a counter.
#[derive(Clone, Copy, Debug, PartialEq, Eq, Default)]
pub struct Known {
    /// The counter's cell, and the claim under which the cell is the counter's.
    pub spot: Spot,
    /// The greatest value of the counter that was seen under that claim.
    pub seen: u64,
}

impl Known {
    /// What is known when this is noted over it: the greater value for an equal claim, else the new pair.
    pub(crate) fn noted_over(self, spot: Spot, seen: u64) -> Known
        ensures { result ≡ noted_over self spot seen }
    {
        if self.spot.claim == spot.claim {
            Known {
                spot,
                seen: self.seen.max(seen),
            }
        } else {
            Known { spot, seen }
        }
    }
}
