/// Why the counters of a check aren't pinned without a turn at the directory.
#[derive(Clone, Copy, Debug, PartialEq, Eq)]
pub enum Missed {
    /// The pass doesn't know the counter of the descriptor at the place.
    Unknown { place: u32 },
    /// The cell of that descriptor's counter was found under the claim, which is another one.
    Reclaimed { place: u32, claim: u64 },
}
