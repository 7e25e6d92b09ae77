use rate_types::{Items, Seconds};

/// One count for each cell. Contracts see it as the list of the counts.
pub type Counts = Items<u64>;

/// What is left of cells that are closed.
#[derive(Drop)]
pub struct ClosedCells {
    /// The clock's last moment.
    pub moment: Seconds,
    pub counts: Counts,
}
