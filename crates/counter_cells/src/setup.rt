use rate_types::Seconds;

/// What is fixed when the cells are made.
#[derive(Drop)]
pub struct Setup {
    /// How many cells there are: 1 to 1,048,576.
    pub cells: u32,
    /// How many passes are made: 1 to 1,024.
    pub passes: u32,
    /// The first moment of the clock.
    pub start: Seconds,
}
