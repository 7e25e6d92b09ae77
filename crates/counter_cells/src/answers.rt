/// A cell, and the claim under which it is wanted.
#[derive(Clone, Copy, Debug, PartialEq, Eq, Default)]
pub struct Spot {
    pub cell: u32,
    pub claim: u64,
}

/// What a pin found.
#[derive(Clone, Copy, Debug, PartialEq, Eq)]
pub enum Pin {
    /// The gate is open under the claim, and stays so until the pin is given back.
    Pinned,
    /// The pin found the gate so: closed, or with another claim. No pin is held.
    Other { claim: u64, is_open: bool },
}

/// What a reclaim found.
#[derive(Clone, Copy, Debug, PartialEq, Eq)]
pub enum Reclaim {
    /// The cell is taken under the new claim, and closed.
    Claimed,
    /// The gate showed so many pins. Nothing was changed.
    Held { pins: u32 },
}
