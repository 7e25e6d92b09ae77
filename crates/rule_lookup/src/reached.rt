use crate::Found;

/// What a node says, and the index of the level below it.
#[derive(Clone, Copy)]
pub struct Reached {
    pub found: Found,
    pub below: usize,
}
