use crate::Place;
use thiserror::Error;

/// A refusal: its place in the document and its number.
#[derive(Clone, Debug, Drop, Error)]
#[error("refused {number} at {at}")]
pub struct Refused {
    pub at: Place,
    pub number: u32,
}

/// A refusal in one of several files, which are numbered from 0.
#[derive(Debug, Drop, Error)]
#[error("file {file}: {refused}")]
pub struct At {
    pub file: u64,
    pub refused: Refused,
}
