/// Why a connection ended.
#[derive(Clone, Copy, Debug, PartialEq, Eq)]
pub enum LinkCause {
    /// Behind an answer that closes.
    Closed,
    /// The peer ended it between two requests.
    Ended,
    /// The peer ended it inside a request.
    CutShort,
    /// A read failed.
    ReadFault,
    /// A write failed.
    WriteFault,
}

/// How a connection ended, with the number of answers that were wholly written.
#[derive(Clone, Copy, Debug, PartialEq, Eq)]
pub struct LinkEnd {
    pub cause: LinkCause,
    pub answers: u32,
}
