/// What an action of the quota server did.
#[derive(Clone, Copy, Debug, PartialEq, Eq)]
pub enum ActionAnswer {
    /// The assignment took effect, and the counts began anew.
    Assigned,
    /// The assignment renewed the lifetime of an equal one.
    Renewed,
    /// The bucket was erased.
    Abandoned,
    /// There was no such bucket.
    NoBucket,
}
