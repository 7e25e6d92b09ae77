/// What a sleep ended for.
#[derive(Clone, Copy)]
pub enum Woke {
    /// A link may come.
    Listener,
    /// Something happened at the link of this place. Its peer may have ended it.
    Link { place: usize, is_closed: bool },
}
