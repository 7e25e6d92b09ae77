/// What stands in the queue and is taken.
#[derive(Drop)]
pub enum Taken<N: Drop> {
    /// A link, under its number.
    Link { number: u32, link: N },
    /// No link comes any more.
    End,
}
