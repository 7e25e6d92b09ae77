/// What is outside of the program: files, an input, an output, and two listeners of which a server uses one.
#[derive(Drop)]
pub struct Outside<F, S, K, L, P> {
    pub files: F,
    pub source: S,
    pub sink: K,
    /// For threads that wait for their links.
    pub listen: L,
    /// For tasks on one thread.
    pub polls: P,
}
