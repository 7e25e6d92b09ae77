/// What a call that doesn't wait came to.
#[derive(Drop)]
pub enum Polled<T> {
    /// Its answer.
    Ready(T),
    /// It would wait.
    Pending,
}
