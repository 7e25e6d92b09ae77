use rate_types::Seconds;

/// How a script was run.
#[derive(Clone, Copy, Debug)]
pub struct Setup {
    pub workers: u32,
    pub cells: u32,
    pub start: Seconds,
    /// Overall codes are always OK; the statuses aren't changed by it.
    pub global_shadow: bool,
}
