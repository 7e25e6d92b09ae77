use drive_run::Setup;

/// What is done with a configuration and an input.
#[derive(Clone, Copy)]
pub enum Work {
    /// Each line of the input is looked up.
    Lookup,
    /// The input is run as a script. `stats`: whether the statistics of rules are written behind the totals.
    Drive { setup: Setup, stats: bool },
}
