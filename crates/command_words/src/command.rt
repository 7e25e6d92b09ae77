use rate_types::{Names, Seconds, Word};

/// What the words ask for.
#[derive(Drop)]
pub enum Command {
    /// `lookup` by the configuration files of these names.
    Plain(Names),
    /// `quota`.
    Quota(QuotaJob),
    /// `pool`.
    Pool(PoolJob),
    /// `audit`.
    Audit(AuditJob),
    /// A run.
    Threads(ThreadJob),
    /// `--help`.
    Help,
    /// `--version`.
    Version,
}

/// A replay of recorded streams by quota settings.
#[derive(Drop)]
pub struct QuotaJob {
    /// The name of the settings file.
    pub settings: Word,
    /// The names of the stream files, in order.
    pub streams: Names,
    /// 1 to 64.
    pub workers: u32,
}

/// The answers of a quota server to recorded reports.
#[derive(Drop)]
pub struct PoolJob {
    /// The name of the file of pools.
    pub pools: Word,
    /// The name of the file of events, a report a line.
    pub events: Word,
}

/// The judging of a printed run of a script.
#[derive(Drop)]
pub struct AuditJob {
    /// The names of the configuration files by which it was run, in order.
    pub configs: Names,
    /// The name of the file of the run.
    pub run: Word,
    /// How many workers it had: 1 to 64.
    pub workers: u32,
    /// How many cells: 1 to 1,048,576.
    pub cells: u32,
    /// The moment of its start.
    pub start: Seconds,
    /// Whether overall codes were always OK.
    pub global_shadow: bool,
}

/// A run that may take workers.
#[derive(Drop)]
pub enum ThreadJob {
    /// `drive` by the configuration files of these names.
    Drive {
        configs: Names,
        /// 1 to 64.
        workers: u32,
        /// 1 to 1,048,576.
        cells: u32,
        start: Seconds,
        global_shadow: bool,
        /// Whether the statistics of rules are written behind the totals.
        stats: bool,
    },
    /// `serve`.
    Serve(ServeJob),
    /// `gen`: the made-up load of this number.
    Gen {
        number: u64,
        /// 0 to 1,048,576.
        checks: u32,
    },
}

/// What serves connections.
#[derive(Clone, Copy, Debug, PartialEq, Eq)]
pub enum ServeBy {
    /// So many threads, each of which serves one connection at a time: 1 to 64.
    Workers(u32),
    /// One thread, by so many connections at a time, each a task: 1 to 256.
    Tasks(u32),
}

/// The serving of so many connections by the configuration files of these names.
#[derive(Drop)]
pub struct ServeJob {
    pub configs: Names,
    pub by: ServeBy,
    /// 1 to 1,048,576.
    pub cells: u32,
    /// Whether overall codes are always OK.
    pub global_shadow: bool,
    /// Whether statistics of the rules are kept, and told where they are asked for.
    pub stats: bool,
    /// The port to listen at, 0 for a free one.
    pub port: u16,
    /// 0 to 1,048,576.
    pub connections: u32,
}
