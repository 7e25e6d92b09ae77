use crate::Statuses;
use rate_types::{Items, Refused, Seconds};
use std::marker::Model;

/// What came of a line of a script.
#[derive(Drop)]
pub enum Outcome {
    /// A check was answered.
    Checked(Statuses),
    /// A tick offered this moment.
    Ticked(Seconds),
    /// A configuration was installed, whose number is the record's version.
    Installed,
    /// The line was refused and had no other effect.
    Bad(Refused),
    /// A check was refused: `live` counters have cells, `held` cells are held, and `wanted` counters have none.
    Full { live: u32, held: u32, wanted: u32 },
    /// A check was refused: so many claims were made, and `wanted` counters have none.
    Spent { claims: u64, wanted: u32 },
    /// A configuration was refused: there are so many versions.
    VersionsFull { versions: u32 },
}

/// What came of a line, at which moment and by which version and worker. Lines are numbered from 1, workers and
/// versions from 0.
#[derive(Drop)]
pub struct Record {
    pub line: u32,
    pub worker: u32,
    pub version: u32,
    pub moment: Seconds,
    pub outcome: Outcome,
}

impl Model for Record {
    ghost use Rattle.reply_text.specs.Shown.{Shown};

    ghost Value = { Shown };

    ghost view = { λ r. record { line = r.line; worker = r.worker; version = r.version; moment = r.moment; outcome = r.outcome } };
}

/// A list of records.
pub type Records = Items<Record>;
