ghost use Rattle.std.specs.Prelude.{◌≡◌};

/// A clause of a lawful run.
#[derive(Clone, Copy, Debug, PartialEq, Eq)]
pub enum Clause {
    /// There is one record for each line, of its kind.
    OneRecordPerLine,
    /// The versions are numbered without a gap.
    VersionsNumbered,
    /// Each answered check is the reply of its request by one version.
    RepliesByRule,
    /// Along the records of one worker the versions never fall.
    VersionsNeverFall,
    /// Along the records of one worker the moments never fall, and each has its source.
    MomentsNeverFall,
    /// The charges form one lawful ledger.
    ChargesFormLedger,
    /// What was seen is a sum of that ledger, and the value of a counter never falls along the records of one worker.
    SightsLawful,
    /// Each refusal has its cause.
    RefusalsHaveCauses,
    /// The totals are those of the windows that are open at the end.
    TotalsOfCharges,
}

impl Clause {
    ghost use Rattle.run_audit.specs.Verdict.{number_of};

    /// Its number: 1 to 8, and 14 for the totals.
    pub fn number(self) -> u8
        ensures { result ≡ number_of self }
    {
        match self {
            Clause::OneRecordPerLine => 1,
            Clause::VersionsNumbered => 2,
            Clause::RepliesByRule => 3,
            Clause::VersionsNeverFall => 4,
            Clause::MomentsNeverFall => 5,
            Clause::ChargesFormLedger => 6,
            Clause::SightsLawful => 7,
            Clause::RefusalsHaveCauses => 8,
            Clause::TotalsOfCharges => 14,
        }
    }
}

/// What is said of a printed run.
#[derive(Clone, Copy, Debug, PartialEq, Eq)]
pub enum Verdict {
    /// All clauses hold of so many records.
    Lawful { records: u64 },
    /// The line, from 1, is the first that is no record or total, or stands as a record behind a total, or lacks its line feed.
    Form { line: u64 },
    /// The first clause that doesn't hold.
    Breaks(Clause),
}
