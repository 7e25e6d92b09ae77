//! Tests of the texts of runs, of the clauses of a lawful run and of verdicts. They stand in a crate of their own, since a crate with tests
//! is proved twice.
#![tactic(auto)]

#[cfg(test)]
mod charges;
#[cfg(test)]
mod clauses;
#[cfg(test)]
mod texts;
#[cfg(test)]
mod verdicts;
