//! Printed runs, judged by the definition of a lawful run.
//!
//! `script_run` says which records are a lawful run of a script. [`audit`] answers for the bytes of a printed run its first line that is
//! no record or total, the first clause that doesn't hold, or that all of them hold (`specs/Verdict.antt`, over `script_run`'s own
//! clauses). Texts have no numbers of rules: each status stands with the rule that its descriptor finds (`specs/Ruled.antt`). With one
//! worker a refusal must show the exact numbers of its turn too (`specs/Causes.antt`).
//!
//! Each clause has a function that answers true exactly where it holds. A clause about each line is a [`Fact`], which [`each_line`] tries
//! line after line, or a [`ByEarlier`], where the greatest number of the worker's earlier records decides it. Ticks and installs are
//! counted, a clause about charges sorts copies of them, one about values keeps the last value of each counter, one about refusals counts
//! the counters that checks name: such calls take memory, and answer where there is none.
//!
//! A refusal shows how many counters there are at least. Where a check was refused, the counters of the run are gathered once, in order of
//! the ends of their windows, each with who bound it (`Ended`). A refusal finds the first window that is open by halving, and goes on until
//! so many counters are found. With one worker the numbers are exact: the counters that have cells are kept from refusal to refusal
//! (`BoundCounters`).
//!
//! Limits: a refusal passes over counters that nobody bound, and over those that its worker alone bound in later lines. So it takes long
//! where one of several workers runs nearly all lines. Else a run takes n log n in its lines.
#![tactic(auto)]

mod asked;
mod at_least;
mod auditing;
mod binder;
mod bound;
mod by_end;
mod chain;
mod charge;
mod configs;
mod connectives;
mod counter_by_end;
mod counters;
mod earlier;
mod equal;
mod fact;
mod gathering;
mod installs;
mod judging;
mod kinds;
mod known;
mod ledger;
mod moments;
mod named_counters;
mod of_record;
mod offers;
mod records;
mod refusals;
mod replies;
mod setup;
mod sights;
mod ticks;
mod timely;
mod totals;
mod values;
mod verdict;
mod versions;

pub use auditing::audit;
pub use charge::ShownCharge;
pub use configs::Configs;
pub use earlier::{ByEarlier, each_by_earlier};
pub use fact::{Fact, each_line};
pub use kinds::one_record_per_line;
pub use ledger::{charges_form_ledger, charges_of};
pub use moments::moments_never_fall;
pub use records::records_of;
pub use refusals::{RunParts, refusals_have_causes};
pub use replies::replies_by_rule;
pub use setup::Setup;
pub use sights::sights_lawful;
pub use totals::are_totals;
pub use values::values_never_fall;
pub use verdict::{Clause, Verdict};
pub use versions::{versions_never_fall, versions_numbered};
