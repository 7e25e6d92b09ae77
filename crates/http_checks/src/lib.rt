//! The checks of connections, answered by a limiter of many workers.
//!
//! [`PassChecks`] is a pass of a limiter with the limiter: each check that a connection asks for is one step of the pass, answered
//! or refused with its cause (`specs/Checker.antt`), at the moment that it offers or a later one. So the checks of a connection, and
//! of the connections that one pass serves one after the other, are steps of that pass in order; [`PassChecks::reload`] puts a new
//! configuration in force between them.
//!
//! [`LimiterParts`] makes a limiter that serves connections, of one configuration, with its passes (`specs/Made.antt`).
//! At the end [`close_served`] closes the limiter. What it then tells of all passes together is `AreLawfulDeeds`
//! (`specs/Versions.antt`): each reply is that of one version, versions and moments never fall along a pass, each moment was offered,
//! each refusal has its cause, and the charges of all replies are one lawful ledger with lawful sights.
#![tactic(auto)]

mod close;
mod parts;
mod pass_checks;
mod passes;

pub use close::close_served;
pub use parts::{LimiterParts, SERVED_CLAIMS};
pub use pass_checks::PassChecks;
pub use passes::{checks_of, passes_of};
