//! A script whose lines are read as they are run.
//!
//! [`ScriptLines`] has the number of its lines, at most 1,048,576, and reads each by its index: what it reads is what the script says
//! there. Whoever runs a script takes any such, and whoever spells or makes one needs to know nothing of running.
#![tactic(auto)]

mod lines;

pub use lines::ScriptLines;
