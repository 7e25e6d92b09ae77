//! Scripts as text, and what each of their lines says.
//!
//! A script is recorded traffic: lines that check, reload or tick. [`Script::read`] finds where the lines of its bytes begin, at most
//! 1,048,576 of them, and keeps the bytes; a line is read when it is run. The promise (`specs/Script.antt`): each line says its event, or
//! its refusal, which is the first of all its faults. A line that checks a request of the form that proxies send is read from its bytes
//! or its tokens, any other one from its JSON value, and says the same.
#![tactic(auto)]

mod field_names;
mod reading;
mod reload;
mod script;
mod usual;
mod within;

pub use script::{Script, ScriptFault};
