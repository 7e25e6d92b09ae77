//! Many connections on one thread, each a task that is polled: none waits because another is open.
//!
//! [`serve_tasks`] accepts links and runs each as far as it goes, as often as its link tells that something happened. Its promise
//! (`specs/Served.antt`, `specs/Service.antt`): each link that was accepted was served once, with the checks that were made for it in the
//! order of its requests, shut and given back under its number; the checks of all links, in the order in which they were made, lead from
//! what the checker was to what it is. A sleep begins only while each connection waits at its link since its last poll (`Parked`), and the
//! last accept waited, or none is to be made (`Accepting`).
//!
//! The limits: links stay in memory until all were served. In one round at most 16 are accepted. Several threads may each have a
//! listener, a checker and links of their own.
#![tactic(auto)]

mod accepting;
mod giving;
mod links;
mod numbers;
mod rounds;
mod running;
mod serving;
mod tasks_served;

pub use accepting::{AcceptWaits, Accepting};
pub use links::Links;
pub use running::{Parked, Ran, ServedTask, run_task};
pub use serving::serve_tasks;
pub use tasks_served::TasksServed;
