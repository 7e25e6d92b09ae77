//! The numbers of the lines of one script, each drawn once by any number of threads.
//!
//! A [`LineNumbers`] is one word that holds how many numbers were taken. A thread owns a [`Drawer`], and draws the next
//! number by one addition to that word ([`LineNumbers::draw`]): no lock, no memory, and nobody waits.
//!
//! The promise: what one drawer drew are numbers below the number of lines, each greater than those before it; a drawer
//! is told that there are no more only where all numbers were drawn; and whatever the interleaving, the numbers that all
//! drawers together drew are those from 0 on, each drawn once, and all of them once one drawer was told so. None of this
//! names a thread: it is said of drawers, through the words of `specs/Drawers.antt` and `specs/Batches.antt`.
//!
//! [`Batches`] are such numbers drawn a batch at a time: a [`BatchDrawer`] adds once for each batch, and gives its numbers out in order.
//!
//! The limits: 1,024 drawers, fewer than 2 ^ 63 lines. Nothing is said of which drawer gets which number.
#![tactic(auto)]

mod batch_drawer;
mod batch_drawers;
mod batches;
mod drawer;
mod drawers;
mod numbers;
mod rule;

pub use batch_drawer::BatchDrawer;
pub use batches::Batches;
pub use drawer::Drawer;
pub use numbers::LineNumbers;
