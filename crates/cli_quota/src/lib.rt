//! The commands `quota` and `pool`: recorded streams replayed by settings, and recorded reports answered by pools.
//!
//! [`replayed`] answers the text of the output of each stream by a file of settings, whatever the number of workers, and [`write_texts`]
//! writes their lines, each by one call (`specs/Quota.antt`, `Replayed.antt`). [`answered`] answers the lines for reports by a file of
//! pools, whose shares fit these pools, and [`write_answers`] writes them (`specs/Pooled.antt`). The promise: the output is that of the
//! bytes of the files, and each refusal has its cause in them (`specs/Parts.antt`); all of it is made before the first line is written.
#![tactic(auto)]

mod output_lines;
mod pool;
mod quota;

pub use pool::{answered, write_answers};
pub use quota::{replayed, write_texts};
