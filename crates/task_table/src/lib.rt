//! The scheduler's facts with what is derived from them, kept up to date: an event costs what it changes.
//!
//! `sched_facts` stands below, with the stored facts and their sums, `spread_flags` with flags that spread along links,
//! and `standing` with what four such flags say of the facts. The rows of the scheduler's table and its core stand above.
//! A [`TaskTable`] takes one [`Change`] of one fact at a time and settles it at once, so each question is answered by the
//! facts as they are, without a premise and without memory. It remembers which keys were touched, so that nobody above
//! visits all keys. It carries a part of *part correctness*: each stored answer is what the definitions derive.
#![tactic(auto)]

mod answers;
mod blame;
mod change;
mod levels;
mod lists;
mod marks;
mod parts;
mod queues;
mod rows;
mod table;

pub use change::Change;
pub use table::TaskTable;
