//! What each event of the scheduler changes by itself, before the facts settle, and which events are refused.
//!
//! `task_table` stands below, with the facts and what is derived from them, and the policy that chooses what is stolen and
//! dropped. The scheduler's core stands above: it lets the facts settle, places ready keys and writes the messages. Each
//! row of the scheduler's table is one function here ([`apply`] calls them), a few changes of a table, so that it costs
//! what it changes; its contract is the definition of `cluster_rules` that it stands for. So the crate carries a part of
//! *part correctness*: an event counts exactly where the table says, under the current attempt, the current copy and the
//! fence. [`takes`] says which events are taken.
//!
//! Terms are those of "Scheduling State" of Dask.distributed's documentation
//! (<https://distributed.dask.org/en/stable/scheduling-state.html>).
#![tactic(auto)]

pub mod answer;
pub mod asking;
pub mod changes;
pub mod choices;
mod leaving;
mod making;
mod rows;
mod taking;

pub use answer::Answer;
pub use changes::{News, Pairs};
pub use choices::{drop_for, steal_for};
pub use leaving::is_above;
pub use making::make;
pub use rows::{Effect, apply};
pub use taking::takes;
