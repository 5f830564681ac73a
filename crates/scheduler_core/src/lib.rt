//! The scheduler's core: it takes events one by one, and answers each with what is to be sent ("Scheduling State" of
//! Dask.distributed, <https://distributed.dask.org/en/stable/scheduling-state.html>).
//!
//! A core touches no block, no thread and no connection. `task_table` stands below, with the facts and what is derived from
//! them, `sched_changes`, with the rows of the table of events, the policy `placement`, and `cluster_laws`, with what holds
//! of the facts after every event. The worlds of the simulator and the running nodes stand above. It carries a part of
//! *part correctness*: on each event, also one that no honest peer sends, the facts and the messages go exactly by the
//! table; and the scheduler's share of *schedule safety*, as facts of its type.
//!
//! An event costs what it changes. Its row changes a few facts, and the table notes which keys that touches. Settling,
//! placing and the messages then visit the touched keys and those that wait for a worker, and no others: of a key that
//! nothing touched since the facts had settled there is nothing to take away and nothing to tell.
#![tactic(auto)]

mod append;
mod asked;
mod clients;
mod copies;
mod event;
mod lost;
mod news;
mod phase;
mod placing;
mod posts;
pub mod sched;
mod settling;
mod tasks;
mod walk;
mod workers;

pub use sched::Sched;
