//! The core of one worker: it takes events one by one, and answers each with the instructions that the worker's node has
//! to carry out ("Worker State Machine" of Dask.distributed,
//! <https://distributed.dask.org/en/stable/worker-state.html>).
//!
//! A core touches no block, no thread and no connection. `worker_table` stands below, with the facts, stored so that no
//! event passes over all keys, and the questions about them, `fact_rows` and `open_asks`, with marks of peers, `key_sets`,
//! with the keys that a message names, and `cluster_rules`, with the table of events.
//! The worlds of the simulator and the running nodes stand above. It carries a part of *part correctness*: on each event,
//! also one that no honest peer sends, the facts and the instructions go exactly by the table.
#![tactic(auto)]

mod arrivals;
mod asking;
mod moves;
mod push;
mod step;
mod takes;
mod told;
pub mod worker;

pub use crate::worker::WorkerCore;
