//! The facts of one worker, stored by key, and the questions about them ("Worker State Machine" of Dask.distributed,
//! <https://distributed.dask.org/en/stable/worker-state.html>).
//!
//! A [`WorkerTable`] keeps what the scheduler gave the worker, what it holds, runs and asks for. Each call changes one
//! fact, or answers one question, as the state of a key. `fact_rows` stands below, with the rows, `open_asks`, with the
//! open asks, and `cluster_rules`, with the words of the contracts. `worker_table` stands above, and keeps at hand what is asked after each event. It carries a
//! part of *part correctness*: what a worker is said to do is read off its facts, as they are defined.
#![tactic(auto)]

mod marks;
mod questions;
pub mod table;

pub use table::WorkerTable;
