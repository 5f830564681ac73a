//! The facts of one worker, with what is asked of them after each event kept at hand.
//!
//! A [`WorkerTable`] answers as the facts of `worker_facts` do, and makes no pass over all keys for it: the keys that run,
//! that could start, that are to be fetched and that nobody is known to hold are sets, which each change of a fact keeps
//! up to date at the keys that it touches. `worker_facts` stands below, with the facts, and `key_sets`, with the sets.
//! `worker_core` stands above, and makes the events of these calls. It carries a part of *part correctness*: each answer is
//! the one that the definitions give of the facts.
#![tactic(auto)]

mod links;
mod plan;
mod questions;
pub mod table;

pub use table::WorkerTable;
