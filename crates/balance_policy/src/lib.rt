//! Which task is stolen and which replica is dropped, after "Work Stealing" and "Active Memory Manager" of
//! Dask.distributed's documentation (<https://distributed.dask.org/en/stable/work-stealing.html>,
//! <https://distributed.dask.org/en/stable/active_memory_manager.html>).
//!
//! The questions of `cluster_rules::Facts` and `placement::missing_bytes` stand below, so any scheduler that answers
//! them may be asked. The scheduler's core stands above and asks at its events Balance and Evict. The promise: the answer
//! is the least of all choices, in the order that the cluster's rules say, and there is none exactly where there is no
//! choice. Whoever keeps sets of the keys on workers and of those with several holders hands them in, and no other key is
//! looked at. No call takes memory.
#![tactic(auto)]

mod drop;
mod idle;
mod level;
mod offer;
mod steal;

pub use drop::{next_drop, next_drop_among};
pub use steal::{next_steal, next_steal_among};
