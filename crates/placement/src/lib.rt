//! Where a ready key runs, after the scheduling policies of Dask.distributed
//! (<https://distributed.dask.org/en/stable/scheduling-policies.html>).
//!
//! The questions of `cluster_rules::Facts` stand below, so any scheduler that answers them may be asked. The scheduler's
//! core stands above and places each ready key by `place`. The promise: the answer is the candidate with the least rank
//! among all candidates, and there is none exactly where there is no candidate (`place` of the cluster's rules). No call
//! takes memory.
#![tactic(auto)]

mod bytes;
mod candidate;
mod choice;

pub use bytes::missing_bytes;
pub use choice::place;
