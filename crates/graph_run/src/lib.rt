//! Jobs run in one thread, key by key.
//!
//! It stands on the jobs of `cluster_msgs` alone, and the runs of jobs in the calling thread stand on it. It carries its share
//! of *value correctness*: each block that is made is the value of its key, and where a key meets a zero divisor, all keys
//! before it have values, both where the feed tells what it holds and over whatever files hold that gave what it read. A block
//! is let go after its last use, so that no more blocks live than the graph's order needs.
#![tactic(auto)]

mod evaluation;
mod running;
mod slots;
mod traced;
mod uses;

pub use evaluation::{Evaluation, Step};
pub use traced::TracedJob;
