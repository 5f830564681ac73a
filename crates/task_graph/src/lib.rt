//! Graphs of block tasks, each on the blocks of earlier ones: how they grow, which keys a run needs, and in which order
//! these are numbered.
//!
//! It stands on `block_kernels` (the operation of a task) and `cluster_msgs` (the graph as the cluster sees it, values
//! and cones); lowering and its laws stand on it. It carries the promise that each key that is kept has the value that
//! it had under its old number.
#![tactic(auto)]

mod copies;
pub mod culls;
pub mod graph;
pub mod laws;
pub mod limit;
pub mod moves;
pub mod numbers;
pub mod orders;

pub use culls::{cull, cull_into, keep};
pub use graph::{Graph, PushError, Task};
pub use limit::Quantity;
pub use numbers::Renumber;
pub use orders::order;
