//! The graph of block tasks that a job is lowered to.
//!
//! It stands on `chunk_layout` (layouts, plans and trees), `block_kernels` (what a task computes), `task_graph` (graphs, their
//! order and their numbers), `lowering_laws` (what a job is lowered to, and what its keys hold) and `npy_region` (regions of
//! files); nothing stands on it yet but the driver `block_table`. It carries that `lower` answers exactly the graph, the names
//! and the saved keys that are defined there, or the first limit that is passed, and that a key that the cluster runs makes
//! what its task says of the blocks of its dependencies and of its input's file.
#![tactic(auto)]

pub mod counts;
pub mod error;
pub mod expression;
pub mod finish;
pub mod folds;
pub mod growing;
pub mod job;
pub mod joins;
pub mod layouts;
pub mod lists;
pub mod making;
pub mod moving;
pub mod nodes;
pub mod parts;
pub mod plain;
pub mod points;
pub mod products;
pub mod reading;
pub mod rechunk;
pub mod sources;
pub mod sums;
pub mod uses;

pub use error::LowerError;
pub use expression::lower;
pub use finish::Lowered;
pub use job::{Elements, JobGraph, law_of_jobs};
