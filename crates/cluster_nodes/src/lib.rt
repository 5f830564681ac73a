//! The workers and clients of a cluster with their blocks, and what is under way between them and a scheduler.
//!
//! `worker_core` and `gather_client` stand below, with the cores, `message_queues`, with links, what is under way and
//! shelves, and `cluster_rules` and `cluster_laws`, with the world and the blocks that the contracts name. The world of the
//! whole cluster stands above: these nodes with a scheduler and a job. It carries a part of *part correctness*: what one
//! worker or one client does takes the world, and moves the blocks, exactly as the definitions say.
#![tactic(auto)]

mod cores;
mod deliver;
mod gathers;
mod gone;
mod grow;
mod kinds;
pub mod nodes;
mod opening;
mod pops;
mod shelve;
mod turns;

pub use gathers::blocks_here;
pub use nodes::Nodes;
