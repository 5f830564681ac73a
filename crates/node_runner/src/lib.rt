//! Runs a job by a cluster of threads: one scheduler, some workers and one client, in one process.
//!
//! Below it stand `node_states`, with what each node does in its turns, and `driver_rows`, with the drivers that give the turns. The runs of whole
//! jobs stand above. It carries the promise that whatever the threads do, each block that goes to the sink is the value of its key, each history is
//! that of its node's core, and each other end has its cause.
#![tactic(auto)]

mod closing;
mod ends;
mod label;
mod making;
mod plan;
mod run;
mod serving;
mod sink;
mod tasks;
mod watching;
mod wiring;

pub use ends::{Ends, Histories, RunStatus};
pub use label::{Fed, RunLabel, RunName};
pub use plan::RunPlan;
pub use run::run_cluster;
pub use sink::Sink;
