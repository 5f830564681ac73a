//! Runs of jobs by a simulated cluster, over any site.
//!
//! Below it stand `cluster_sim` with the simulation, `block_lowering` with the job that a cluster runs, `job_run`, which lowers,
//! opens and creates, and `command_words`, with what the words of the command say. The program's top call stands above. It carries
//! its share of *value correctness*: that the saved files have exactly the bytes of the sequential evaluation's files, that the
//! printed report is that of the events that the number draws, and for each other end its cause. No file is opened before the
//! job's graph is known to pass no limit, and none is created before the client got all.
#![tactic(auto)]

pub mod ends;
mod lines;
pub mod manned;
mod saving;
mod serving;
pub mod simulated;

pub use ends::SimEnded;
pub use manned::somebody_is_there;
pub use serving::Served;
pub use simulated::{save_simulated, simulate_job};
