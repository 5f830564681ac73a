//! Rows of the machines' tables, computed.
//!
//! `cluster_rules` stands below, with the definitions; nothing stands above. Each row is the contract of a function with
//! an empty body: what the definitions make of a small world, with values that were worked out by hand.
#![tactic(auto)]

pub mod client_rows;
pub mod sched;
pub mod worker_rows;
pub mod world_rows;
