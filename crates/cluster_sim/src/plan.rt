//! What is simulated.
use cluster_msgs::Script;

/// How many workers join at first, with how many threads each, and what the script makes happen later.
#[derive(Drop)]
pub struct SimPlan {
    pub workers: u32,
    pub threads: u32,
    pub script: Script,
}
