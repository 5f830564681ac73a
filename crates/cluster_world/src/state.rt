//! What a world is made of.
use cluster_nodes::Nodes;
use scheduler_core::Sched;
use std::alloc::Global;

/// How a world goes: on, or stopped since its feed failed, or for want of memory.
#[derive(Clone, Copy)]
pub enum Course {
    Going,
    Fed,
    Starved,
}

/// The scheduler and the nodes, with the number of clients. The job and its feed, of any size, stand last.
#[derive(Drop)]
pub struct State<J, B, F> {
    pub alloc: Global,
    pub clients: u32,
    pub course: Course,
    pub events: u64,
    pub sched: Sched,
    pub nodes: Nodes<B>,
    pub job: J,
    pub feed: F,
}
