//! The nodes of a cluster but its scheduler.
use cluster_msgs::{GraphShape, Message, Sequence};
use fact_rows::{Grid, Row};
use gather_client::ClientCore;
use message_queues::{Links, Shelf, Transits};
use std::alloc::Global;
use std::sync::Arc;
use worker_core::WorkerCore;

/// The workers and clients, who is alive, what is spilled, what is under way, and where the blocks stand.
///
/// Each list has a member for each number of a worker or a client, from 0, which stands for nobody.
#[derive(Drop)]
pub struct Nodes<B> {
    pub alloc: Global,
    pub shape: GraphShape,
    pub clients: Vec<ClientCore>,
    pub workers: Vec<WorkerCore>,
    pub alive: Row<bool>,
    pub spilled: Grid<bool>,
    /// Whether a key may be marked as spilled that its worker doesn't count: then each turn looks at all keys.
    pub strays: bool,
    pub down: Links<Message>,
    pub up: Links<Message>,
    pub to_client: Links<Message>,
    pub from_client: Links<Message>,
    pub requests: Transits<B>,
    pub answers: Transits<B>,
    /// The blocks of workers, by worker and key.
    pub held: Shelf<Arc<B>>,
    /// The blocks that the task of a key took when it last started at a worker.
    pub inputs: Shelf<Sequence<Arc<B>>>,
    /// The blocks that clients got.
    pub got: Shelf<Arc<B>>,
}
