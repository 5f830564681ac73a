//! The links between the nodes of a run.
ghost use Rattle.std.specs.Prelude.{◌≡◌, ◌<◌, ◌+◌, vec_len, IfOk, OnOk};

use cluster_msgs::Label;
use node_links::{Port, Tally, port_pair};
use std::alloc::{AllocError, Global};

/// The ports of a worker, and the count of what is sent to it.
#[derive(Drop)]
pub struct WorkerPorts<B: Drop, L: Label<Block = B>> {
    pub scheduler: Port<B, L>,
    pub peers: Vec<Port<B, L>>,
    pub client: Port<B, L>,
    pub sent: Tally,
}

/// The ports of all nodes: the scheduler's and the client's to the workers, by number, those of these two to each other, and each worker's. Beside them
/// the counts of what is sent to the scheduler and to the client.
#[derive(Drop)]
pub struct AllPorts<B: Drop, L: Label<Block = B>> {
    pub to_workers: Vec<Port<B, L>>,
    pub from_client: Vec<Port<B, L>>,
    pub to_client: Port<B, L>,
    pub to_scheduler: Port<B, L>,
    pub scheduler_sent: Tally,
    pub client_sent: Tally,
    pub workers: Vec<WorkerPorts<B, L>>,
}

/// The two ends of a pair of links, each of which holds so many packets, and the counts of the two nodes.
fn ends<B: Drop, L: Label<Block = B>>(
    alloc: Global,
    capacity: usize,
    left: &Tally,
    right: &Tally,
) -> Result<(Port<B, L>, Port<B, L>), AllocError>
    requires { 0 < capacity }
{
    match port_pair::<B, L>(alloc, capacity, left, right) {
        Ok(ports) => Ok(ports),
        Err(_) => Err(AllocError),
    }
}

/// A pair of links: its near end goes to these, and its far end is given out. With the counts of the two nodes.
fn link<B: Drop, L: Label<Block = B>>(
    alloc: Global,
    capacity: usize,
    near: &mut Vec<Port<B, L>>,
    left: &Tally,
    right: &Tally,
) -> Result<Port<B, L>, AllocError>
    requires { 0 < capacity }
{
    let (left, right) = ends(alloc, capacity, left, right)?;
    near.push(left)?;
    Ok(right)
}

/// Links of the scheduler and of the client to so many workers and to each other, and of each two workers.
///
/// # Errors
/// Where there is no memory.
pub fn wire<B: Drop, L: Label<Block = B>>(
    alloc: Global,
    workers: u32,
    capacity: usize,
) -> Result<AllPorts<B, L>, AllocError>
    requires { 0 < capacity }
    ensures { IfOk result (λ all. vec_len all.workers ≡ workers) }
{
    let scheduler_sent = Tally::new(alloc)?;
    let client_sent = Tally::new(alloc)?;
    let (to_client, to_scheduler) = ends(alloc, capacity, &scheduler_sent, &client_sent)?;
    let mut all = AllPorts {
        to_workers: Vec::new(alloc),
        from_client: Vec::new(alloc),
        to_client,
        to_scheduler,
        scheduler_sent,
        client_sent,
        workers: Vec::new(alloc),
    };
    for _at in 0..workers {
        add_worker(alloc, capacity, &mut all)?;
    }
    Ok(all)
}

/// The links of one worker more.
fn add_worker<B: Drop, L: Label<Block = B>>(
    alloc: Global,
    capacity: usize,
    all: &mut AllPorts<B, L>,
) -> Result<(), AllocError>
    requires { 0 < capacity }
    ensures { OnOk result (vec_len all.new.workers ≡ vec_len all.old.workers + 1) }
{
    let sent = Tally::new(alloc)?;
    let near = &mut all.to_workers;
    let scheduler = link(alloc, capacity, near, &all.scheduler_sent, &sent)?;
    let near = &mut all.from_client;
    let client = link(alloc, capacity, near, &all.client_sent, &sent)?;
    let peers = link_peers(alloc, capacity, all.workers.as_mut_slice(), &sent)?;
    all.workers.push(WorkerPorts {
        scheduler,
        peers,
        client,
        sent,
    })?;
    Ok(())
}

/// Links to each of these workers; the far ends, whose count this is.
fn link_peers<B: Drop, L: Label<Block = B>>(
    alloc: Global,
    capacity: usize,
    before: &mut [WorkerPorts<B, L>],
    sent: &Tally,
) -> Result<Vec<Port<B, L>>, AllocError>
    requires { 0 < capacity }
{
    let mut peers = Vec::new(alloc);
    for at in 0..before.len() {
        let worker = &mut before[at];
        let far = link(alloc, capacity, &mut worker.peers, &worker.sent, sent)?;
        peers.push(far)?;
    }
    Ok(peers)
}
