//! The nodes of a run, each in its cell.
ghost use Rattle.std.specs.Prelude.{◌≡◌, ◌+◌, ◌<◌, ◌≤◌, ◌++◌, ◌∷◌, [], map, true, Ok, Some, vec_len, IfOk};
ghost use Rattle.cluster_msgs.specs.Shape.{deps_of};
ghost use Rattle.gather_client.specs.CoreState.{client_facts};
ghost use Rattle.scheduler_core.specs.Cores.{facts};
ghost use Rattle.worker_core.specs.Core.{facts as worker_facts};
ghost use Rattle.turn_cell.specs.Rows.{berth_of};
ghost use Rattle.node_states.specs.Fitting.{ClientFits, SchedFits};
ghost use Rattle.node_states.specs.Opening.{IsOpening};
ghost use Rattle.node_runner.specs.Making.{AreMade};
ghost use Rattle.node_runner.specs.Naming.{run_facts};
ghost use Rattle.node_runner.specs.Runs.{IsFirstScheduler, IsFirstWorker, IsFirstClient, numbers};

use crate::label::{Fed, RunLabel, RunName};
use crate::plan::RunPlan;
use crate::wiring::{AllPorts, WorkerPorts, wire};
use cluster_msgs::{GraphShape, JobSpec, KeyList, Label};
use gather_client::ClientCore;
use node_links::{Port, Tally};
use node_states::{
    BlockStore, ClientNode, Feeds, GatheringCore, Plan, RunGraph, SchedulerLinks, SchedulerNode,
    SchedulingCore, Why, WorkerLinks, WorkerNode, WorkingCore,
};
use scheduler_core::Sched;
use std::alloc::{AllocError, Global};
use turn_cell::{Kept, Made};
use worker_core::WorkerCore;

/// The number of the client.
const CLIENT: u32 = 1;

/// The cells of a run, each of which has so many parts.
pub struct Rows<L, S, W, C>
where
    L: Label,
    S: Kept<Block = L::Block>,
    W: Kept<Block = L::Block>,
    C: Kept<Block = L::Block>,
{
    pub scheduler: Made<S, L>,
    pub workers: Made<W, L>,
    pub clients: Made<C, L>,
}

type RowsOf<B, L, F, S> = Rows<L, SchedulerNode<B, L>, WorkerNode<B, L, F, S>, ClientNode<B, L>>;

/// Makes the cells of all nodes, with so many parts each. False where there is no memory for one of them.
pub fn make_rows<J: JobSpec, K: RunName<J>, S: BlockStore<J::Block, RunLabel<J, K>>>(
    alloc: Global,
    graph: &GraphShape,
    plan: &RunPlan,
    wanted: &KeyList,
    feeds: Vec<Vec<Fed<J, K>>>,
    stores: Vec<S>,
    parts: u32,
) -> (RowsOf<J::Block, RunLabel<J, K>, Fed<J, K>, S>, bool)
    requires graph { (run_facts J.graph J.operation J.key_dims J.block_dims K.told K.allowed K.job).deps ≡ deps_of graph.now }
    requires allowed { (run_facts J.graph J.operation J.key_dims J.block_dims K.told K.allowed K.job).allowed ≡ plan.now.allowed }
    requires capacity { 0 < plan.now.capacity }
    requires saturation { (1 ≤ plan.now.saturation) × (plan.now.saturation ≤ 1000) }
    requires numbers { numbers plan.now ≤ 1024 }
    requires parts { 0 < parts }
    ensures parts { (result.0.scheduler.parts ≡ parts) × (result.0.workers.parts ≡ parts) × (result.0.clients.parts ≡ parts) }
    ensures scheduler { result.1 ≡ true → AreMade (λ k s. IsFirstScheduler graph.now plan.now s.history.book.kept) 1
        (map (λ p. berth_of p.seat) result.0.scheduler.passes.items) }
    ensures workers { result.1 ≡ true → AreMade (λ k s. IsFirstWorker graph.now plan.now.threads (k + 1) s.history.book.kept.id (worker_facts s.history.book.kept.core))
        (numbers plan.now) (map (λ p. berth_of p.seat) result.0.workers.passes.items) }
    ensures client { result.1 ≡ true → AreMade (λ k s. IsFirstClient graph.now s.book.kept.id (client_facts s.book.kept.core)) 1
        (map (λ p. berth_of p.seat) result.0.clients.passes.items) }
{
    let rows = Rows {
        scheduler: Made::new(alloc, parts),
        workers: Made::new(alloc, parts),
        clients: Made::new(alloc, parts),
    };
    match wire(alloc, plan.numbers(), plan.capacity) {
        Ok(ports) => fill(alloc, graph, plan, wanted, feeds, stores, rows, ports),
        Err(_) => (rows, false),
    }
}

/// Adds the cells of all nodes, which have these ports. False where there is no memory for one of them.
fn fill<B: Drop, L: Label<Block = B>, F: Drop, S: BlockStore<B, L>>(
    alloc: Global,
    graph: &GraphShape,
    plan: &RunPlan,
    wanted: &KeyList,
    feeds: Vec<Vec<F>>,
    stores: Vec<S>,
    rows: RowsOf<B, L, F, S>,
    ports: AllPorts<B, L>,
) -> (RowsOf<B, L, F, S>, bool)
    requires graph { L.facts.deps ≡ deps_of graph.now }
    requires allowed { L.facts.allowed ≡ plan.now.allowed }
    requires saturation { (1 ≤ plan.now.saturation) × (plan.now.saturation ≤ 1000) }
    requires few { vec_len ports.workers ≤ 1024 }
    requires empty { (rows.scheduler.passes.items ≡ []) × (rows.workers.passes.items ≡ []) × (rows.clients.passes.items ≡ []) }
    ensures scheduler_parts { result.0.scheduler.parts ≡ rows.scheduler.parts }
    ensures worker_parts { result.0.workers.parts ≡ rows.workers.parts }
    ensures client_parts { result.0.clients.parts ≡ rows.clients.parts }
    ensures scheduler { result.1 ≡ true → AreMade (λ k s. IsFirstScheduler graph.now plan.now s.history.book.kept) 1
        (map (λ p. berth_of p.seat) result.0.scheduler.passes.items) }
    ensures workers { result.1 ≡ true → AreMade (λ k s. IsFirstWorker graph.now plan.now.threads (k + 1) s.history.book.kept.id (worker_facts s.history.book.kept.core))
        (vec_len ports.workers) (map (λ p. berth_of p.seat) result.0.workers.passes.items) }
    ensures client { result.1 ≡ true → AreMade (λ k s. IsFirstClient graph.now s.book.kept.id (client_facts s.book.kept.core)) 1
        (map (λ p. berth_of p.seat) result.0.clients.passes.items) }
{
    let Rows {
        scheduler,
        workers,
        clients,
    } = rows;
    let AllPorts {
        to_workers,
        from_client,
        to_client,
        to_scheduler,
        scheduler_sent,
        client_sent,
        workers: ports,
    } = ports;
    let (scheduler, one) = add_scheduler(
        alloc,
        graph,
        plan,
        scheduler,
        to_workers,
        to_client,
        scheduler_sent,
    );
    let (clients, two) = add_client(
        alloc,
        graph,
        wanted,
        clients,
        to_scheduler,
        from_client,
        client_sent,
    );
    let (workers, three) = add_workers(alloc, graph, plan.threads, workers, ports, feeds, stores);
    (
        Rows {
            scheduler,
            workers,
            clients,
        },
        one && two && three,
    )
}

/// Adds a cell with this state, if it was made. False where it wasn't, or there is no memory for the cell.
fn add_made<S: Kept + Drop, L: Label<Block = S::Block>>(
    alloc: Global,
    row: Made<S, L>,
    made: Result<S, AllocError>,
) -> (Made<S, L>, bool)
    requires empty { IfOk made (λ s. S.entries s ≡ []) }
    requires fits { IfOk made (λ s. S.fits L.facts s) }
    ensures parts { result.0.parts ≡ row.parts }
    ensures added { result.1 ≡ true → (s : _) × (made ≡ Ok s) × (p : _) × (result.0.passes.items ≡ row.passes.items ++ p ∷ []) × (p.seat.me.0.start ≡ Some s) }
{
    match made {
        Ok(state) => row.add(alloc, state),
        Err(_) => (row, false),
    }
}

/// Adds the scheduler's cell. False where there is no memory.
fn add_scheduler<B: Drop, L: Label<Block = B>>(
    alloc: Global,
    graph: &GraphShape,
    plan: &RunPlan,
    row: Made<SchedulerNode<B, L>, L>,
    workers: Vec<Port<B, L>>,
    client: Port<B, L>,
    sent: Tally,
) -> (Made<SchedulerNode<B, L>, L>, bool)
    requires graph { L.facts.deps ≡ deps_of graph.now }
    requires allowed { L.facts.allowed ≡ plan.now.allowed }
    requires saturation { (1 ≤ plan.now.saturation) × (plan.now.saturation ≤ 1000) }
    requires empty { row.passes.items ≡ [] }
    ensures parts { result.0.parts ≡ row.parts }
    ensures made { result.1 ≡ true → AreMade (λ k s. IsFirstScheduler graph.now plan.now s.history.book.kept) 1 (map (λ p. berth_of p.seat) result.0.passes.items) }
{
    let made = make_scheduler(alloc, graph, plan, workers, client, sent);
    add_made(alloc, row, made)
}

/// The scheduler's node.
fn make_scheduler<B: Drop, L: Label<Block = B>>(
    alloc: Global,
    graph: &GraphShape,
    plan: &RunPlan,
    workers: Vec<Port<B, L>>,
    client: Port<B, L>,
    sent: Tally,
) -> Result<SchedulerNode<B, L>, AllocError>
    requires graph { L.facts.deps ≡ deps_of graph.now }
    requires allowed { L.facts.allowed ≡ plan.now.allowed }
    requires saturation { (1 ≤ plan.now.saturation) × (plan.now.saturation ≤ 1000) }
    ensures first { IfOk result (λ s. IsFirstScheduler graph.now plan.now s.history.book.kept) }
    ensures fits { IfOk result (λ s. SchedFits L.facts (facts s.history.book.core.core)) }
    ensures empty { IfOk result (λ s. s.history.book.entries ≡ []) }
{
    let links = SchedulerLinks::new(alloc, workers, just(alloc, client)?, sent);
    let core = scheduling_core(alloc, graph, plan)?;
    SchedulerNode::new(alloc, core, links)
}

/// The scheduler's core, with what its node goes by.
#[tactic(auto, using(crate::proofs::Starts::opening_of, crate::proofs::Starts::graph_of, crate::proofs::Starts::allowed_of, crate::proofs::Starts::first_of, node_states::proofs::SchedLaw::opening_fits))]
fn scheduling_core<L: Label>(
    alloc: Global,
    graph: &GraphShape,
    plan: &RunPlan,
) -> Result<SchedulingCore<L>, AllocError>
    requires graph { L.facts.deps ≡ deps_of graph.now }
    requires allowed { L.facts.allowed ≡ plan.now.allowed }
    requires saturation { (1 ≤ plan.now.saturation) × (plan.now.saturation ≤ 1000) }
    ensures first { IfOk result (λ c. IsFirstScheduler graph.now plan.now c) }
    ensures opening { IfOk result (λ c. IsOpening (facts c.core)) }
    ensures none { IfOk result (λ c. c.core.taken ≡ 0) }
    ensures fits { IfOk result (λ c. SchedFits L.facts (facts c.core)) }
{
    let shape = graph.copy()?;
    let script = plan.script.copy()?;
    let core = Sched::new(alloc, shape, CLIENT, plan.saturation, plan.allowed)?;
    let course = Plan {
        workers: plan.workers,
        threads: plan.threads,
        script,
    };
    Ok(SchedulingCore::new(alloc, core, course))
}

/// One port alone.
fn just<B: Drop, L: Label<Block = B>>(
    alloc: Global,
    port: Port<B, L>,
) -> Result<Vec<Port<B, L>>, AllocError> {
    let mut ports = Vec::new(alloc);
    ports.push(port)?;
    Ok(ports)
}

/// Adds the client's cell. False where there is no memory.
fn add_client<B: Drop, L: Label<Block = B>>(
    alloc: Global,
    graph: &GraphShape,
    wanted: &KeyList,
    row: Made<ClientNode<B, L>, L>,
    scheduler: Port<B, L>,
    workers: Vec<Port<B, L>>,
    sent: Tally,
) -> (Made<ClientNode<B, L>, L>, bool)
    requires empty { row.passes.items ≡ [] }
    ensures parts { result.0.parts ≡ row.parts }
    ensures made { result.1 ≡ true → AreMade (λ k s. IsFirstClient graph.now s.book.kept.id (client_facts s.book.kept.core)) 1
        (map (λ p. berth_of p.seat) result.0.passes.items) }
{
    let made = make_client(alloc, graph, wanted, scheduler, workers, sent);
    add_made(alloc, row, made)
}

/// The client's node.
fn make_client<B: Drop, L: Label<Block = B>>(
    alloc: Global,
    graph: &GraphShape,
    wanted: &KeyList,
    scheduler: Port<B, L>,
    workers: Vec<Port<B, L>>,
    sent: Tally,
) -> Result<ClientNode<B, L>, AllocError>
    ensures first { IfOk result (λ s. IsFirstClient graph.now s.book.kept.id (client_facts s.book.kept.core)) }
    ensures fits { IfOk result (λ s. ClientFits L.facts (client_facts s.book.core.core)) }
    ensures empty { IfOk result (λ s. s.book.entries ≡ []) }
{
    let wanted = wanted.copy()?;
    let core = gathering_core(alloc, graph)?;
    ClientNode::new(alloc, core, wanted, scheduler, workers, sent)
}

/// The client's core.
#[tactic(auto, using(node_states::proofs::ClientLaw::new_fits))]
fn gathering_core<L: Label>(
    alloc: Global,
    graph: &GraphShape,
) -> Result<GatheringCore<L>, AllocError>
    ensures first { IfOk result (λ c. IsFirstClient graph.now c.id (client_facts c.core)) }
    ensures none { IfOk result (λ c. c.core.events ≡ 0) }
    ensures fits { IfOk result (λ c. ClientFits L.facts (client_facts c.core)) }
{
    let core = ClientCore::new(alloc, graph.copy()?)?;
    Ok(GatheringCore::new(CLIENT, core))
}

/// Adds a cell for each worker. A worker with fewer feeds than threads is to end. False where there is no memory, or no store, for one.
fn add_workers<B: Drop, L: Label<Block = B>, F: Drop, S: BlockStore<B, L>>(
    alloc: Global,
    graph: &GraphShape,
    threads: u32,
    row: Made<WorkerNode<B, L, F, S>, L>,
    ports: Vec<WorkerPorts<B, L>>,
    feeds: Vec<Vec<F>>,
    stores: Vec<S>,
) -> (Made<WorkerNode<B, L, F, S>, L>, bool)
    requires graph { L.facts.deps ≡ deps_of graph.now }
    requires few { vec_len ports ≤ 1024 }
    requires empty { row.passes.items ≡ [] }
    ensures parts { result.0.parts ≡ row.parts }
    ensures made { result.1 ≡ true → AreMade (λ k s. IsFirstWorker graph.now threads (k + 1) s.history.book.kept.id (worker_facts s.history.book.kept.core))
        (vec_len ports) (map (λ p. berth_of p.seat) result.0.passes.items) }
{
    let mut row = row;
    let mut feeds = feeds.into_iter();
    let mut stores = stores.into_iter();
    let mut at: u32 = 0;
    let mut whole = true;
    for ports in ports {
        let own = feeds.next();
        let store = stores.next();
        let (more, added) = add_worker(alloc, graph, at, threads, row, ports, own, store);
        row = more;
        whole &= added;
        at += 1;
    }
    (row, whole)
}

/// Adds the cell of the worker at a place. False where there is no memory, or no store.
fn add_worker<B: Drop, L: Label<Block = B>, F: Drop, S: BlockStore<B, L>>(
    alloc: Global,
    graph: &GraphShape,
    at: u32,
    threads: u32,
    row: Made<WorkerNode<B, L, F, S>, L>,
    ports: WorkerPorts<B, L>,
    own: Option<Vec<F>>,
    store: Option<S>,
) -> (Made<WorkerNode<B, L, F, S>, L>, bool)
    requires graph { L.facts.deps ≡ deps_of graph.now }
    requires few { at < 1024 }
    ensures parts { result.0.parts ≡ row.parts }
    ensures made { result.1 ≡ true
        → AreMade (λ k s. IsFirstWorker graph.now threads (k + 1) s.history.book.kept.id (worker_facts s.history.book.kept.core)) at
        (map (λ p. berth_of p.seat) row.passes.items)
        → AreMade (λ k s. IsFirstWorker graph.now threads (k + 1) s.history.book.kept.id (worker_facts s.history.book.kept.core)) (at + 1)
        (map (λ p. berth_of p.seat) result.0.passes.items) }
{
    let own = match own {
        Some(own) => own,
        None => Vec::new(alloc),
    };
    let made = make_worker(alloc, graph, at + 1, threads, ports, own, store);
    add_made(alloc, row, made)
}

/// The node of a worker.
fn make_worker<B: Drop, L: Label<Block = B>, F: Drop, S: BlockStore<B, L>>(
    alloc: Global,
    graph: &GraphShape,
    id: u32,
    threads: u32,
    ports: WorkerPorts<B, L>,
    own: Vec<F>,
    store: Option<S>,
) -> Result<WorkerNode<B, L, F, S>, AllocError>
    requires graph { L.facts.deps ≡ deps_of graph.now }
    ensures first { IfOk result (λ s. IsFirstWorker graph.now threads id s.history.book.kept.id (worker_facts s.history.book.kept.core)) }
    ensures empty { IfOk result (λ s. s.history.book.entries ≡ []) }
    ensures fits { IfOk result (λ s. S.fits L.facts s.store) }
{
    let Some(store) = store else {
        return Err(AllocError);
    };
    let ending = if own.len() < threads as usize {
        Some(Why::Feed)
    } else {
        None
    };
    let feeds = gather(alloc, own)?;
    let links = worker_links(alloc, id, ports)?;
    let shape = RunGraph::new(graph.copy()?);
    let core = working_core(alloc, graph, id, threads)?;
    match WorkerNode::new(alloc, core, shape, store, feeds, links, ending) {
        Ok(node) => Ok(node),
        Err(_) => Err(AllocError),
    }
}

/// The links of a worker.
fn worker_links<B: Drop, L: Label<Block = B>>(
    alloc: Global,
    id: u32,
    ports: WorkerPorts<B, L>,
) -> Result<WorkerLinks<B, L>, AllocError> {
    let WorkerPorts {
        scheduler,
        peers,
        client,
        sent,
    } = ports;
    let clients = just(alloc, client)?;
    Ok(WorkerLinks::new(alloc, id, scheduler, peers, clients, sent))
}

/// The core of a worker.
fn working_core<L: Label>(
    alloc: Global,
    graph: &GraphShape,
    id: u32,
    threads: u32,
) -> Result<WorkingCore<L>, AllocError>
    ensures first { IfOk result (λ c. IsFirstWorker graph.now threads id c.id (worker_facts c.core)) }
    ensures none { IfOk result (λ c. c.core.events ≡ 0) }
{
    let core = WorkerCore::new(alloc, id, threads, graph.copy()?)?;
    Ok(WorkingCore::new(alloc, id, core))
}

/// These feeds, each with its place.
fn gather<F: Drop>(alloc: Global, own: Vec<F>) -> Result<Feeds<F>, AllocError> {
    let mut feeds = Feeds::new(alloc);
    for feed in own {
        if feeds.add(feed).is_err() {
            return Err(AllocError);
        }
    }
    Ok(feeds)
}
