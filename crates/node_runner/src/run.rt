//! A run, from its nodes to its end.
ghost use Rattle.std.specs.Prelude.{◌≡◌, ◌+◌, ◌<◌, ◌≤◌, ◌*◌, ◌⊎◌, ℕ, Some, None, Err, All, Contains, map, false, true, vec_len, slice_index_or, IfOk, IfSome};
ghost use Rattle.cluster_msgs.specs.Shape.{Shape};
ghost use Rattle.gather_client.specs.CoreState.{client_facts};
ghost use Rattle.turn_cell.specs.Rows.{berth_of};
ghost use Rattle.worker_core.specs.Core.{facts as worker_facts};
ghost use Rattle.node_runner.specs.declared.ends.RunStatus.{RunStatus as AnyStatus};
ghost use Rattle.node_runner.specs.Making.{AreMade};
ghost use Rattle.node_runner.specs.Naming.{run_facts};
ghost use Rattle.node_runner.specs.Runs.{HasFeedFault, HasNotRun, HasRun, HowItEnded, IsDecided, IsDoubt, LastFacts, numbers};
ghost use Rattle.node_runner.specs.Runs.{IsFirstScheduler, IsFirstWorker, IsFirstClient, IsSchedulersBook, IsWorkersBook, IsClientsBook};

use crate::closing::{end_nodes, not_run};
use crate::ends::{Doubt, Ends, RunStatus, take_apart};
use crate::label::{Fed, RunLabel, RunName};
use crate::making::{Rows, make_rows};
use crate::plan::RunPlan;
use crate::sink::Sink;
use crate::tasks::Running;
use crate::watching::Waiter;
use cluster_msgs::{GraphShape, JobSpec, KeyList, Label};
use driver_rows::{Attends, Closed, Manner, Schedules, Waits, Works, run_cells};
use futures::task::{Doorbell, Solo};
use io_edge::Gate;
use node_states::{BlockStore, ClientNode, SchedulerNode, WorkerNode};
use std::alloc::{AllocGlobal, Global};
use std::random::RandomSource;
use std::sync::Wait;
use std::thread::Threads;
use turn_cell::{Kept, Stamps};

/// How drivers go about it: some turns a visit, and some rounds in vain before one sleeps.
const TURNS: u32 = 8;

const PATIENCE: u32 = 4;

type Scheduler<J: JobSpec, K> = SchedulerNode<J::Block, RunLabel<J, K>>;

type Worker<J: JobSpec, K, S> = WorkerNode<J::Block, RunLabel<J, K>, Fed<J, K>, S>;

type Client<J: JobSpec, K> = ClientNode<J::Block, RunLabel<J, K>>;

/// Runs a job by a cluster of threads: a scheduler, the workers of a plan and one client, which wants these keys. Each worker number has feeds, one
/// for each of its threads; a worker with fewer ends as soon as it has joined. Each keeps its blocks in one of the stores; where there are fewer stores
/// than numbers nothing is run, as for want of memory. The blocks of the wanted keys go to the sink as they come, on the calling thread.
pub fn run_cluster<R, J, G, K, S, Z>(
    rt: &R,
    alloc: Global,
    job: &J,
    gate: &G,
    plan: &RunPlan,
    wanted: &KeyList,
    feeds: Vec<Vec<Fed<J, K>>>,
    stores: Vec<S>,
    sink: Z,
) -> (Ends<Fed<J, K>, S>, Z)
where
    R: Threads + Wait + RandomSource + AllocGlobal + Sync,
    J: JobSpec,
    G: Gate,
    K: RunName<J> + Send + Sync,
    S: BlockStore<J::Block, RunLabel<J, K>> + Send + Sync,
    S::Ready: Send + Sync,
    Z: Sink<J::Block, RunLabel<J, K>> + Drop,
    requires named { K.job ≡ Some job.now }
    requires saturation { (1 ≤ plan.now.saturation) × (plan.now.saturation ≤ 1000) }
    requires capacity { 0 < plan.now.capacity }
    requires threads { (1 ≤ plan.now.threads) × (plan.now.workers * plan.now.threads ≤ 64) }
    requires numbers { numbers plan.now ≤ 1024 }
    requires allowed { K.allowed ≡ plan.now.allowed }
    ensures had { IfOk result.0.result (λ _. All (λ k. Z.had result.1 k ≡ true) wanted.now) }
    ensures leads { Z.leads sink result.1 }
    ensures ended { HowItEnded (run_facts J.graph J.operation J.key_dims J.block_dims K.told K.allowed K.job) (J.graph job.now) plan.now wanted.now
        (HasFeedFault J.fault_count plan.now.threads (map (λ v. vec_len v) feeds.items) result.0.feeds.items)
        result.0.result result.0.left.items result.0.histories }
{
    let (rows, stamps, short) = begin(alloc, job, plan, wanted, feeds, stores);
    match stamps {
        Some(stamps) => run_made(
            rt, alloc, job, gate, plan, wanted, short, rows, stamps, sink,
        ),
        None => (close_rows(alloc, rows), sink),
    }
}

/// The nodes, the right to draw stamps where all nodes are made and there is memory, and whether a worker has too few feeds.
fn begin<J: JobSpec, K: RunName<J>, S: BlockStore<J::Block, RunLabel<J, K>>>(
    alloc: Global,
    job: &J,
    plan: &RunPlan,
    wanted: &KeyList,
    feeds: Vec<Vec<Fed<J, K>>>,
    stores: Vec<S>,
) -> (
    Rows<RunLabel<J, K>, Scheduler<J, K>, Worker<J, K, S>, Client<J, K>>,
    Option<Stamps>,
    bool,
)
    requires named { K.job ≡ Some job.now }
    requires saturation { (1 ≤ plan.now.saturation) × (plan.now.saturation ≤ 1000) }
    requires capacity { 0 < plan.now.capacity }
    requires threads { (1 ≤ plan.now.threads) × (plan.now.workers * plan.now.threads ≤ 64) }
    requires numbers { numbers plan.now ≤ 1024 }
    requires allowed { K.allowed ≡ plan.now.allowed }
    ensures parts { (result.0.workers.parts ≡ result.0.scheduler.parts) × (result.0.clients.parts ≡ result.0.scheduler.parts) }
    ensures scheduler { IfSome result.1 (λ _. AreMade (λ k s. IsFirstScheduler (J.graph job.now) plan.now s.history.book.kept) 1
        (map (λ p. berth_of p.seat) result.0.scheduler.passes.items)) }
    ensures workers { IfSome result.1 (λ _. AreMade (λ k s. IsFirstWorker (J.graph job.now) plan.now.threads (k + 1) s.history.book.kept.id
        (worker_facts s.history.book.kept.core)) (numbers plan.now) (map (λ p. berth_of p.seat) result.0.workers.passes.items)) }
    ensures client { IfSome result.1 (λ _. AreMade (λ k s. IsFirstClient (J.graph job.now) s.book.kept.id (client_facts s.book.kept.core)) 1
        (map (λ p. berth_of p.seat) result.0.clients.passes.items)) }
    ensures short { result.2 ≡ true → (n : ℕ) × Contains (map (λ v. vec_len v) feeds.items) n × (n < plan.now.threads) }
{
    let short = plan.is_short(feeds.as_slice());
    let drivers = plan.workers * plan.threads + plan.workers + 1;
    let (rows, whole) = make_rows(alloc, job.shape(), plan, wanted, feeds, stores, drivers + 1);
    let stamps = rights(alloc, whole);
    (rows, stamps, short)
}

/// The right to draw stamps, where all nodes are made and there is memory.
fn rights(alloc: Global, whole: bool) -> Option<Stamps>
    ensures { IfSome result (λ _. whole ≡ true) }
{
    if !whole {
        return None;
    }
    Stamps::new(alloc).ok()
}

/// Runs the nodes that were made. `short` says that a worker has too few feeds.
fn run_made<R, J, G, K, S, Z>(
    rt: &R,
    alloc: Global,
    job: &J,
    gate: &G,
    plan: &RunPlan,
    wanted: &KeyList,
    short: bool,
    rows: Rows<RunLabel<J, K>, Scheduler<J, K>, Worker<J, K, S>, Client<J, K>>,
    stamps: Stamps,
    sink: Z,
) -> (Ends<Fed<J, K>, S>, Z)
where
    R: Threads + Wait + RandomSource + AllocGlobal + Sync,
    J: JobSpec,
    G: Gate,
    K: RunName<J> + Send + Sync,
    S: BlockStore<J::Block, RunLabel<J, K>> + Send + Sync,
    S::Ready: Send + Sync,
    Z: Sink<J::Block, RunLabel<J, K>> + Drop,
    requires named { K.job ≡ Some job.now }
    requires allowed { K.allowed ≡ plan.now.allowed }
    requires parts { (rows.workers.parts ≡ rows.scheduler.parts) × (rows.clients.parts ≡ rows.scheduler.parts) }
    requires scheduler { AreMade (λ k s. IsFirstScheduler (J.graph job.now) plan.now s.history.book.kept) 1
        (map (λ p. berth_of p.seat) rows.scheduler.passes.items) }
    requires workers { AreMade (λ k s. IsFirstWorker (J.graph job.now) plan.now.threads (k + 1) s.history.book.kept.id (worker_facts s.history.book.kept.core))
        (numbers plan.now) (map (λ p. berth_of p.seat) rows.workers.passes.items) }
    requires client { AreMade (λ k s. IsFirstClient (J.graph job.now) s.book.kept.id (client_facts s.book.kept.core)) 1
        (map (λ p. berth_of p.seat) rows.clients.passes.items) }
    ensures had { IfOk result.0.result (λ _. All (λ k. Z.had result.1 k ≡ true) wanted.now) }
    ensures leads { Z.leads sink result.1 }
    ensures ended { HowItEnded (run_facts J.graph J.operation J.key_dims J.block_dims K.told K.allowed K.job) (J.graph job.now) plan.now wanted.now
        ((short ≡ true) ⊎ ((f : _) × Contains result.0.feeds.items f × (0 < J.fault_count f)))
        result.0.result result.0.left.items result.0.histories }
{
    let (closed, mut sink) = run_rows(rt, alloc, job, gate, plan, wanted, rows, stamps, sink);
    let (ends, doubt) = end_rows(alloc, job.shape(), plan, wanted, closed, &mut sink);
    (without_doubt(job, plan, short, doubt, ends), sink)
}

/// Ends a run whose nodes couldn't all be made.
fn close_rows<A, B, L, F, S, C>(
    alloc: Global,
    rows: Rows<L, A, WorkerNode<B, L, F, S>, C>,
) -> Ends<F, S>
where
    B: Drop,
    L: Label<Block = B>,
    F: Drop,
    S: BlockStore<B, L>,
    A: Kept<Block = L::Block> + Drop,
    C: Kept<Block = L::Block> + Drop,
    ensures none { result.histories ≡ None }
    ensures ended { HasNotRun result.result result.left.items }
{
    let Rows {
        scheduler,
        workers,
        clients,
    } = rows;
    scheduler.close();
    clients.close();
    let (_, feeds, stores) = take_apart(alloc, workers.close());
    not_run(alloc, feeds, stores)
}

/// Runs the nodes by threads to the end.
fn run_rows<R, J, G, K, S, Z>(
    rt: &R,
    alloc: Global,
    job: &J,
    gate: &G,
    plan: &RunPlan,
    wanted: &KeyList,
    rows: Rows<RunLabel<J, K>, Scheduler<J, K>, Worker<J, K, S>, Client<J, K>>,
    stamps: Stamps,
    sink: Z,
) -> (Closed<Scheduler<J, K>, Worker<J, K, S>, Client<J, K>>, Z)
where
    R: Threads + Wait + RandomSource + AllocGlobal + Sync,
    J: JobSpec,
    G: Gate,
    K: RunName<J> + Send + Sync,
    S: BlockStore<J::Block, RunLabel<J, K>> + Send + Sync,
    S::Ready: Send + Sync,
    Z: Sink<J::Block, RunLabel<J, K>> + Drop,
    requires named { K.job ≡ Some job.now }
    requires parts { (rows.workers.parts ≡ rows.scheduler.parts) × (rows.clients.parts ≡ rows.scheduler.parts) }
    requires scheduler { AreMade (λ k s. IsFirstScheduler (J.graph job.now) plan.now s.history.book.kept) 1
        (map (λ p. berth_of p.seat) rows.scheduler.passes.items) }
    requires workers { AreMade (λ k s. IsFirstWorker (J.graph job.now) plan.now.threads (k + 1) s.history.book.kept.id (worker_facts s.history.book.kept.core))
        (numbers plan.now) (map (λ p. berth_of p.seat) rows.workers.passes.items) }
    requires client { AreMade (λ k s. IsFirstClient (J.graph job.now) s.book.kept.id (client_facts s.book.kept.core)) 1
        (map (λ p. berth_of p.seat) rows.clients.passes.items) }
    ensures scheduler { All (λ s. IsSchedulersBook (run_facts J.graph J.operation J.key_dims J.block_dims K.told K.allowed K.job) (J.graph job.now) plan.now
        s.history.book) result.0.scheduler.items }
    ensures workers { (k : ℕ) (w : _) → k < vec_len result.0.workers
        → IsWorkersBook (run_facts J.graph J.operation J.key_dims J.block_dims K.told K.allowed K.job) (J.graph job.now) plan.now.threads (k + 1)
        (λ c. c.id) (λ c. worker_facts c.core) (slice_index_or result.0.workers.items k w).history.book }
    ensures clients { All (λ c. IsClientsBook (run_facts J.graph J.operation J.key_dims J.block_dims K.told K.allowed K.job) (J.graph job.now)
        (λ c. c.id) (λ c. client_facts c.core) c.book) result.0.clients.items }
    ensures leads { Z.leads sink result.1 }
{
    let room = Solo::new(rt, Doorbell::parking()).ok();
    let running = Running::<J, G, K>::new(alloc, job, gate, wanted);
    let mut waiter = Waiter {
        alloc,
        keys: job.shape().keys(),
        wanted: wanted.as_slice(),
        room: room.as_ref(),
        sink: Some(sink),
    };
    let closed = run_nodes(rt, alloc, plan, rows, stamps, &running, &mut waiter);
    let Waiter {
        alloc: _,
        keys: _,
        wanted: _,
        room: _,
        sink,
    } = waiter;
    let Some(sink) = sink else { unreachable!() };
    (closed, sink)
}

/// Runs nodes by threads to the end, which go by whatever gives their turns, and by a waiter.
fn run_nodes<R, B, L, F, S, X, T>(
    rt: &R,
    alloc: Global,
    plan: &RunPlan,
    rows: Rows<L, SchedulerNode<B, L>, WorkerNode<B, L, F, S>, ClientNode<B, L>>,
    stamps: Stamps,
    turns: &X,
    waiter: &mut T,
) -> Closed<SchedulerNode<B, L>, WorkerNode<B, L, F, S>, ClientNode<B, L>>
where
    R: Threads + Wait + Sync,
    B: Drop + Send + Sync,
    L: Label<Block = B> + Send + Sync,
    F: Drop + Send + Sync,
    S: BlockStore<B, L> + Send + Sync,
    S::Ready: Send + Sync,
    X: Schedules<SchedulerNode<B, L>, L>
        + Works<WorkerNode<B, L, F, S>, L>
        + Attends<ClientNode<B, L>, L>
        + Sync,
    T: Waits<X::Sight>,
    requires parts { (rows.workers.parts ≡ rows.scheduler.parts) × (rows.clients.parts ≡ rows.scheduler.parts) }
    ensures scheduler { (graph : Shape) → AreMade (λ k s. IsFirstScheduler graph plan.now s.history.book.kept) 1
        (map (λ p. berth_of p.seat) rows.scheduler.passes.items) → All (λ s. IsSchedulersBook L.facts graph plan.now s.history.book) result.scheduler.items }
    ensures workers { (graph : Shape) → AreMade (λ k s. IsFirstWorker graph plan.now.threads (k + 1) s.history.book.kept.id
        (worker_facts s.history.book.kept.core)) (numbers plan.now) (map (λ p. berth_of p.seat) rows.workers.passes.items)
        → (k : ℕ) (w : _) → k < vec_len result.workers
        → IsWorkersBook L.facts graph plan.now.threads (k + 1) (λ c. c.id) (λ c. worker_facts c.core) (slice_index_or result.workers.items k w).history.book }
    ensures clients { (graph : Shape) → AreMade (λ k s. IsFirstClient graph s.book.kept.id (client_facts s.book.kept.core)) 1
        (map (λ p. berth_of p.seat) rows.clients.passes.items) → All (λ c. IsClientsBook L.facts graph (λ c. c.id) (λ c. client_facts c.core) c.book) result.clients.items }
    ensures waited { T.leads waiter.old waiter.new }
{
    let manner = Manner {
        turns: TURNS,
        patience: PATIENCE,
        neighbours: plan.threads,
    };
    let Rows {
        scheduler,
        workers,
        clients,
    } = rows;
    run_cells(
        rt, alloc, scheduler, workers, clients, stamps, manner, turns, waiter,
    )
}

/// How a run ended, as its closed nodes tell, and what else than want of memory it may have ended by.
fn end_rows<B: Drop, L: Label<Block = B>, F: Drop, S: BlockStore<B, L>, Z: Sink<B, L>>(
    alloc: Global,
    graph: &GraphShape,
    plan: &RunPlan,
    wanted: &KeyList,
    closed: Closed<SchedulerNode<B, L>, WorkerNode<B, L, F, S>, ClientNode<B, L>>,
    sink: &mut Z,
) -> (Ends<F, S>, Doubt)
    requires allowed { L.facts.allowed ≡ plan.now.allowed }
    requires scheduler { All (λ s. IsSchedulersBook L.facts graph.now plan.now s.history.book) closed.scheduler.items }
    requires workers { (k : ℕ) (w : _) → k < vec_len closed.workers
        → IsWorkersBook L.facts graph.now plan.now.threads (k + 1) (λ c. c.id) (λ c. worker_facts c.core) (slice_index_or closed.workers.items k w).history.book }
    requires clients { All (λ c. IsClientsBook L.facts graph.now (λ c. c.id) (λ c. client_facts c.core) c.book) closed.clients.items }
    ensures had { IfOk result.0.result (λ _. All (λ k. Z.had sink.new k ≡ true) wanted.now) }
    ensures leads { Z.leads sink.old sink.new }
    ensures ended { IfSome result.0.histories (λ h. (last : LastFacts) × HasRun L.facts graph.now plan.now wanted.now ⊥ last result.0.result result.0.left.items h
        × IsDoubt L.facts plan.now wanted.now last.scheduler result.0.left.items result.1) }
    ensures none { result.0.histories ≡ None → HasNotRun result.0.result result.0.left.items }
{
    match one_of_each(closed) {
        Ok((scheduler, workers, client)) => end_nodes(
            alloc, graph, plan, wanted, scheduler, workers, client, sink,
        ),
        Err(workers) => {
            let (_, feeds, stores) = take_apart(alloc, workers);
            (not_run(alloc, feeds, stores), Doubt::Memory)
        }
    }
}

/// A scheduler, the workers and a client, or the workers alone.
fn one_of_each<S: Drop, W: Drop, C: Drop>(closed: Closed<S, W, C>) -> Result<(S, Vec<W>, C), Vec<W>>
    ensures scheduler { IfOk result (λ t. Contains closed.scheduler.items t.0) }
    ensures workers { IfOk result (λ t. t.1 ≡ closed.workers) }
    ensures client { IfOk result (λ t. Contains closed.clients.items t.2) }
{
    let Closed {
        scheduler,
        workers,
        clients,
    } = closed;
    match (last_of(scheduler), last_of(clients)) {
        (Some(scheduler), Some(client)) => Ok((scheduler, workers, client)),
        _ => Err(workers),
    }
}

fn last_of<T: Drop>(row: Vec<T>) -> Option<T>
    ensures { IfSome result (Contains row.items) }
{
    let mut row = row;
    row.pop()
}

/// The same without doubt: with a read fault or a killed key in the place of want of memory, where the cause of that is there.
fn without_doubt<J: JobSpec, K: RunName<J>, S: Drop>(
    job: &J,
    plan: &RunPlan,
    short: bool,
    doubt: Doubt,
    ends: Ends<Fed<J, K>, S>,
) -> Ends<Fed<J, K>, S>
    ensures same { (result.histories ≡ ends.histories) × (result.left ≡ ends.left) × (result.feeds ≡ ends.feeds) }
    ensures none { ends.histories ≡ None → result.result ≡ ends.result }
    ensures changed { (result.result ≡ ends.result)
        ⊎ ((s : AnyStatus) × (result.result ≡ Err s) × IsDecided plan.now ((short ≡ true) ⊎ ((f : _) × Contains ends.feeds.items f × (0 < J.fault_count f))) doubt s) }
{
    let failed = short || has_failed(job, ends.feeds.as_slice());
    decide(plan, failed, doubt, ends)
}

/// The same with how it is decided in the place of want of memory, where the run can be told of.
fn decide<F: Drop, S: Drop>(
    plan: &RunPlan,
    failed: bool,
    doubt: Doubt,
    ends: Ends<F, S>,
) -> Ends<F, S>
    ensures same { (result.histories ≡ ends.histories) × (result.left ≡ ends.left) × (result.feeds ≡ ends.feeds) }
    ensures none { ends.histories ≡ None → result.result ≡ ends.result }
    ensures changed { (result.result ≡ ends.result) ⊎ ((s : AnyStatus) × (result.result ≡ Err s) × IsDecided plan.now (failed ≡ true) doubt s) }
{
    let Ends {
        result,
        histories,
        left,
        feeds,
        stores,
    } = ends;
    let told = histories.is_some();
    Ends {
        result: decided(plan, told, failed, doubt, result),
        histories,
        left,
        feeds,
        stores,
    }
}

fn decided<T: Drop>(
    plan: &RunPlan,
    told: bool,
    failed: bool,
    doubt: Doubt,
    ended: Result<T, RunStatus>,
) -> Result<T, RunStatus>
    ensures none { told ≡ false → result ≡ ended }
    ensures changed { (result ≡ ended) ⊎ ((s : AnyStatus) × (result ≡ Err s) × IsDecided plan.now (failed ≡ true) doubt s) }
{
    match ended {
        Err(RunStatus::Memory) => if told {
            Err(status_in(plan, failed, doubt))
        } else {
            Err(RunStatus::Memory)
        },
        other => other,
    }
}

/// What is answered in doubt: a killed key only where the script takes workers away as often or a feed has failed, and that no worker is left only
/// where a feed has.
#[tactic(auto, using(crate::proofs::Failing::cause_there))]
fn status_in(plan: &RunPlan, failed: bool, doubt: Doubt) -> RunStatus
    ensures { IsDecided plan.now (failed ≡ true) doubt result }
{
    match doubt {
        Doubt::Memory => RunStatus::Memory,
        Doubt::GivenUp => if failed {
            RunStatus::Read
        } else {
            RunStatus::Memory
        },
        Doubt::Killed { key, losses } => {
            let is_there = plan.removes(losses) | failed;
            if is_there {
                RunStatus::Killed { key, losses }
            } else {
                RunStatus::Memory
            }
        }
    }
}

/// Whether a call of one of these feeds has failed.
fn has_failed<J: JobSpec, K: RunName<J>>(job: &J, feeds: &[Fed<J, K>]) -> bool
    ensures { result ≡ true → (f : _) × Contains feeds.now f × (0 < J.fault_count f) }
{
    for fed in feeds {
        if fed.faults(job) > 0 {
            return true;
        }
    }
    false
}
