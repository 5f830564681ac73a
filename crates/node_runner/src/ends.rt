//! How a run ended, as the closed nodes tell.
ghost use Rattle.std.specs.Prelude.{◌≡◌, ◌≢◌, ◌≤◌, ◌+◌, ◌^◌, ◌<◌, ◌++◌, ◌∷◌, [], ℕ, List, true, false, None, slice_index_or, All, Contains, IfOk, IfSome, Some};
ghost use Rattle.cluster_rules.specs.Sched.{Facts as SchedFacts, connected};
ghost use Rattle.gather_client.specs.CoreState.{client_facts};
ghost use Rattle.scheduler_core.specs.Cores.{facts};
ghost use Rattle.worker_core.specs.Core.{facts as worker_facts};
ghost use Rattle.turn_cell.specs.Rows.{AllBy};
ghost use Rattle.node_states.specs.Fitting.{ClientFits};
ghost use Rattle.node_states.specs.declared.why.Why.TheVariants as why;
ghost use Rattle.node_runner.specs.declared.plan.RunPlan.{RunPlan as AnyPlan};
ghost use Rattle.node_runner.specs.Runs.{HasBlame, HasGot, IsFailure, IsFromWorker, IsGivenUp, IsGot, IsLeft, IsNamed, NoneForMemory};

use crate::plan::RunPlan;
use crate::sink::Sink;
use cluster_msgs::{End, History, Label};
use cluster_rules::Facts;
use node_links::Keyed;
use node_states::{BlockStore, ClientNode, Feeds, SchedulerNode, Why, WorkerNode};
use std::alloc::{AllocError, Global};

/// Why a run gave no blocks.
#[derive(Clone, Copy)]
pub enum RunStatus {
    /// A wanted key failed, and this key is to blame: it met a zero divisor.
    Zero { key: u32 },
    /// A wanted key failed, and this key is to blame: its worker left so often while the key was assigned to it, once more than is allowed.
    Killed { key: u32, losses: u32 },
    /// No worker was left, and a feed had failed.
    Read,
    /// A node's core has taken all events that it takes, 2^40.
    Events,
    /// There was no memory.
    Memory,
}

/// Why a wanted key failed: the key that is to blame met a zero divisor, or was killed.
#[derive(Clone, Copy)]
pub enum Failure {
    Zero { key: u32 },
    Killed { key: u32, losses: u32 },
}

/// What else than want of memory a run may have ended by, where the cause of that is there.
#[derive(Clone, Copy)]
pub enum Doubt {
    /// Nothing else.
    Memory,
    /// No worker is left, and none left for want of memory.
    GivenUp,
    /// This key, which was killed, is to blame, and no worker left for want of memory.
    Killed { key: u32, losses: u32 },
}

/// The histories of all nodes: the scheduler's, those of the workers by number, and the client's.
#[derive(Drop)]
pub struct Histories {
    pub scheduler: History,
    pub workers: Vec<History>,
    pub client: History,
}

/// How a run ended: with a block of each wanted key in the sink, or why not; the histories, where it was started and could be told of; for each worker
/// number why it left, if it did; the feeds, and the stores of the workers' blocks.
#[derive(Drop)]
pub struct Ends<F: Drop, S: Drop> {
    pub result: Result<(), RunStatus>,
    pub histories: Option<Histories>,
    pub left: Vec<Option<Why>>,
    pub feeds: Vec<F>,
    pub stores: Vec<S>,
}

/// Whether the client got each of these keys.
pub fn has_got<B: Drop, L: Label<Block = B>>(wanted: &[u32], client: &ClientNode<B, L>) -> bool
    ensures { result ≡ true → HasGot (client_facts client.now.book.core.core) client.now.book.entries client.now.book.cut wanted.now }
{
    for key in wanted {
        if !is_got(*key, client) {
            return false;
        }
    }
    true
}

/// Whether the client got a key: it has it, or has let it go since.
fn is_got<B: Drop, L: Label<Block = B>>(key: u32, client: &ClientNode<B, L>) -> bool
    ensures { result ≡ true → IsGot (client_facts client.now.book.core.core) client.now.book.entries client.now.book.cut key }
{
    match client.end(key) {
        Some(End::Got) => true,
        Some(End::Erred { blame: _ }) => false,
        None => client.has_let_go(key),
    }
}

/// Whether the sink has a block of each of these keys.
pub fn has_all<B: Drop, L: Label<Block = B>, Z: Sink<B, L>>(wanted: &[u32], sink: &Z) -> bool
    ensures { result ≡ true → All (λ k. Z.had sink.now k ≡ true) wanted.now }
{
    for key in wanted {
        if !sink.has(*key) {
            return false;
        }
    }
    true
}

/// Hands blocks on to the sink.
pub fn hand_all<B: Drop, L: Label<Block = B>, Z: Sink<B, L>>(blocks: Vec<Keyed<B, L>>, sink: &mut Z)
    ensures { Z.leads sink.old sink.new }
{
    for keyed in blocks {
        sink.take(keyed.key(), keyed.into_block());
    }
}

/// The key that is to blame for the first of these keys that failed.
fn first_blame<B: Drop, L: Label<Block = B>>(
    wanted: &[u32],
    client: &ClientNode<B, L>,
) -> Option<u32>
    requires { ClientFits L.facts (client_facts client.now.book.core.core) }
    ensures { IfSome result (HasBlame L.facts wanted.now) }
{
    for key in wanted {
        if let Some(blame) = client.failure(*key) {
            return Some(blame.blame());
        }
    }
    None
}

/// Why the first of these keys that failed did so, as far as the scheduler's core tells: where losses aren't bounded, by a zero divisor.
pub fn first_failure<B: Drop, L: Label<Block = B>>(
    plan: &RunPlan,
    wanted: &[u32],
    client: &ClientNode<B, L>,
    scheduler: &SchedulerNode<B, L>,
) -> Option<Failure>
    requires fits { ClientFits L.facts (client_facts client.now.book.core.core) }
    requires allowed { L.facts.allowed ≡ plan.now.allowed }
    ensures { IfSome result (IsFailure L.facts plan.now wanted.now (facts scheduler.now.history.book.core.core)) }
{
    let blame = first_blame(wanted, client)?;
    failure_of(plan, scheduler, blame)
}

/// Why the key that is to blame failed. A client is told the key and not the cause.
#[tactic(auto, using(crate::proofs::Failing::fault_where_unbounded))]
fn failure_of<B: Drop, L: Label<Block = B>>(
    plan: &RunPlan,
    scheduler: &SchedulerNode<B, L>,
    blame: u32,
) -> Option<Failure>
    requires allowed { L.facts.allowed ≡ plan.now.allowed }
    ensures { IfSome result (λ x. (wanted : List ℕ) → HasBlame L.facts wanted blame → IsFailure L.facts plan.now wanted (facts scheduler.now.history.book.core.core) x) }
{
    match plan.allowed {
        None => Some(Failure::Zero { key: blame }),
        Some(_) => failure_at(scheduler, blame),
    }
}

/// The same by the scheduler's core, as far as it goes on.
#[tactic(auto, using(crate::proofs::Failing::fault_at, crate::proofs::Failing::killed_at))]
fn failure_at<B: Drop, L: Label<Block = B>>(
    scheduler: &SchedulerNode<B, L>,
    blame: u32,
) -> Option<Failure>
    ensures { (p : AnyPlan) → L.facts.allowed ≡ p.allowed → IfSome result (λ x. (wanted : List ℕ) → HasBlame L.facts wanted blame →
        IsFailure L.facts p wanted (facts scheduler.now.history.book.core.core) x) }
{
    let core = scheduler.history.core()?;
    if let Some(losses) = core.killed(blame) {
        return Some(Failure::Killed { key: blame, losses });
    }
    if core.is_at_fault(blame) {
        return Some(Failure::Zero { key: blame });
    }
    None
}

/// Whether no worker left for want of memory.
pub fn none_starved(left: &[Option<Why>]) -> bool
    ensures { result ≡ true → NoneForMemory left.now }
{
    for cause in left {
        if is_starved(*cause) {
            return false;
        }
    }
    true
}

fn is_starved(cause: Option<Why>) -> bool
    ensures { result ≡ false → cause ≢ Some why.Memory }
{
    match cause {
        Some(Why::Memory) => true,
        Some(Why::Script | Why::Feed | Why::Link) => false,
        None => false,
    }
}

/// Whether a worker's core has taken all events that it takes.
pub fn any_spent<B: Drop, L: Label<Block = B>, F: Drop, S: BlockStore<B, L>>(
    workers: &[WorkerNode<B, L, F, S>],
) -> bool
    ensures { result ≡ true → (w : _) × Contains workers.now w × (2 ^ 40 ≤ w.history.book.core.core.events) }
{
    for worker in workers {
        if worker.history.book.is_spent() {
            return true;
        }
    }
    false
}

/// For each worker why it left, if it joined and left.
pub fn all_left<B: Drop, L: Label<Block = B>, F: Drop, S: BlockStore<B, L>>(
    alloc: Global,
    plan: &RunPlan,
    scheduler: &SchedulerNode<B, L>,
    workers: &[WorkerNode<B, L, F, S>],
) -> Result<Vec<Option<Why>>, AllocError>
    ensures { IfOk result (λ left. AllBy (λ k w o. IfSome o (IsLeft plan.now (facts scheduler.now.history.book.core.core) (k + 1) w.history.book.entries w.history.book.cut))
        workers.now left.items) }
{
    let joined = joined(scheduler);
    let mut left = Vec::new(alloc);
    for (at, worker) in workers.iter().enumerate() {
        left.push(row(plan, scheduler, worker, joined, at))?;
    }
    Ok(left)
}

/// Why the worker at a place left, if it is one of those that joined and left.
fn row<B: Drop, L: Label<Block = B>, F: Drop, S: BlockStore<B, L>>(
    plan: &RunPlan,
    scheduler: &SchedulerNode<B, L>,
    worker: &WorkerNode<B, L, F, S>,
    joined: u32,
    at: usize,
) -> Option<Why>
    requires joined { joined ≤ (facts scheduler.now.history.book.core.core).last_worker }
    ensures { IfSome result (IsLeft plan.now (facts scheduler.now.history.book.core.core) (at + 1) worker.now.history.book.entries worker.now.history.book.cut) }
{
    if at < joined as usize {
        why_left(plan, scheduler, worker, at as u32 + 1)
    } else {
        None
    }
}

/// How many workers joined, as far as the scheduler goes on.
fn joined<B: Drop, L: Label<Block = B>>(scheduler: &SchedulerNode<B, L>) -> u32
    ensures { result ≤ (facts scheduler.now.history.book.core.core).last_worker }
{
    match scheduler.joined() {
        Some(joined) => joined,
        None => 0,
    }
}

/// Why a worker left, if it did: it ended, or isn't connected any more.
fn why_left<B: Drop, L: Label<Block = B>, F: Drop, S: BlockStore<B, L>>(
    plan: &RunPlan,
    scheduler: &SchedulerNode<B, L>,
    worker: &WorkerNode<B, L, F, S>,
    id: u32,
) -> Option<Why>
    requires joined { id ≤ (facts scheduler.now.history.book.core.core).last_worker }
    ensures { IfSome result (IsLeft plan.now (facts scheduler.now.history.book.core.core) id worker.now.history.book.entries worker.now.history.book.cut) }
{
    if worker.id() == id && worker.ended() {
        let why = match worker.why() {
            Some(why) => why,
            None => Why::Memory,
        };
        return Some(told(plan, id, why));
    }
    if is_gone(scheduler, id) {
        return Some(told(plan, id, Why::Script));
    }
    None
}

/// Whether a worker isn't connected, as far as the scheduler goes on.
fn is_gone<B: Drop, L: Label<Block = B>>(scheduler: &SchedulerNode<B, L>, worker: u32) -> bool
    ensures { result ≡ true → connected (facts scheduler.now.history.book.core.core) worker ≡ false }
{
    match scheduler.history.core() {
        Some(core) => !core.core().connected(worker),
        None => false,
    }
}

/// The cause as it is told: the script only where an item names the worker, and no link's end, which a run in one process doesn't have.
fn told(plan: &RunPlan, worker: u32, cause: Why) -> Why
    ensures script { result ≡ why.Script → IsNamed plan.now.script worker }
    ensures unlinked { result ≢ why.Link }
{
    match cause {
        Why::Script => {
            if plan.names(worker) {
                Why::Script
            } else {
                Why::Memory
            }
        }
        Why::Feed => Why::Feed,
        Why::Link | Why::Memory => Why::Memory,
    }
}

/// Whether each worker that joined left, and none for want of memory. False where it isn't known how many joined.
pub fn is_given_up(joined: Option<u32>, left: &[Option<Why>]) -> bool
    ensures { (f : SchedFacts) → IfSome joined (λ n. n ≡ f.last_worker) → result ≡ true → IsGivenUp f left.now }
{
    let Some(joined) = joined else {
        return false;
    };
    for at in 0..joined as usize {
        if !is_row(left, at) {
            return false;
        }
    }
    true
}

/// Whether there is a cause at a place, which isn't want of memory.
fn is_row(left: &[Option<Why>], at: usize) -> bool
    ensures { result ≡ true → (cause : _) × (slice_index_or left.now at None ≡ Some cause) × (cause ≢ why.Memory) }
{
    match left.get(at) {
        Some(Some(why)) => match why {
            Why::Script | Why::Feed | Why::Link => true,
            Why::Memory => false,
        },
        _ => false,
    }
}

/// The histories, the feeds and the stores of closed workers. No histories where there is no memory for all of these but the stores.
pub fn take_apart<B: Drop, L: Label<Block = B>, F: Drop, S: BlockStore<B, L>>(
    alloc: Global,
    workers: Vec<WorkerNode<B, L, F, S>>,
) -> (Option<Vec<History>>, Vec<F>, Vec<S>)
    ensures { IfSome result.0 (λ histories. AllBy (λ k w h. IsFromWorker L.facts (λ c. c.id) (λ c. worker_facts c.core) (λ c. c.core.events) w.history.book h)
        workers.items histories.items) }
{
    let mut histories = Vec::new(alloc);
    let mut feeds = Vec::new(alloc);
    let mut stores = Vec::new(alloc);
    let mut whole = true;
    for worker in workers {
        let (history, own, store) = apart(worker);
        let told = keep(&mut histories, history);
        let given = give_back(own, &mut feeds);
        keep(&mut stores, store);
        whole = whole & told & given;
    }
    (only_whole(whole, histories), feeds, stores)
}

/// The history, the feeds and the store of a closed worker.
#[tactic(auto, using(crate::proofs::Ending::taken_from))]
fn apart<B: Drop, L: Label<Block = B>, F: Drop, S: BlockStore<B, L>>(
    worker: WorkerNode<B, L, F, S>,
) -> (History, Feeds<F>, S)
    ensures { IsFromWorker L.facts (λ c. c.id) (λ c. worker_facts c.core) (λ c. c.core.events) worker.history.book result.0 }
{
    let (log, own, store) = worker.into_parts();
    (log.into_history(), own, store)
}

/// Adds a worker's feeds. False where there is no memory for one, which is dropped.
fn give_back<F: Drop>(own: Feeds<F>, feeds: &mut Vec<F>) -> bool {
    let mut whole = true;
    for feed in own.into_vec() {
        let given = keep(feeds, feed);
        whole = whole & given;
    }
    whole
}

/// Adds an item. False where there is no memory for it; it is dropped.
fn keep<T: Drop>(items: &mut Vec<T>, item: T) -> bool
    ensures { result ≡ true → items.new.items ≡ items.old.items ++ item ∷ [] }
{
    items.push(item).is_ok()
}

/// What is whole.
fn only_whole<T: Drop>(whole: bool, value: T) -> Option<T>
    ensures { IfSome result (λ v. (whole ≡ true) × (v ≡ value)) }
{
    if whole { Some(value) } else { None }
}
