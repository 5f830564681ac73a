//! From the closed nodes to how the run ended.
ghost use Rattle.std.specs.Prelude.{◌≡◌, ◌+◌, ◌<◌, ℕ, true, false, None, Some, Ok, All, map, vec_len, slice_index_or, IfOk, IfSome};
ghost use Rattle.cluster_rules.specs.Sched.{Facts};
ghost use Rattle.gather_client.specs.CoreState.{client_facts};
ghost use Rattle.scheduler_core.specs.Cores.{facts};
ghost use Rattle.worker_core.specs.Core.{facts as worker_facts};
ghost use Rattle.node_states.specs.Order.{AreInTime, start_of};
ghost use Rattle.node_runner.specs.Runs.{HasRun, HasNotRun, IsDoubt, IsDoubtBy, IsGivenUp, IsFromScheduler, IsFromClient, IsSchedulersBook, IsWorkersBook, IsClientsBook, IfStatus, IsBlamed, IsSpent, last_facts};

use crate::ends::{
    Doubt, Ends, Failure, Histories, RunStatus, all_left, any_spent, first_failure, hand_all,
    has_all, has_got, is_given_up, none_starved, take_apart,
};
use crate::plan::RunPlan;
use crate::sink::Sink;
use cluster_msgs::{GraphShape, History, KeyList, Label};
use node_links::Book;
use node_states::{BlockStore, ClientNode, GatheringCore, SchedulerNode, Why, WorkerNode};
use std::alloc::{AllocError, Global};

/// What is told of a run: the histories, and for each worker number why it left.
#[derive(Drop)]
struct Told {
    histories: Histories,
    left: Vec<Option<Why>>,
}

/// A run that couldn't be started, or not be told of, for want of memory.
pub fn not_run<F: Drop, S: Drop>(alloc: Global, feeds: Vec<F>, stores: Vec<S>) -> Ends<F, S>
    ensures none { result.histories ≡ None }
    ensures ended { HasNotRun result.result result.left.items }
    ensures feeds { result.feeds ≡ feeds }
{
    Ends {
        result: Err(RunStatus::Memory),
        histories: None,
        left: Vec::new(alloc),
        feeds,
        stores,
    }
}

/// How a run ended, as far as its closed nodes tell, and what else than want of memory it may have ended by. The blocks that the client still has go to
/// the sink.
pub fn end_nodes<B: Drop, L: Label<Block = B>, F: Drop, S: BlockStore<B, L>, Z: Sink<B, L>>(
    alloc: Global,
    _graph: &GraphShape,
    plan: &RunPlan,
    wanted: &KeyList,
    scheduler: SchedulerNode<B, L>,
    workers: Vec<WorkerNode<B, L, F, S>>,
    client: ClientNode<B, L>,
    sink: &mut Z,
) -> (Ends<F, S>, Doubt)
    requires allowed { L.facts.allowed ≡ plan.now.allowed }
    requires scheduler { IsSchedulersBook L.facts _graph.now plan.now scheduler.history.book }
    requires workers { (k : ℕ) (w : _) → k < vec_len workers
        → IsWorkersBook L.facts _graph.now plan.now.threads (k + 1) (λ c. c.id) (λ c. worker_facts c.core) (slice_index_or workers.items k w).history.book }
    requires client { IsClientsBook L.facts _graph.now (λ c. c.id) (λ c. client_facts c.core) client.book }
    ensures had { IfOk result.0.result (λ _. All (λ k. Z.had sink.new k ≡ true) wanted.now) }
    ensures leads { Z.leads sink.old sink.new }
    ensures ended { IfSome result.0.histories (HasRun L.facts _graph.now plan.now wanted.now ⊥
        (last_facts (facts scheduler.history.book.core.core) (map (λ w. worker_facts w.history.book.core.core) workers.items) (client_facts client.book.core.core))
        result.0.result result.0.left.items) }
    ensures none { result.0.histories ≡ None → HasNotRun result.0.result result.0.left.items }
    ensures doubt { IsDoubt L.facts plan.now wanted.now (facts scheduler.history.book.core.core) result.0.left.items result.1 }
{
    let got = has_got(wanted.as_slice(), &client);
    let failed = first_failure(plan, wanted.as_slice(), &client, &scheduler);
    let spent = is_spent(&scheduler, workers.as_slice(), &client);
    let left = all_left(alloc, plan, &scheduler, workers.as_slice());
    let joined = scheduler.joined();
    let scheduler = scheduler_history(scheduler);
    let client = client_history(client, sink);
    let all = has_all(wanted.as_slice(), &*sink);
    let (workers, feeds, stores) = take_apart(alloc, workers);
    let told = all_told(scheduler, workers, client, left);
    let ends = ends_of(alloc, result(got, all, failed, spent), told, feeds, stores);
    let doubt = doubt_of(ends.left.as_slice(), joined, failed);
    (ends, doubt)
}

/// The history of a closed scheduler, whose entries came in time.
#[tactic(auto, using(crate::proofs::Ending::taken_from))]
fn scheduler_history<B: Drop, L: Label<Block = B>>(scheduler: SchedulerNode<B, L>) -> History
    ensures taken { IsFromScheduler L.facts scheduler.history.book result }
    ensures in_time { scheduler.history.book.cut ≡ false → AreInTime scheduler.history.book.core.plan
        (start_of (facts scheduler.history.book.core.core).setting) scheduler.history.book.entries }
{
    scheduler.history.in_time();
    scheduler.history.into_log().into_history()
}

/// The history of a closed client, whose blocks go to the sink.
fn client_history<B: Drop, L: Label<Block = B>, Z: Sink<B, L>>(
    client: ClientNode<B, L>,
    sink: &mut Z,
) -> History
    ensures taken { IsFromClient L.facts (λ c. c.id) (λ c. client_facts c.core) (λ c. c.core.events) client.book result }
    ensures leads { Z.leads sink.old sink.new }
{
    let (book, came) = client.into_parts();
    hand_all(came, sink);
    history_of(book)
}

/// The history of a closed client's book.
#[tactic(auto, using(crate::proofs::Ending::taken_from))]
fn history_of<L: Label>(book: Book<GatheringCore<L>>) -> History
    ensures { IsFromClient L.facts (λ c. c.id) (λ c. client_facts c.core) (λ c. c.core.events) book result }
{
    book.into_log().into_history()
}

/// What is told of a run, where there is memory for all of it.
fn all_told(
    scheduler: History,
    workers: Option<Vec<History>>,
    client: History,
    left: Result<Vec<Option<Why>>, AllocError>,
) -> Option<Told>
    ensures { IfSome result (λ t. (t.histories.scheduler ≡ scheduler) × (workers ≡ Some t.histories.workers) × (t.histories.client ≡ client) × (left ≡ Ok t.left)) }
{
    match (left, workers) {
        (Ok(left), Some(workers)) => Some(Told {
            histories: Histories {
                scheduler,
                workers,
                client,
            },
            left,
        }),
        _ => None,
    }
}

/// How a run ended of which this is told.
fn ends_of<F: Drop, S: Drop>(
    alloc: Global,
    answer: Result<(), RunStatus>,
    told: Option<Told>,
    feeds: Vec<F>,
    stores: Vec<S>,
) -> Ends<F, S>
    ensures told { IfSome result.histories (λ h. (told ≡ Some (record { histories = h; left = result.left })) × (result.result ≡ answer)) }
    ensures none { result.histories ≡ None → HasNotRun result.result result.left.items }
    ensures answer { IfOk result.result (λ x. answer ≡ Ok x) }
{
    match told {
        Some(told) => {
            let Told { histories, left } = told;
            Ends {
                result: answer,
                histories: Some(histories),
                left,
                feeds,
                stores,
            }
        }
        None => not_run(alloc, feeds, stores),
    }
}

/// What else than want of memory a run may have ended by, where so many workers joined, and a wanted key failed so, if one did.
fn doubt_of(left: &[Option<Why>], joined: Option<u32>, failed: Option<Failure>) -> Doubt
    ensures { (f : Facts) → IfSome joined (λ n. n ≡ f.last_worker) → IsDoubtBy failed left.now (IsGivenUp f left.now) result }
{
    match failed {
        Some(Failure::Killed { key, losses }) => {
            if none_starved(left) {
                Doubt::Killed { key, losses }
            } else {
                Doubt::Memory
            }
        }
        Some(Failure::Zero { key: _ }) => Doubt::Memory,
        None => {
            if is_given_up(joined, left) {
                Doubt::GivenUp
            } else {
                Doubt::Memory
            }
        }
    }
}

/// Whether a node's core has taken all events that it takes.
fn is_spent<B: Drop, L: Label<Block = B>, F: Drop, S: BlockStore<B, L>>(
    scheduler: &SchedulerNode<B, L>,
    workers: &[WorkerNode<B, L, F, S>],
    client: &ClientNode<B, L>,
) -> bool
    ensures { result ≡ true → IsSpent scheduler.now.history.book (λ w. w.history.book) (λ c. c.core.events) workers.now client.now.book (λ c. c.core.events) }
{
    if scheduler.history.is_spent() {
        return true;
    }
    if client.book.is_spent() {
        return true;
    }
    any_spent(workers)
}

/// How a run ended: well where the client got all and the sink has all; else by the key at fault, if one failed by a zero divisor; else by a core that
/// is spent.
fn result(got: bool, all: bool, failed: Option<Failure>, spent: bool) -> Result<(), RunStatus>
    ensures got { IfOk result (λ _. got ≡ true) }
    ensures all { IfOk result (λ _. all ≡ true) }
    ensures cause { IfStatus (IsBlamed failed spent) result }
{
    if got && all {
        return Ok(());
    }
    if let Some(Failure::Zero { key }) = failed {
        return Err(RunStatus::Zero { key });
    }
    if spent {
        return Err(RunStatus::Events);
    }
    Err(RunStatus::Memory)
}
