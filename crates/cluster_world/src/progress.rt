//! The events that make progress, in their order: which one has a number, and how many are enabled.
ghost use Rattle.std.specs.Prelude.{◌≡◌, ◌+◌, ◌-◌, ◌<◌, ◌^◌, ℕ, false, true, length, map, min, slice_get};
ghost use Rattle.std.specs.List.{flat_map};
ghost use Rattle.cluster_msgs.specs.Shape.{key_count};
ghost use Rattle.cluster_msgs.specs.declared.events.Asker.TheVariants.{Client};
ghost use Rattle.cluster_msgs.specs.declared.events.Event.TheVariants.{Finish};
ghost use Rattle.cluster_rules.specs.Derived.{below};
ghost use Rattle.cluster_rules.specs.Functions.{from_one};
ghost use Rattle.cluster_rules.specs.Enabled.{enabled, progress, progress_kinds, quiet_askers, is_quiet_asker};
ghost use Rattle.cluster_rules.specs.World.{all_workers, all_clients, shape_of};
ghost use Rattle.cluster_world.specs.declared.search.Search.TheVariants as search;
ghost use Rattle.cluster_world.specs.Searching.{next, searched, event_of, is_of_connected, node_events, finish_events, ask_events, asks_of, worker_asks, name_of, serve_events, answer_events};

use crate::choices::Choices;
use crate::search::Search;
use cluster_msgs::{Asker, Event};

/// The kinds whose events are of one worker or one client each.
#[derive(Clone, Copy)]
pub enum Kind {
    SeeLoss,
    DeliverDown,
    DeliverUp,
    DeliverToClient,
    DeliverFromClient,
    Start,
}

impl Kind {
    fn event(self, node: u32) -> Event
        ensures { result ≡ event_of self node }
    {
        match self {
            Kind::SeeLoss => Event::SeeLoss { worker: node },
            Kind::DeliverDown => Event::DeliverDown { worker: node },
            Kind::DeliverUp => Event::DeliverUp { worker: node },
            Kind::DeliverToClient => Event::DeliverToClient { client: node },
            Kind::DeliverFromClient => Event::DeliverFromClient { client: node },
            Kind::Start => Event::Start { worker: node },
        }
    }

    /// Whether the events are of connected workers alone.
    fn is_of_connected(self) -> bool
        ensures { result ≡ is_of_connected self }
    {
        match self {
            Kind::DeliverDown | Kind::DeliverUp | Kind::Start => true,
            Kind::SeeLoss | Kind::DeliverToClient | Kind::DeliverFromClient => false,
        }
    }
}

/// How many progress events are enabled, or 2^64 - 1 where it is more.
pub fn count_progress<C: Choices>(world: &C) -> u64
    requires { C.is_whole world.now }
    ensures { result ≡ min (length (progress (C.world world.now))) (2 ^ 64 - 1) }
{
    u64::MAX - search(world, u64::MAX).left()
}

/// The enabled progress event of this number, from 0. None exactly where there are at most as many.
pub fn nth_progress<C: Choices>(world: &C, n: u64) -> Option<Event>
    requires { C.is_whole world.now }
    ensures { result ≡ slice_get (progress (C.world world.now)) n }
{
    match search(world, n) {
        Search::Passing(_) => None,
        Search::Found(e) => Some(e),
    }
}

/// Goes through all progress events in their order, and finds the enabled one with this number.
pub fn search<C: Choices>(world: &C, n: u64) -> Search
    requires { C.is_whole world.now }
    ensures { result ≡ searched (enabled (C.world world.now)) (search.Passing n) (flat_map (λ es. es) (progress_kinds (C.world world.now))) }
{
    let workers = world.last_worker();
    let clients = world.clients();
    let losses = search_kind(world, Kind::SeeLoss, workers, Search::Passing(n));
    let downs = search_kind(world, Kind::DeliverDown, workers, losses);
    let ups = search_kind(world, Kind::DeliverUp, workers, downs);
    let news = search_kind(world, Kind::DeliverToClient, clients, ups);
    let wants = search_kind(world, Kind::DeliverFromClient, clients, news);
    let starts = search_kind(world, Kind::Start, workers, wants);
    let finishes = search_finishes(world, starts);
    let asks = search_asks(world, false, finishes);
    let requests = search_requests(world, asks);
    let answers = search_answers(world, requests);
    search_fails(world, answers)
}

fn search_one<C: Choices>(world: &C, e: Event, search: Search) -> Search
    requires { C.is_whole world.now }
    ensures { result ≡ next search (enabled (C.world world.now) e) e }
{
    let enabled = world.enabled(&e);
    search.next(enabled, e)
}

/// The events of one kind.
fn search_kind<C: Choices>(world: &C, kind: Kind, last: u32, search: Search) -> Search
    requires { C.is_whole world.now }
    ensures { result ≡ searched (enabled (C.world world.now)) search (flat_map (node_events (C.world world.now) kind) (from_one last)) }
{
    let mut search = search;
    for before in 0..last {
        search = search_node(world, kind, before + 1, search);
    }
    search
}

/// The event of one kind at one node.
fn search_node<C: Choices>(world: &C, kind: Kind, node: u32, search: Search) -> Search
    requires { C.is_whole world.now }
    ensures { result ≡ searched (enabled (C.world world.now)) search (node_events (C.world world.now) kind node) }
{
    let connected = world.connected(node);
    if kind.is_of_connected() & !connected {
        search
    } else {
        search_one(world, kind.event(node), search)
    }
}

/// Tasks that finish, by worker and key.
fn search_finishes<C: Choices>(world: &C, search: Search) -> Search
    requires { C.is_whole world.now }
    ensures { result ≡ searched (enabled (C.world world.now)) search (flat_map (finish_events (C.world world.now)) (all_workers (C.world world.now))) }
{
    let mut search = search;
    for before in 0..world.last_worker() {
        search = search_finishes_of(world, before + 1, search);
    }
    search
}

fn search_finishes_of<C: Choices>(world: &C, worker: u32, search: Search) -> Search
    requires { C.is_whole world.now }
    ensures { result ≡ searched (enabled (C.world world.now)) search (finish_events (C.world world.now) worker) }
{
    if search.is_found() {
        return search;
    }
    if !world.connected(worker) {
        return search;
    }
    search_runs(world, worker, search)
}

/// The tasks that can finish at a worker, by key. It passes over the keys that don't run.
fn search_runs<C: Choices>(world: &C, worker: u32, search: Search) -> Search
    requires { C.is_whole world.now }
    ensures { result ≡ searched (enabled (C.world world.now)) search (map (λ k. Finish worker k) (below (key_count (shape_of (C.world world.now))))) }
{
    let keys = world.keys();
    let mut search = search;
    let mut first = 0;
    while let Some(key) = world.next_finish(worker, first) {
        search = search.next(true, Event::Finish { worker, key });
        first = key + 1;
    }
    search
}

/// Gathers that are sent, or those that fail since their peer is dead: by asker, workers before clients, then by peer.
fn search_asks<C: Choices>(world: &C, failing: bool, search: Search) -> Search
    requires { C.is_whole world.now }
    ensures { result ≡ searched (enabled (C.world world.now)) search (flat_map (asks_of (C.world world.now) failing) (quiet_askers (C.world world.now))) }
{
    let workers = search_worker_asks(world, failing, search);
    search_client_asks(world, failing, workers)
}

/// Gathers that fail: none, where all workers are alive.
fn search_fails<C: Choices>(world: &C, search: Search) -> Search
    requires { C.is_whole world.now }
    ensures { result ≡ searched (enabled (C.world world.now)) search (flat_map (asks_of (C.world world.now) true) (quiet_askers (C.world world.now))) }
{
    if some_died(world) {
        search_asks(world, true, search)
    } else {
        search
    }
}

/// Whether a worker is dead.
fn some_died<C: Choices>(world: &C) -> bool
    requires { C.is_whole world.now }
    ensures { result ≡ false → (n : ℕ) → n < (C.world world.now).sched.last_worker → (C.world world.now).alive (n + 1) ≡ true }
{
    for before in 0..world.last_worker() {
        let dead = !world.alive(before + 1);
        if dead {
            return true;
        }
    }
    false
}

/// Those of connected workers.
fn search_worker_asks<C: Choices>(world: &C, failing: bool, search: Search) -> Search
    requires { C.is_whole world.now }
    ensures { result ≡ searched (enabled (C.world world.now)) search (flat_map (λ i. worker_asks (C.world world.now) failing i) (all_workers (C.world world.now))) }
{
    let mut search = search;
    for before in 0..world.last_worker() {
        search = search_asks_at(world, before + 1, failing, search);
    }
    search
}

/// Those of one worker, where it is connected.
fn search_asks_at<C: Choices>(world: &C, worker: u32, failing: bool, search: Search) -> Search
    requires { C.is_whole world.now }
    ensures { result ≡ searched (enabled (C.world world.now)) search (worker_asks (C.world world.now) failing worker) }
{
    if world.connected(worker) {
        search_asks_of(world, Asker::Worker(worker), failing, search)
    } else {
        search
    }
}

/// Those of clients.
fn search_client_asks<C: Choices>(world: &C, failing: bool, search: Search) -> Search
    requires { C.is_whole world.now }
    ensures { result ≡ searched (enabled (C.world world.now)) search (flat_map (λ c. asks_of (C.world world.now) failing (Client c)) (all_clients (C.world world.now))) }
{
    let mut search = search;
    for before in 0..world.clients() {
        search = search_asks_of(world, Asker::Client(before + 1), failing, search);
    }
    search
}

/// Those of one asker, by peer.
fn search_asks_of<C: Choices>(world: &C, asker: Asker, failing: bool, search: Search) -> Search
    requires { C.is_whole world.now }
    ensures { result ≡ searched (enabled (C.world world.now)) search (asks_of (C.world world.now) failing asker) }
{
    if search.is_found() {
        return search;
    }
    if failing {
        search_each(world, asker, true, search)
    } else {
        search_questions(world, asker, search)
    }
}

/// The asks that one asker sends, by peer: none, where it has nothing to ask.
fn search_questions<C: Choices>(world: &C, asker: Asker, search: Search) -> Search
    requires { C.is_whole world.now }
    ensures { result ≡ searched (enabled (C.world world.now)) search (asks_of (C.world world.now) false asker) }
{
    if world.has_questions(asker) {
        search_each(world, asker, false, search)
    } else {
        search
    }
}

/// The asks of one asker, peer by peer.
fn search_each<C: Choices>(world: &C, asker: Asker, failing: bool, search: Search) -> Search
    requires { C.is_whole world.now }
    ensures { result ≡ searched (enabled (C.world world.now)) search (asks_of (C.world world.now) failing asker) }
{
    let mut search = search;
    for before in 0..world.last_worker() {
        search = search_ask(world, asker, before + 1, failing, search);
    }
    search
}

fn search_ask<C: Choices>(
    world: &C,
    asker: Asker,
    peer: u32,
    failing: bool,
    search: Search,
) -> Search
    requires { C.is_whole world.now }
    ensures { result ≡ searched (enabled (C.world world.now)) search (ask_events (C.world world.now) failing asker peer) }
{
    if !failing {
        return search_one(world, Event::SendGather { asker, peer }, search);
    }
    if world.alive(peer) {
        return search;
    }
    search_one(world, Event::FailGather { asker, peer }, search)
}

/// Requests that are served.
fn search_requests<C: Choices>(world: &C, search: Search) -> Search
    requires { C.is_whole world.now }
    ensures { result ≡ searched (enabled (C.world world.now)) search (flat_map serve_events (map name_of (C.world world.now).requests)) }
{
    let mut search = search;
    for place in 0..world.requests() {
        let (asker, peer, ask) = world.request(place);
        search = search_one(world, Event::ServeGather { peer, asker, ask }, search);
    }
    search
}

/// Answers that arrive.
fn search_answers<C: Choices>(world: &C, search: Search) -> Search
    requires { C.is_whole world.now }
    ensures { result ≡ searched (enabled (C.world world.now)) search (flat_map (answer_events (C.world world.now)) (map name_of (C.world world.now).answers)) }
{
    let mut search = search;
    for place in 0..world.answers() {
        let (asker, peer, ask) = world.answer(place);
        search = search_answer(world, asker, peer, ask, search);
    }
    search
}

/// One answer, where its arrival is progress.
fn search_answer<C: Choices>(world: &C, asker: Asker, peer: u32, ask: u64, search: Search) -> Search
    requires { C.is_whole world.now }
    ensures { result ≡ searched (enabled (C.world world.now)) search (answer_events (C.world world.now) (asker, peer, ask)) }
{
    if is_quiet(world, asker) {
        search_one(world, Event::ArriveGather { asker, peer, ask }, search)
    } else {
        search
    }
}

/// Whether what the asker gathers is progress: it is a client, or a connected worker.
fn is_quiet<C: Choices>(world: &C, asker: Asker) -> bool
    requires { C.is_whole world.now }
    ensures { result ≡ is_quiet_asker (C.world world.now) asker }
{
    match asker {
        Asker::Worker(worker) => world.connected(worker),
        Asker::Client(_) => true,
    }
}
