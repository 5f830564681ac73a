//! Which events are enabled. No question takes memory.
ghost use Rattle.std.specs.Prelude.{◌≡◌, ◌+◌, ◌&&◌, ℕ, None, false, cond, length, nat_lt, not, is_some};
ghost use Rattle.std.specs.List.{list_all};
ghost use Rattle.std.specs.Option.{option_copied, option_map};
ghost use Rattle.cluster_msgs.specs.declared.events.Event.TheVariants.{SendGather};
ghost use Rattle.cluster_rules.specs.SchedTable.{sched_takes};
ghost use Rattle.cluster_rules.specs.Worker.{ask_to, has_any, would_ask, would_start};
ghost use Rattle.cluster_rules.specs.Client.{client_would_ask};
ghost use Rattle.cluster_rules.specs.World.{is_asker, is_client, is_connected, open_ask, parcel_of};
ghost use Rattle.cluster_rules.specs.Enabled.{are_named, enabled, may_ask};
ghost use Rattle.cluster_nodes.specs.Kept.{IsNodes};
ghost use Rattle.cluster_world.specs.Worlds.{world, setting};
ghost use Rattle.cluster_world.specs.Kept.{IsJoint};
ghost use Rattle.cluster_world.specs.Found.{IsWorkerAt, IsClientAt};
ghost use Rattle.cluster_world.specs.Searching.{IsNextFinish};

use crate::state::State;
use cluster_msgs::{Asker, Event, KeyList, SchedEvent};
use cluster_rules::Facts;
use gather_client::ClientCore;
use worker_core::WorkerCore;

impl<J: Drop, B: Drop, F: Drop> State<J, B, F> {
    /// Whether the event is enabled.
    pub fn enabled(&self, e: &Event) -> bool
        requires { IsJoint self.now }
        ensures { result ≡ enabled (world self.now) e.now }
    {
        match e {
            Event::Want { client, keys } => self.is_client(*client) & self.are_named(keys),
            Event::Release { client, keys } => self.is_client(*client) & self.are_named(keys),
            Event::Join { threads } => self.takes(&SchedEvent::Join { threads: *threads }),
            Event::Lose { worker } => self.is_alive(*worker),
            Event::SeeLoss { worker } => !self.is_alive(*worker) & self.is_connected(*worker),
            Event::Suspect { worker } => self.is_connected(*worker),
            Event::DeliverDown { worker } => self.is_alive(*worker) & self.down_waits(*worker),
            Event::DeliverUp { worker } => self.up_waits(*worker),
            Event::DeliverToClient { client } => self.news_waits(*client),
            Event::DeliverFromClient { client } => self.want_waits(*client),
            Event::Start { worker } => self.may_start(*worker),
            Event::Finish { worker, key } => self.may_finish(*worker, *key),
            Event::SendGather { asker, peer } => self.may_ask(*asker, *peer),
            Event::ServeGather { peer, asker, ask } => {
                self.is_alive(*peer) & self.is_requested(*asker, *peer, *ask)
            }
            Event::ArriveGather { asker, peer, ask } => {
                self.is_asker(*asker) & self.is_answered(*asker, *peer, *ask)
            }
            Event::FailGather { asker, peer } => self.may_fail(*asker, *peer),
            Event::Balance => self.takes(&SchedEvent::Balance),
            Event::Evict => self.takes(&SchedEvent::Evict),
            Event::Replicate { key, worker } => self.takes(&SchedEvent::Replicate {
                key: *key,
                w: *worker,
            }),
            Event::Spill { worker, key } => self.may_spill(*worker, *key),
            Event::LoseSpilled { worker, key } => {
                self.is_alive(*worker) & self.is_spilled(*worker, *key)
            }
        }
    }

    /// Whether the scheduler takes the event.
    fn takes(&self, e: &SchedEvent) -> bool
        ensures { result ≡ sched_takes (world self.now).sched e.now }
    {
        self.sched.takes(e)
    }

    /// Whether a worker is connected.
    pub fn is_connected(&self, worker: u32) -> bool
        ensures { result ≡ is_connected (world self.now) worker }
    {
        self.sched.connected(worker)
    }

    /// Whether a worker is alive.
    pub fn is_alive(&self, worker: u32) -> bool
        ensures { result ≡ (world self.now).alive worker }
    {
        self.nodes.alive.test(worker as usize)
    }

    /// Whether a worker's key is spilled.
    fn is_spilled(&self, worker: u32, key: u32) -> bool
        ensures { result ≡ (world self.now).spilled worker key }
    {
        self.nodes.spilled.test(worker, key)
    }

    /// Whether there is such a client.
    pub fn is_client(&self, client: u32) -> bool
        requires { self.now.clients ≡ (setting self.now).clients }
        ensures { result ≡ is_client (world self.now) client }
    {
        (client >= 1) & (client <= self.clients)
    }

    /// Whether the asker is there, and alive.
    fn is_asker(&self, asker: Asker) -> bool
        requires { self.now.clients ≡ (setting self.now).clients }
        ensures { result ≡ is_asker (world self.now) asker }
    {
        match asker {
            Asker::Worker(worker) => self.is_alive(worker),
            Asker::Client(client) => self.is_client(client),
        }
    }

    /// Whether these are keys of the graph, and some.
    fn are_named(&self, keys: &KeyList) -> bool
        requires { self.now.nodes.shape ≡ (setting self.now).shape }
        ensures { result ≡ are_named (world self.now) keys.now }
    {
        let some = !keys.is_empty();
        some & are_below(keys.as_slice(), self.nodes.shape.keys())
    }

    /// Whether a message waits for a worker.
    fn down_waits(&self, worker: u32) -> bool
        requires { IsNodes self.now.nodes }
        ensures { result ≡ has_any ((world self.now).down worker) }
    {
        self.nodes.down.len(worker) > 0
    }

    /// Whether a message of a worker waits.
    fn up_waits(&self, worker: u32) -> bool
        requires { IsNodes self.now.nodes }
        ensures { result ≡ has_any ((world self.now).up worker) }
    {
        self.nodes.up.len(worker) > 0
    }

    /// Whether a message waits for a client.
    fn news_waits(&self, client: u32) -> bool
        requires { IsNodes self.now.nodes }
        ensures { result ≡ has_any ((world self.now).to_client client) }
    {
        self.nodes.to_client.len(client) > 0
    }

    /// Whether a message of a client waits.
    fn want_waits(&self, client: u32) -> bool
        requires { IsNodes self.now.nodes }
        ensures { result ≡ has_any ((world self.now).from_client client) }
    {
        self.nodes.from_client.len(client) > 0
    }

    /// Whether the request of an ask is under way.
    fn is_requested(&self, asker: Asker, peer: u32, ask: u64) -> bool
        ensures { result ≡ is_some (parcel_of asker peer ask (world self.now).requests) }
    {
        self.nodes.requests.find(asker, peer, ask).is_some()
    }

    /// Whether the answer to an ask is under way.
    fn is_answered(&self, asker: Asker, peer: u32, ask: u64) -> bool
        ensures { result ≡ is_some (parcel_of asker peer ask (world self.now).answers) }
    {
        self.nodes.answers.find(asker, peer, ask).is_some()
    }

    /// A worker that is alive.
    pub fn worker(&self, worker: u32) -> Option<&WorkerCore>
        requires { IsNodes self.now.nodes }
        ensures { IsWorkerAt (world self.now) worker (option_copied result) }
    {
        if self.is_alive(worker) {
            Some(&self.nodes.workers[worker as usize])
        } else {
            None
        }
    }

    /// A client that is there.
    pub fn client(&self, client: u32) -> Option<&ClientCore>
        requires counted { self.now.clients ≡ (setting self.now).clients }
        requires clients { length self.now.nodes.clients.items ≡ (setting self.now).clients + 1 }
        ensures { IsClientAt (world self.now) client (option_copied result) }
    {
        if self.is_client(client) {
            Some(&self.nodes.clients[client as usize])
        } else {
            None
        }
    }

    /// The key that a worker that is alive would start.
    pub fn would_start(&self, worker: u32) -> Option<u32>
        requires { IsNodes self.now.nodes }
        ensures { result ≡ cond ((world self.now).alive worker) (would_start ((world self.now).workers worker)) None }
    {
        match self.worker(worker) {
            Some(core) => core.would_start(),
            None => None,
        }
    }

    /// The number of the open ask of an asker that is there to a peer.
    pub fn ask_number(&self, asker: Asker, peer: u32) -> Option<u64>
        requires { IsJoint self.now }
        ensures { result ≡ cond (is_asker (world self.now) asker) (option_map (λ a. a.number) (open_ask (world self.now) asker peer)) None }
    {
        match asker {
            Asker::Worker(worker) => self.worker_ask(worker, peer),
            Asker::Client(client) => self.client_ask(client, peer),
        }
    }

    fn worker_ask(&self, worker: u32, peer: u32) -> Option<u64>
        requires { IsNodes self.now.nodes }
        ensures { result ≡ cond ((world self.now).alive worker) (option_map (λ a. a.number) (ask_to ((world self.now).workers worker).asks peer)) None }
    {
        match self.worker(worker) {
            Some(core) => core.ask_number(peer),
            None => None,
        }
    }

    fn client_ask(&self, client: u32, peer: u32) -> Option<u64>
        requires { IsJoint self.now }
        ensures { result ≡ cond (is_client (world self.now) client) (option_map (λ a. a.number) (ask_to ((world self.now).clients client).asks peer)) None }
    {
        match self.client(client) {
            Some(core) => core.ask_number(peer),
            None => None,
        }
    }

    fn may_start(&self, worker: u32) -> bool
        requires { IsNodes self.now.nodes }
        ensures { result ≡ ((world self.now).alive worker && is_some (would_start ((world self.now).workers worker))) }
    {
        self.would_start(worker).is_some()
    }

    fn may_finish(&self, worker: u32, key: u32) -> bool
        requires { IsNodes self.now.nodes }
        ensures { result ≡ ((world self.now).alive worker && ((world self.now).workers worker).running key) }
    {
        match self.worker(worker) {
            Some(core) => core.runs(key),
            None => false,
        }
    }

    /// The least key from this one on whose task can finish at a worker.
    pub fn next_finish(&self, worker: u32, first: u32) -> Option<u32>
        requires { IsJoint self.now }
        ensures { IsNextFinish (world self.now) worker first result }
    {
        match self.worker(worker) {
            Some(core) => core.next_run(first),
            None => None,
        }
    }

    fn may_spill(&self, worker: u32, key: u32) -> bool
        requires { IsNodes self.now.nodes }
        ensures { result ≡ ((world self.now).alive worker && (((world self.now).workers worker).mem key && not ((world self.now).spilled worker key))) }
    {
        let spilled = self.is_spilled(worker, key);
        match self.worker(worker) {
            Some(core) => core.holds(key) & !spilled,
            None => false,
        }
    }

    fn may_ask(&self, asker: Asker, peer: u32) -> bool
        requires { IsJoint self.now }
        ensures { result ≡ (is_asker (world self.now) asker && may_ask (world self.now) asker peer) }
    {
        match asker {
            Asker::Worker(worker) => self.worker_may_ask(worker, peer),
            Asker::Client(client) => self.client_may_ask(client, peer),
        }
    }

    fn worker_may_ask(&self, worker: u32, peer: u32) -> bool
        requires { IsNodes self.now.nodes }
        ensures { result ≡ ((world self.now).alive worker && would_ask ((world self.now).workers worker) peer) }
    {
        match self.worker(worker) {
            Some(core) => core.would_ask(peer),
            None => false,
        }
    }

    /// Whether an asker may have something to ask a peer. Where it hasn't, no ask of it can be sent.
    pub fn has_questions(&self, asker: Asker) -> bool
        requires { IsJoint self.now }
        ensures { result ≡ false → (p : ℕ) → enabled (world self.now) (SendGather asker p) ≡ false }
    {
        match asker {
            Asker::Worker(worker) => self.worker_fetches(worker),
            Asker::Client(_) => true,
        }
    }

    /// Whether a worker that is alive has a key to fetch.
    fn worker_fetches(&self, worker: u32) -> bool
        requires { IsNodes self.now.nodes }
        ensures { result ≡ false → (p : ℕ) → ((world self.now).alive worker && would_ask ((world self.now).workers worker) p) ≡ false }
    {
        match self.worker(worker) {
            Some(core) => core.is_fetching(),
            None => false,
        }
    }

    fn client_may_ask(&self, client: u32, peer: u32) -> bool
        requires { IsJoint self.now }
        ensures { result ≡ (is_client (world self.now) client && client_would_ask ((world self.now).clients client) peer) }
    {
        match self.client(client) {
            Some(core) => core.would_ask(peer),
            None => false,
        }
    }

    fn may_fail(&self, asker: Asker, peer: u32) -> bool
        requires { IsJoint self.now }
        ensures { result ≡ (is_asker (world self.now) asker && is_some (open_ask (world self.now) asker peer)) }
    {
        self.ask_number(asker, peer).is_some()
    }
}

/// Whether all keys are below a count.
fn are_below(keys: &[u32], count: u32) -> bool
    ensures { result ≡ list_all (λ k. nat_lt k count) keys.now }
{
    for key in keys {
        if *key >= count {
            return false;
        }
    }
    true
}
