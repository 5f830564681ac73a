//! What a world tells: blocks and ends, counts, and the message that an event takes. No question takes memory.
ghost use Rattle.std.specs.Prelude.{◌≡◌, ◌<◌, ◌+◌, ◌-◌, ◌^◌, ◌||◌, cond, length, min};
ghost use Rattle.std.specs.Option.{option_copied, option_map};
ghost use Rattle.cluster_msgs.specs.declared.messages.Message.TheVariants.{Peer as PeerMessage};
ghost use Rattle.cluster_msgs.specs.declared.messages.Peer.TheVariants.{GetData, Data};
ghost use Rattle.cluster_rules.specs.Client.{done, client_pairs};
ghost use Rattle.cluster_rules.specs.Enabled.{message, message_at};
ghost use Rattle.cluster_rules.specs.Functions.{total};
ghost use Rattle.cluster_rules.specs.Worker.{pairs};
ghost use Rattle.cluster_rules.specs.World.{Parcel, all_clients, all_workers, is_connected, parcel_of, under_way, worker_count};
ghost use Rattle.cluster_nodes.specs.Kept.{IsNodes};
ghost use Rattle.cluster_world.specs.Worlds.{cluster, world};
ghost use Rattle.cluster_world.specs.Kept.{IsJoint};

use crate::state::State;
use cluster_msgs::{Asker, End, Event, Message};
use cluster_rules::Facts;

impl<J: Drop, B: Drop, F: Drop> State<J, B, F> {
    /// The block that a client has got of a key.
    pub fn block(&self, client: u32, key: u32) -> Option<&B>
        ensures { option_copied result ≡ (cluster self.now).blocks.got client key }
    {
        match self.nodes.got.look(client, key) {
            Some(block) => Some(&**block),
            None => None,
        }
    }

    /// How a key that a client waited for ended.
    pub fn done(&self, client: u32, key: u32) -> Option<End>
        ensures { result ≡ done ((world self.now).clients client) key }
    {
        if (client as usize) < self.nodes.clients.len() {
            self.nodes.clients[client as usize].done(key)
        } else {
            None
        }
    }

    /// How many workers are alive or connected.
    pub fn worker_count(&self) -> u64
        ensures { result ≡ worker_count (world self.now) }
    {
        let mut count: u64 = 0;
        for before in 0..self.sched.last_worker() {
            count += self.worker_counts(before + 1);
        }
        count
    }

    /// 1 where the worker is alive or connected.
    fn worker_counts(&self, worker: u32) -> u64
        ensures { result ≡ cond ((world self.now).alive worker || is_connected (world self.now) worker) 1 0 }
    {
        u64::from(self.is_alive(worker) | self.is_connected(worker))
    }

    /// How many messages, requests and answers are under way, with the pairs of a key and a holder that the workers that
    /// are alive and the clients know, or 2^64 - 1 where it is more.
    pub fn under_way(&self) -> u64
        requires { IsJoint self.now }
        ensures { result ≡ min (under_way (world self.now)) (2 ^ 64 - 1) }
    {
        let requests = self.nodes.requests.len() as u64;
        let answers = self.nodes.answers.len() as u64;
        let moving = requests.saturating_add(answers);
        let messages = self
            .worker_messages()
            .saturating_add(self.client_messages());
        let known = self.worker_pairs().saturating_add(self.client_pairs());
        let sent = messages.saturating_add(moving);
        sent.saturating_add(known)
    }

    /// The messages on the links of workers.
    fn worker_messages(&self) -> u64
        requires { IsJoint self.now }
        ensures { result ≡ min (total (λ i. length ((world self.now).down i) + length ((world self.now).up i)) (all_workers (world self.now))) (2 ^ 64 - 1) }
    {
        let mut total: u64 = 0;
        for before in 0..self.sched.last_worker() {
            total = total.saturating_add(self.messages_of_worker(before + 1));
        }
        total
    }

    fn messages_of_worker(&self, worker: u32) -> u64
        requires { IsNodes self.now.nodes }
        ensures { result ≡ min (length ((world self.now).down worker) + length ((world self.now).up worker)) (2 ^ 64 - 1) }
    {
        (self.nodes.down.len(worker) as u64).saturating_add(self.nodes.up.len(worker) as u64)
    }

    /// The messages on the links of clients.
    fn client_messages(&self) -> u64
        requires { IsJoint self.now }
        ensures { result ≡ min (total (λ c. length ((world self.now).to_client c) + length ((world self.now).from_client c)) (all_clients (world self.now))) (2 ^ 64 - 1) }
    {
        let mut total: u64 = 0;
        for before in 0..self.clients {
            total = total.saturating_add(self.messages_of_client(before + 1));
        }
        total
    }

    fn messages_of_client(&self, client: u32) -> u64
        requires { IsNodes self.now.nodes }
        ensures { result ≡ min (length ((world self.now).to_client client) + length ((world self.now).from_client client)) (2 ^ 64 - 1) }
    {
        (self.nodes.to_client.len(client) as u64).saturating_add(
            self.nodes.from_client.len(client) as u64,
        )
    }

    /// The pairs that the workers that are alive know.
    fn worker_pairs(&self) -> u64
        requires { IsJoint self.now }
        ensures { result ≡ min (total (λ i. cond ((world self.now).alive i) (pairs ((world self.now).workers i)) 0) (all_workers (world self.now))) (2 ^ 64 - 1) }
    {
        let mut total: u64 = 0;
        for before in 0..self.sched.last_worker() {
            total = total.saturating_add(self.pairs_of_worker(before + 1));
        }
        total
    }

    fn pairs_of_worker(&self, worker: u32) -> u64
        requires { IsNodes self.now.nodes }
        ensures { result ≡ min (cond ((world self.now).alive worker) (pairs ((world self.now).workers worker)) 0) (2 ^ 64 - 1) }
    {
        match self.worker(worker) {
            Some(core) => core.pairs(),
            None => 0,
        }
    }

    /// The pairs that the clients know.
    fn client_pairs(&self) -> u64
        requires { IsJoint self.now }
        ensures { result ≡ min (total (λ c. client_pairs ((world self.now).clients c)) (all_clients (world self.now))) (2 ^ 64 - 1) }
    {
        let mut total: u64 = 0;
        for before in 0..self.clients {
            total = total.saturating_add(self.pairs_of_client(before + 1));
        }
        total
    }

    fn pairs_of_client(&self, client: u32) -> u64
        requires number { client < length self.now.nodes.clients.items }
        ensures { result ≡ min (client_pairs ((world self.now).clients client)) (2 ^ 64 - 1) }
    {
        self.nodes.clients[client as usize].pairs()
    }

    /// The message that the event would take, where it is enabled and takes one.
    pub fn message(&self, e: &Event) -> Option<&Message>
        requires { IsJoint self.now }
        ensures { option_copied result ≡ message (world self.now) e.now }
    {
        if self.enabled(e) {
            self.message_at(e)
        } else {
            None
        }
    }

    /// The message that an event takes that is enabled.
    fn message_at(&self, e: &Event) -> Option<&Message>
        requires { IsJoint self.now }
        ensures { option_copied result ≡ message_at (world self.now) e.now }
    {
        match e {
            Event::DeliverDown { worker } => self.nodes.down.front(*worker),
            Event::DeliverUp { worker } => self.nodes.up.front(*worker),
            Event::DeliverToClient { client } => self.nodes.to_client.front(*client),
            Event::DeliverFromClient { client } => self.nodes.from_client.front(*client),
            Event::ServeGather { peer, asker, ask } => self.request(*asker, *peer, *ask),
            Event::ArriveGather { asker, peer, ask } => self.answer(*asker, *peer, *ask),
            _ => None,
        }
    }

    /// The request of an ask, where it is under way.
    fn request(&self, asker: Asker, peer: u32, ask: u64) -> Option<&Message>
        requires { IsNodes self.now.nodes }
        ensures { option_copied result ≡ option_map (λ (q : Parcel). PeerMessage (GetData q.ask q.keys)) (parcel_of asker peer ask (world self.now).requests) }
    {
        match self.nodes.requests.find(asker, peer, ask) {
            Some(request) => Some(&request.message),
            None => None,
        }
    }

    /// The answer to an ask, where it is under way.
    fn answer(&self, asker: Asker, peer: u32, ask: u64) -> Option<&Message>
        requires { IsNodes self.now.nodes }
        ensures { option_copied result ≡ option_map (λ (q : Parcel). PeerMessage (Data q.ask q.keys)) (parcel_of asker peer ask (world self.now).answers) }
    {
        match self.nodes.answers.find(asker, peer, ask) {
            Some(answer) => Some(&answer.message),
            None => None,
        }
    }
}
