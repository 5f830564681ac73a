//! The questions about a client's facts: how a key ended, and what could be asked for next. None takes memory but the
//! list of items to ask for.
ghost use Rattle.std.specs.Prelude.{◌≡◌, ◌==◌, ◌-◌, ◌<◌, ◌^◌, ℕ, true, min, take, IfOk};
ghost use Rattle.std.specs.List.{list_any};
ghost use Rattle.cluster_msgs.specs.Shape.{key_count};
ghost use Rattle.cluster_rules.specs.Worker.{ask_items, has_any};
ghost use Rattle.cluster_rules.specs.Client.{done, client_fetchable, client_would_ask, client_pairs, client_takes, are_client_keys, can_hear};
ghost use Rattle.gather_client.specs.Stored.{facts_of};
ghost use Rattle.gather_client.specs.Steps.{open_item};

use crate::table::ClientTable;
use cluster_msgs::{ClientEvent, End, ToClient};
use open_asks::{fitting_count, item_at, push_item};
use std::alloc::AllocError;

/// At most this many keys go into one ask.
const ASK_KEYS: usize = 16;

impl ClientTable {
    /// How the key ended, where it did.
    pub fn done(&self, key: u32) -> Option<End>
        ensures { result ≡ done (facts_of self.now) key }
    {
        if self.has_got(key) {
            return Some(End::Got);
        }
        match self.failed(key) {
            Some(blame) => Some(End::Erred { blame }),
            None => None,
        }
    }

    /// The key with the copy that the peer holds, where it is to be fetched and the peer holds it.
    fn open_item(&self, peer: u32, key: u32) -> Option<(u32, u64)>
        requires { key < key_count (facts_of self.now).shape }
        ensures { result ≡ open_item (facts_of self.now) peer key }
    {
        if self.is_open(key) {
            item_at(peer, key, self.located(key))
        } else {
            None
        }
    }

    /// Whether an ask to this peer is possible: none is open, and it holds a key to fetch.
    pub fn would_ask(&self, peer: u32) -> bool
        ensures { result ≡ client_would_ask (facts_of self.now) peer }
    {
        !self.has_ask(peer) && self.has_fetchable(peer)
    }

    /// Whether the peer holds a key to fetch.
    fn has_fetchable(&self, peer: u32) -> bool
        ensures { result ≡ has_any (client_fetchable (facts_of self.now) peer) }
    {
        self.sound();
        let mut from = 0;
        'keys: while let Some(key) = self.next_held(peer, from) {
            if self.open_item(peer, key).is_some() {
                return true;
            }
            from = key + 1;
        }
        false
    }

    /// The first keys to fetch that the peer holds, ascending, with their copies: as many as one ask may have.
    ///
    /// # Errors
    /// Where no memory is left.
    fn first_fetchable(&self, peer: u32) -> Result<Vec<(u32, u64)>, AllocError>
        ensures { IfOk result (λ items. items.items ≡ take 16 (client_fetchable (facts_of self.now) peer)) }
    {
        self.sound();
        let mut items = Vec::new(self.allocator());
        let mut from = 0;
        'keys: while let Some(key) = self.next_held(peer, from) {
            push_item(&mut items, self.open_item(peer, key))?;
            if items.len() >= ASK_KEYS {
                return Ok(items);
            }
            from = key + 1;
        }
        Ok(items)
    }

    /// The items that an ask to this peer would be for.
    ///
    /// # Errors
    /// Where no memory is left.
    pub fn ask_items(&self, peer: u32) -> Result<Vec<(u32, u64)>, AllocError>
        ensures items { IfOk result (λ items. items.items ≡ ask_items (facts_of self.now).shape (client_fetchable (facts_of self.now) peer)) }
        ensures keys { IfOk result (λ items. (k : ℕ) → list_any (λ i. i.0 == k) items.items ≡ true → k < key_count (facts_of self.now).shape) }
    {
        let mut items = self.first_fetchable(peer)?;
        items.truncate(fitting_count(self.shape(), items.as_slice()));
        Ok(items)
    }

    /// How many pairs the client has in the lists of holders, or 2^64 - 1 where it is more.
    pub fn pairs(&self) -> u64
        ensures { result ≡ min (client_pairs (facts_of self.now)) (2 ^ 64 - 1) }
    {
        let mut total: u64 = 0;
        for key in 0..self.keys() {
            total = total.saturating_add(self.located(key).len() as u64);
        }
        total
    }

    /// Whether the event is possible, and names no key that isn't there.
    #[tactic(auto, unfolding(cluster_rules::specs::Client::client_takes))]
    pub fn takes(&self, event: &ClientEvent) -> bool
        ensures { result ≡ client_takes (facts_of self.now) event.now }
    {
        match event {
            ClientEvent::Want(keys) => self.are_keys(keys.as_slice()),
            ClientEvent::Release(keys) => self.are_keys(keys.as_slice()),
            ClientEvent::FromScheduler(message) => self.can_hear(message),
            ClientEvent::Ask { peer } => self.would_ask(*peer),
            ClientEvent::Gathered { found, .. } => self.are_keys(found.as_slice()),
            ClientEvent::GatherFailed { .. } => true,
        }
    }

    /// Whether all these keys are of the graph.
    fn are_keys(&self, keys: &[u32]) -> bool
        ensures { result ≡ are_client_keys (facts_of self.now) keys.now }
    {
        let count = self.keys();
        keys.iter().all(|key| *key < count)
    }

    /// Whether the message names keys of the graph alone.
    fn can_hear(&self, message: &ToClient) -> bool
        ensures { result ≡ can_hear (facts_of self.now) message.now }
    {
        match message {
            ToClient::KeyInMemory { key, .. } => *key < self.keys(),
            ToClient::LostData { key } => *key < self.keys(),
            ToClient::ClientTaskErred { key, blame } => {
                *key < self.keys() && *blame < self.keys()
            }
        }
    }
}
