//! The questions about a worker's facts that are answered from what is kept beside them.
ghost use Rattle.std.specs.Prelude.{◌≡◌, ◌==◌, ◌&&◌, ℕ, ◌-◌, ◌^◌, ◌<◌, true, not, min, IfOk, IfSome};
ghost use Rattle.std.specs.List.{list_any};
ghost use Rattle.cluster_msgs.specs.Shape.{key_count};
ghost use Rattle.cluster_rules.specs.Worker.{wstate, is_fetch_state, is_missing_state, is_unstarted_state, running_count, would_start, would_ask, fetchable, ask_items, has_any, pairs};
ghost use Rattle.cluster_rules.specs.WorkerStep.{unasked_keys};
ghost use Rattle.key_sets.specs.Sets.{IsFirst};
ghost use Rattle.worker_facts.specs.Stored.{facts_of, first_ready};

use crate::table::WorkerTable;
use cluster_msgs::{KeyList, WState};
use open_asks::{item_at, push_item};
use std::alloc::{AllocError, Global};

impl WorkerTable {
    /// The state of a key. It is `Forgotten` where there is no such key.
    pub fn state(&self, key: u32) -> WState
        ensures { result ≡ wstate (facts_of self.now) key }
    {
        self.facts.state(key)
    }

    /// Whether the key is a task that can still be given up.
    pub fn is_unstarted(&self, key: u32) -> bool
        ensures { result ≡ is_unstarted_state (wstate (facts_of self.now) key) }
    {
        self.facts.is_unstarted(key)
    }

    /// Whether the key is wanted, and nobody is known to hold it.
    pub fn is_missing(&self, key: u32) -> bool
        ensures { result ≡ is_missing_state (wstate (facts_of self.now) key) }
    {
        self.facts.is_missing(key)
    }

    /// How many tasks run.
    pub fn running_count(&self) -> u32
        ensures { result ≡ running_count (facts_of self.now) }
    {
        self.count
    }

    /// The least key from this one on that runs.
    pub fn next_run(&self, from: u32) -> Option<u32>
        ensures { IsFirst (facts_of self.now).running from result }
    {
        self.plan.runs.first_from(from)
    }

    /// The task that a start would take: the least ready one, where a thread is free.
    pub fn would_start(&self) -> Option<u32>
        ensures { result ≡ would_start (facts_of self.now) }
    {
        if self.count < self.facts.threads() {
            self.first_ready()
        } else {
            None
        }
    }

    /// The least ready task.
    fn first_ready(&self) -> Option<u32>
        ensures { result ≡ first_ready (facts_of self.now) }
    {
        self.plan.ready.first_from(0)
    }

    /// The least key from this one on that is to be fetched.
    pub fn next_fetch(&self, from: u32) -> Option<u32>
        ensures first { IsFirst (λ k. is_fetch_state (wstate (facts_of self.now) k)) from result }
        ensures within { IfSome result (λ k. k < key_count (facts_of self.now).shape) }
    {
        self.plan.fetch.first_from(from)
    }

    /// The least key from this one on that is missing, and of which the scheduler wasn't asked.
    fn next_unasked(&self, from: u32) -> Option<u32>
        ensures first { IsFirst (λ k. is_missing_state (wstate (facts_of self.now) k) && not ((facts_of self.now).asked k)) from result }
        ensures within { IfSome result (λ k. k < key_count (facts_of self.now).shape) }
    {
        self.plan.unasked.first_from(from)
    }

    /// The missing keys whose holders the scheduler wasn't asked for, ascending.
    ///
    /// # Errors
    /// Where no memory is left.
    pub fn unasked_keys(&self, alloc: Global) -> Result<KeyList, AllocError>
        ensures { IfOk result (λ keys. keys ≡ unasked_keys (facts_of self.now)) }
    {
        self.facts.sound();
        let mut keys = KeyList::new(alloc);
        let mut from = 0;
        'keys: while let Some(key) = self.next_unasked(from) {
            keys.push(key)?;
            from = key + 1;
        }
        Ok(keys)
    }

    /// Who else holds the key, with the copy.
    pub fn holders(&self, key: u32) -> &[(u32, u64)]
        requires { key < key_count (facts_of self.now).shape }
        ensures { result.now ≡ (facts_of self.now).holders key }
    {
        self.facts.holders(key)
    }

    /// Whether an ask to this peer is possible: none is open, and it holds a key to fetch.
    pub fn would_ask(&self, peer: u32) -> bool
        ensures { result ≡ would_ask (facts_of self.now) peer }
    {
        !self.has_ask(peer) && self.has_fetchable(peer)
    }

    /// Whether the peer holds a key to fetch.
    fn has_fetchable(&self, peer: u32) -> bool
        ensures { result ≡ has_any (fetchable (facts_of self.now) peer) }
    {
        self.facts.sound();
        let mut from = 0;
        'keys: while let Some(key) = self.next_fetch(from) {
            if item_at(peer, key, self.facts.holders(key)).is_some() {
                return true;
            }
            from = key + 1;
        }
        false
    }

    /// The keys to fetch that the peer holds, ascending, with their copies.
    ///
    /// # Errors
    /// Where no memory is left.
    fn fetchable(&self, alloc: Global, peer: u32) -> Result<Vec<(u32, u64)>, AllocError>
        ensures { IfOk result (λ items. items.items ≡ fetchable (facts_of self.now) peer) }
    {
        self.facts.sound();
        let mut items = Vec::new(alloc);
        let mut from = 0;
        'keys: while let Some(key) = self.next_fetch(from) {
            push_item(&mut items, item_at(peer, key, self.facts.holders(key)))?;
            from = key + 1;
        }
        Ok(items)
    }

    /// The items that an ask to this peer would be for.
    ///
    /// # Errors
    /// Where no memory is left.
    pub fn ask_items(&self, alloc: Global, peer: u32) -> Result<Vec<(u32, u64)>, AllocError>
        ensures value { IfOk result (λ items. items.items ≡ ask_items (facts_of self.now).shape (fetchable (facts_of self.now) peer)) }
        ensures keys { IfOk result (λ items. (k : ℕ) → list_any (λ i. i.0 == k) items.items ≡ true → k < key_count (facts_of self.now).shape) }
    {
        let mut items = self.fetchable(alloc, peer)?;
        items.truncate(self.facts.fitting_count(items.as_slice()));
        Ok(items)
    }

    /// How many pairs the lists of holders have together, or 2^64 - 1 where it is more.
    pub fn pairs(&self) -> u64
        ensures { result ≡ min (pairs (facts_of self.now)) (2 ^ 64 - 1) }
    {
        self.facts.pairs()
    }
}
