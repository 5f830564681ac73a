//! What is prepared outside of a worker's turns of blocks that its store puts aside, and what waits for that.
ghost use Rattle.std.specs.Prelude.{◌≡◌, false};
ghost use Rattle.node_states.specs.Causes.{IsTurnsCause};
ghost use Rattle.node_states.specs.Stores.{GoesOn};

use crate::evidence::RunGraph;
use crate::store::{BlockStore, Got};
use crate::why::Why;
use crate::worker::WorkerNode;
use cluster_msgs::Label;
use std::sync::Arc;

impl<B: Drop, L: Label<Block = B>, F: Drop, S: BlockStore<B, L>> WorkerNode<B, L, F, S> {
    /// Whether a block is prepared for what waits, a block or a request, so that the turn makes no event.
    pub(crate) fn stays(&mut self) -> bool
        ensures history { self.new.history ≡ self.old.history }
        ensures same { (self.new.feeds ≡ self.old.feeds) × (self.new.ending ≡ self.old.ending) }
    {
        let waits = !self.waiting.is_empty() || self.held.is_some();
        waits && self.goes_on() && self.prepares()
    }

    /// Whether a block is prepared that its store is likely to put aside for a block that waits, or where none does for the request that waits or the task that
    /// would start. Where one is to be, it is given: it is given once, and for all blocks that wait.
    #[tactic(auto, using(crate::proofs::StoreLemmas::stays_heard_of))]
    pub(crate) fn prepares(&mut self) -> bool
        ensures history { self.new.history ≡ self.old.history }
        ensures same { (self.new.feeds ≡ self.old.feeds) × (self.new.ending ≡ self.old.ending) }
    {
        let coming = self.all_coming();
        if coming == 0 {
            return false;
        }
        self.use_next();
        self.given = self.store.next_out(coming);
        self.given.is_some() || self.store.awaits(self.coming())
    }

    /// The block, with its key, that is to be prepared, if one was given in this turn.
    pub(crate) fn take_given(&mut self) -> Option<(u32, Arc<B>)>
        ensures history { self.new.history ≡ self.old.history }
        ensures same { (self.new.feeds ≡ self.old.feeds) × (self.new.ending ≡ self.old.ending) }
    {
        self.given.take()
    }

    /// Its store takes what was prepared of a block.
    #[tactic(auto, using(crate::proofs::StoreLemmas::stays_heard_of))]
    pub(crate) fn expect(&mut self, ready: S::Ready)
        ensures history { self.new.history ≡ self.old.history }
        ensures same { (self.new.feeds ≡ self.old.feeds) × (self.new.ending ≡ self.old.ending) }
    {
        self.store.expect(ready);
    }

    /// A block that waits goes into its store, if its key is in memory still. Whether one waited. Where there is no memory, the worker is to end.
    #[tactic(auto, using(crate::proofs::Causes::no_cause, crate::proofs::Causes::memory_cause, crate::proofs::StoreLemmas::looks_heard_of, crate::proofs::StoreLemmas::goes_on_put, crate::proofs::StoreLemmas::goes_on_same))]
    pub(crate) fn let_in(&mut self) -> bool
        ensures history { self.new.history ≡ self.old.history }
        ensures feeds { self.new.feeds ≡ self.old.feeds }
        ensures none { result ≡ false → self.new.ending ≡ self.old.ending }
        ensures why { IsTurnsCause self.old.ending self.new.ending }
    {
        let Some(keyed) = self.waiting.pop() else {
            return false;
        };
        if self.history.holds(keyed.key())
            && self.store.put(keyed.key(), keyed.into_block()).is_err()
        {
            self.end(Why::Memory);
        }
        true
    }

    // How many bytes the next block that waits brings into memory, or the next event where none waits.
    fn coming(&self) -> u64 {
        match self.waiting.last() {
            Some(keyed) => self.graph.size(keyed.key()),
            None => self.to_read(),
        }
    }

    // How many all blocks that wait bring, or the next event where none waits.
    fn all_coming(&self) -> u64 {
        if self.waiting.is_empty() {
            return self.to_read();
        }
        let mut bytes = 0u64;
        for keyed in &self.waiting {
            bytes = bytes.saturating_add(self.graph.size(keyed.key()));
        }
        bytes
    }

    // How many are read for the request that waits, or else for the task that would start.
    fn to_read(&self) -> u64 {
        match &self.held {
            Some(request) => brought_back(&self.graph, &self.store, request.keys.as_slice()),
            None => brought_back(&self.graph, &self.store, self.next_inputs()),
        }
    }

    // The dependencies of the task that would start.
    fn next_inputs(&self) -> &[u32] {
        match self.would_start() {
            Some(key) => if key < self.graph.keys() {
                self.graph.deps(key)
            } else {
                &[]
            },
            None => &[],
        }
    }

    // What is read for the request that waits, or else for the task that would start, and is in memory, counts as used, so that other blocks go first.
    #[tactic(auto, using(crate::proofs::StoreLemmas::looks_heard_of))]
    fn use_next(&mut self)
        ensures history { self.new.history ≡ self.old.history }
        ensures same { (self.new.feeds ≡ self.old.feeds) × (self.new.ending ≡ self.old.ending) }
    {
        if self.lost.is_some() || !self.waiting.is_empty() {
            return;
        }
        match &self.held {
            Some(request) => {
                self.lost = use_all(&mut self.store, request.keys.as_slice());
            }
            None => {
                let Some(key) = self.would_start() else {
                    return;
                };
                if key < self.graph.keys() {
                    self.lost = use_all(&mut self.store, self.graph.deps(key));
                }
            }
        }
    }

    // Whether it has neither ended nor is to end.
    fn goes_on(&self) -> bool {
        self.why().is_none() && !self.ended()
    }
}

// How many bytes a look at the blocks of these keys is likely to bring back into memory.
fn brought_back<B: Drop, L: Label<Block = B>, S: BlockStore<B, L>>(
    graph: &RunGraph<L>,
    store: &S,
    keys: &[u32],
) -> u64 {
    if store.spills() == 0 {
        return 0;
    }
    let mut bytes = 0u64;
    for key in keys {
        if store.comes_back(*key) {
            bytes = bytes.saturating_add(graph.size(*key));
        }
    }
    bytes
}

// Those of these blocks that are in memory count as used. The first that is lost, if one is.
#[tactic(auto, using(crate::proofs::StoreLemmas::goes_nowhere, crate::proofs::StoreLemmas::goes_further))]
fn use_all<B: Drop, L: Label<Block = B>, S: BlockStore<B, L>>(
    store: &mut S,
    keys: &[u32],
) -> Option<u32>
    ensures { GoesOn (S.stock store.old) (S.stock store.new) }
{
    for key in keys {
        if is_lost(store, *key) {
            return Some(*key);
        }
    }
    None
}

// The block of a key counts as used, if it is in memory. Whether it is lost.
#[tactic(auto, using(crate::proofs::StoreLemmas::goes_nowhere, crate::proofs::StoreLemmas::goes_on_get, crate::proofs::StoreLemmas::goes_on_same))]
fn is_lost<B: Drop, L: Label<Block = B>, S: BlockStore<B, L>>(store: &mut S, key: u32) -> bool
    ensures { GoesOn (S.stock store.old) (S.stock store.new) }
{
    if store.comes_back(key) {
        return false;
    }
    match store.get(key) {
        Ok(Got::Lost) => true,
        Ok(Got::Here(_)) | Ok(Got::Absent) | Err(_) => false,
    }
}
