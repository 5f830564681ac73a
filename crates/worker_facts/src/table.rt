//! The stored facts of a worker. Each call changes one fact, or answers one.
#![tactic(auto, unfolding(crate::specs::Stored::facts_of))]

ghost use Rattle.std.specs.Prelude.{◌≡◌, ◌==◌, ◌+◌, ◌<◌, ◌≤◌, ◌^◌, ℕ, true, false, None, [], is_some, nat_lt, length, slice_index_or, IfOk, OnOk, OnErr};
ghost use Rattle.std.specs.Option.{option_map};
ghost use Rattle.std.specs.List.{list_any, position_or_len};
ghost use Rattle.cluster_msgs.specs.Shape.{IsShape, key_count, deps_of, nbytes_of};
ghost use Rattle.cluster_rules.specs.Functions.{put};
ghost use Rattle.cluster_rules.specs.Worker.{Ask, new_worker, flying, awaited, pending, is_fed, has_any, is_asked_for, ask_to, with_ask};
ghost use Rattle.fact_rows.specs.Rows.{read};
ghost use Rattle.open_asks.specs.Kept.{asked_items, without_first};
ghost use Rattle.worker_facts.specs.Stored.{facts_of, fitting_count};

use crate::marks::recount;
use cluster_msgs::{GraphShape, Holders};
use fact_rows::Row;
use open_asks::{Asks, OpenAsk, fitting_count};
use std::alloc::{AllocError, Global};
use std::marker::Model;

/// The facts of a worker: what it was given, what it holds, runs, asks for and seeks, and who else holds a key.
///
/// Contracts see the stored rows, of which `facts_of` makes functions of the key.
#[derive(Drop)]
pub struct WorkerTable {
    shape: GraphShape,
    id: u32,
    threads: u32,
    seen: u64,
    mine: Row<Option<u64>>,
    mem: Row<bool>,
    running: Row<bool>,
    asks: Asks,
    holders: Vec<Holders>,
    asked: Row<bool>,
    sought: Row<bool>,
    failed: Row<bool>,
    next_ask: u64,
    awaiting: Row<u32>,
}

impl Model for WorkerTable {
    ghost use Rattle.worker_facts.specs.Stored.{Stored};

    ghost Value = { Stored };

    ghost use Rattle.worker_facts.specs.Table.{stored, IsTable};

    ghost view = { stored };

    ghost invariant = { IsTable };
}

impl WorkerTable {
    /// A worker as it starts.
    ///
    /// # Errors
    /// Where no memory is left.
    pub fn new(
        alloc: Global,
        id: u32,
        threads: u32,
        shape: GraphShape,
    ) -> Result<WorkerTable, AllocError>
        ensures { IfOk result (λ table. facts_of table ≡ new_worker shape id threads) }
    {
        shape.sound();
        let count = shape.keys() as usize;
        let mine = Row::filled(alloc, count, None)?;
        let mem = Row::filled(alloc, count, false)?;
        let running = Row::filled(alloc, count, false)?;
        let holders = no_holders(alloc, count)?;
        let asked = Row::filled(alloc, count, false)?;
        let sought = Row::filled(alloc, count, false)?;
        let failed = Row::filled(alloc, count, false)?;
        let asks = Asks::new(alloc, count)?;
        let awaiting = Row::filled(alloc, count, 0)?;
        Ok(WorkerTable {
            shape,
            id,
            threads,
            seen: 0,
            mine,
            mem,
            running,
            asks,
            holders,
            asked,
            sought,
            failed,
            next_ask: 1,
            awaiting,
        })
    }

    /// What each table keeps: the graph is within its bounds, and open asks name keys of it.
    pub fn sound(&self)
        ensures shape { IsShape (facts_of self.now).shape }
        ensures named { (k : ℕ) → is_asked_for (facts_of self.now).asks k ≡ true → k < key_count (facts_of self.now).shape }
    {
        let _shape = &self.shape;
        self.asks.sound();
    }

    /// A worker holds and runs keys of its graph alone.
    pub fn inside(&self)
        ensures mem { (k : ℕ) → key_count (facts_of self.now).shape ≤ k → (facts_of self.now).mem k ≡ false }
        ensures running { (k : ℕ) → key_count (facts_of self.now).shape ≤ k → (facts_of self.now).running k ≡ false }
    {
        let _mem = &self.mem;
    }

    /// The number of keys.
    pub fn keys(&self) -> u32
        ensures { result ≡ key_count (facts_of self.now).shape }
    {
        self.shape.keys()
    }

    /// The number of the worker.
    pub fn id(&self) -> u32
        ensures { result ≡ (facts_of self.now).id }
    {
        self.id
    }

    /// How many tasks may run at once.
    pub fn threads(&self) -> u32
        ensures { result ≡ (facts_of self.now).threads }
    {
        self.threads
    }

    /// How many messages of the scheduler were taken.
    pub fn seen(&self) -> u64
        ensures { result ≡ (facts_of self.now).seen }
    {
        self.seen
    }

    /// The number of the next ask.
    pub fn next_ask(&self) -> u64
        ensures { result ≡ (facts_of self.now).next_ask }
    {
        self.next_ask
    }

    /// One more message of the scheduler was taken.
    pub fn take_message(&mut self)
        requires { (facts_of self.old).seen < 2 ^ 63 }
        ensures { facts_of self.new ≡ record (facts_of self.old) { seen = (facts_of self.old).seen + 1 } }
    {
        self.seen += 1;
    }

    /// The dependencies of a key.
    pub fn deps(&self, key: u32) -> &[u32]
        requires { key < key_count (facts_of self.now).shape }
        ensures { result.now ≡ deps_of (facts_of self.now).shape key }
    {
        self.shape.deps(key)
    }

    /// The bytes of a key's block, 0 where there is no such key.
    pub fn nbytes(&self, key: u32) -> u64
        ensures value { result ≡ nbytes_of (facts_of self.now).shape key }
        ensures bound { result ≤ 2 ^ 27 }
    {
        if key < self.shape.keys() {
            self.shape.nbytes(key)
        } else {
            0
        }
    }

    /// The attempt under which the scheduler gave the key to the worker.
    pub fn mine(&self, key: u32) -> Option<u64>
        ensures { result ≡ (facts_of self.now).mine key }
    {
        self.mine.read(key)
    }

    /// Whether the key's block is held.
    pub fn in_memory(&self, key: u32) -> bool
        ensures { result ≡ (facts_of self.now).mem key }
    {
        self.mem.test(key as usize)
    }

    /// Whether the worker runs the key's task.
    pub fn is_running(&self, key: u32) -> bool
        ensures { result ≡ (facts_of self.now).running key }
    {
        self.running.test(key as usize)
    }

    /// Whether the scheduler was asked who holds the key, and hasn't answered.
    pub fn is_asked(&self, key: u32) -> bool
        ensures { result ≡ (facts_of self.now).asked key }
    {
        self.asked.test(key as usize)
    }

    /// Whether the scheduler wants a copy of the block here.
    pub fn is_sought(&self, key: u32) -> bool
        ensures { result ≡ (facts_of self.now).sought key }
    {
        self.sought.test(key as usize)
    }

    /// Whether the key's task met a zero divisor here.
    pub fn has_failed(&self, key: u32) -> bool
        ensures { result ≡ (facts_of self.now).failed key }
    {
        self.failed.test(key as usize)
    }

    /// Who else holds the key, with the copy.
    pub fn holders(&self, key: u32) -> &[(u32, u64)]
        requires { key < key_count (facts_of self.now).shape }
        ensures { result.now ≡ (facts_of self.now).holders key }
    {
        self.holders[key as usize].as_slice()
    }

    /// Whether another worker is known to hold the key.
    pub fn has_holder(&self, key: u32) -> bool
        ensures { result ≡ has_any ((facts_of self.now).holders key) }
    {
        if (key as usize) < self.holders.len() {
            !self.holders[key as usize].is_empty()
        } else {
            false
        }
    }

    /// Whether some open ask names the key.
    pub fn is_flying(&self, key: u32) -> bool
        ensures { result ≡ flying (facts_of self.now) key }
    {
        self.asks.names(key)
    }

    /// Whether the key is a task of the worker that doesn't run.
    pub fn is_pending(&self, key: u32) -> bool
        ensures { result ≡ pending (facts_of self.now) key }
    {
        let given = self.mine.read(key).is_some();
        given & !self.running.test(key as usize)
    }

    /// Whether a pending task depends on the key.
    pub fn is_awaited(&self, key: u32) -> bool
        ensures { result ≡ awaited (facts_of self.now) key }
    {
        if (key as usize) < self.awaiting.len() {
            self.awaiting.get(key) > 0
        } else {
            false
        }
    }

    /// Whether each dependency of the key is in memory.
    pub fn is_fed(&self, key: u32) -> bool
        ensures { result ≡ is_fed (facts_of self.now) key }
    {
        if key < self.shape.keys() {
            self.mem.all(self.shape.deps(key))
        } else {
            true
        }
    }

    /// Gives the key to the worker under this attempt, or takes it away.
    pub fn set_mine(&mut self, key: u32, to: Option<u64>)
        requires { key < key_count (facts_of self.old).shape }
        ensures { facts_of self.new ≡ record (facts_of self.old) { mine = put (facts_of self.old).mine key to } }
    {
        let before = self.is_pending(key);
        let after = to.is_some() & !self.running.test(key as usize);
        self.mine.set(key, to);
        recount(&mut self.awaiting, self.shape.deps(key), before, after);
    }

    /// The task runs, or no longer does.
    pub fn set_running(&mut self, key: u32, to: bool)
        requires { key < key_count (facts_of self.old).shape }
        ensures { facts_of self.new ≡ record (facts_of self.old) { running = put (facts_of self.old).running key to } }
    {
        let before = self.is_pending(key);
        let after = self.mine.read(key).is_some() & !to;
        self.running.set(key, to);
        recount(&mut self.awaiting, self.shape.deps(key), before, after);
    }

    /// The block is held, or no longer is.
    pub fn set_in_memory(&mut self, key: u32, to: bool)
        requires { key < key_count (facts_of self.old).shape }
        ensures { facts_of self.new ≡ record (facts_of self.old) { mem = put (facts_of self.old).mem key to } }
    {
        self.mem.set(key, to);
    }

    /// The scheduler was asked who holds the key, or has answered.
    pub fn set_asked(&mut self, key: u32, to: bool)
        requires { key < key_count (facts_of self.old).shape }
        ensures { facts_of self.new ≡ record (facts_of self.old) { asked = put (facts_of self.old).asked key to } }
    {
        self.asked.set(key, to);
    }

    /// The scheduler wants a copy of the block here, or no longer does.
    pub fn set_sought(&mut self, key: u32, to: bool)
        requires { key < key_count (facts_of self.old).shape }
        ensures { facts_of self.new ≡ record (facts_of self.old) { sought = put (facts_of self.old).sought key to } }
    {
        self.sought.set(key, to);
    }

    /// The task met a zero divisor here, or that is forgotten.
    pub fn set_failed(&mut self, key: u32, to: bool)
        requires { key < key_count (facts_of self.old).shape }
        ensures { facts_of self.new ≡ record (facts_of self.old) { failed = put (facts_of self.old).failed key to } }
    {
        self.failed.set(key, to);
    }

    /// Says who else holds the key.
    pub fn set_holders(&mut self, key: u32, to: Holders)
        requires { key < key_count (facts_of self.old).shape }
        ensures { facts_of self.new ≡ record (facts_of self.old) { holders = put (facts_of self.old).holders key to } }
    {
        self.holders[key as usize] = to;
    }

    /// Whether an ask to this peer is open.
    pub fn has_ask(&self, peer: u32) -> bool
        ensures { result ≡ is_some (ask_to (facts_of self.now).asks peer) }
    {
        self.asks.has(peer)
    }

    /// The number of the open ask to a peer, if one is open.
    pub fn ask_number(&self, peer: u32) -> Option<u64>
        ensures { result ≡ option_map (λ a. a.number) (ask_to (facts_of self.now).asks peer) }
    {
        self.asks.number_of(peer)
    }

    /// The items of the open ask to a peer, where it has this number.
    ///
    /// # Errors
    /// Where no memory is left.
    pub fn open_items(&self, peer: u32, number: u64) -> Result<Option<Vec<(u32, u64)>>, AllocError>
        ensures { IfOk result (λ items. option_map (λ v. v.items) items ≡ asked_items (ask_to (facts_of self.now).asks peer) number) }
    {
        self.asks.items(peer, number)
    }

    /// Opens an ask to a peer under the next number.
    ///
    /// # Errors
    /// Where no memory is left; all is then as before.
    pub fn open_ask(&mut self, peer: u32, items: Vec<(u32, u64)>) -> Result<(), AllocError>
        requires keys { (k : ℕ) → list_any (λ i. i.0 == k) items.items ≡ true → k < key_count (facts_of self.old).shape }
        requires room { (facts_of self.old).next_ask < 2 ^ 63 }
        ensures ok { OnOk result (facts_of self.new ≡ record (facts_of self.old) {
          asks = with_ask (record { peer = peer; number = (facts_of self.old).next_ask; items = items.items }) (facts_of self.old).asks;
          next_ask = (facts_of self.old).next_ask + 1;
        }) }
        ensures err { OnErr result (facts_of self.new ≡ facts_of self.old) }
    {
        self.asks.open(peer, self.next_ask, items)?;
        self.next_ask += 1;
        Ok(())
    }

    /// Where an ask to this peer would have its place: before the first to a greater peer.
    pub fn place_for(&self, peer: u32) -> usize
        ensures { result ≡ position_or_len (λ (a : Ask). nat_lt peer a.peer) (facts_of self.now).asks }
    {
        self.asks.place_for(peer)
    }

    /// The items of the ask at this place.
    pub fn items_at(&self, place: usize) -> &[(u32, u64)]
        requires { place < length (facts_of self.now).asks }
        ensures { (d : Ask) → result.now ≡ (slice_index_or (facts_of self.now).asks place d).items }
    {
        self.asks.items_at(place)
    }

    /// Closes the first ask to a peer, if one is open, and gives it back.
    pub fn take_ask(&mut self, peer: u32) -> Option<OpenAsk>
        ensures ask { result ≡ ask_to (facts_of self.old).asks peer }
        ensures facts { facts_of self.new ≡ record (facts_of self.old) { asks = without_first (facts_of self.old).asks peer } }
    {
        self.asks.take(peer)
    }

    /// How many of these items, from the first, go into one ask.
    pub fn fitting_count(&self, items: &[(u32, u64)]) -> usize
        ensures { result ≡ fitting_count (facts_of self.now).shape items.now }
    {
        fitting_count(&self.shape, items)
    }
}

/// As many empty lists.
fn no_holders(alloc: Global, count: usize) -> Result<Vec<Holders>, AllocError>
    ensures length { IfOk result (λ rows. length rows.items ≡ count) }
    ensures empty { IfOk result (λ rows. (k : ℕ) → read rows.items [] k ≡ []) }
{
    let mut rows = Vec::with_capacity(alloc, count)?;
    for _key in 0..count {
        rows.push(Holders::new(alloc))?;
    }
    Ok(rows)
}
