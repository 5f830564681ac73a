//! The facts of a worker with the sets that are kept beside them. Each call changes one fact, or answers one.
#![tactic(auto)]

ghost use Rattle.std.specs.Prelude.{◌≡◌, ◌==◌, ◌+◌, ◌<◌, ◌≤◌, ◌^◌, ℕ, true, false, None, is_some, cond, IfOk, OnOk, OnErr};
ghost use Rattle.std.specs.Option.{option_map};
ghost use Rattle.std.specs.List.{list_any};
ghost use Rattle.cluster_msgs.specs.Shape.{IsShape, key_count};
ghost use Rattle.cluster_rules.specs.Functions.{put};
ghost use Rattle.cluster_rules.specs.Worker.{new_worker, awaited, is_asked_for, ask_to, with_ask, without_ask, is_wanted};
ghost use Rattle.open_asks.specs.Kept.{asked_items, without_first};
ghost use Rattle.worker_facts.specs.Stored.{facts_of};

use crate::links::dependents_of;
use crate::plan::Plan;
use cluster_msgs::{GraphShape, Holders, KeyList};
use std::alloc::{AllocError, Global};
use std::marker::Model;
use worker_facts::WorkerTable as FactTable;

/// The facts of a worker: what it was given, what it holds, runs, asks for and seeks, and who else holds a key.
///
/// Contracts see the stored rows, of which `facts_of` makes functions of the key. What is kept beside them is hidden.
#[derive(Drop)]
pub struct WorkerTable {
    pub(crate) facts: FactTable,
    dependents: Vec<KeyList>,
    pub(crate) plan: Plan,
    pub(crate) count: u32,
}

impl Model for WorkerTable {
    ghost use Rattle.worker_facts.specs.Stored.{Stored};

    ghost Value = { Stored };

    ghost view = { λ s. s.facts };

    ghost use Rattle.worker_facts.specs.Stored.{facts_of};
    ghost use Rattle.worker_table.specs.Table.{Fits};

    ghost invariant = { λ s. Fits (facts_of s.facts) s.dependents.items s.plan s.count };
}

impl WorkerTable {
    /// A worker as it starts.
    ///
    /// # Errors
    /// Where no memory is left.
    pub fn new(
        alloc: Global,
        id: u32,
        threads: u32,
        shape: GraphShape,
    ) -> Result<WorkerTable, AllocError>
        ensures { IfOk result (λ table. facts_of table ≡ new_worker shape id threads) }
    {
        shape.sound();
        let dependents = dependents_of(alloc, &shape)?;
        let plan = Plan::new(alloc, shape.keys())?;
        let facts = FactTable::new(alloc, id, threads, shape)?;
        Ok(WorkerTable {
            facts,
            dependents,
            plan,
            count: 0,
        })
    }

    /// What each table keeps: the graph is within its bounds, and open asks name keys of it.
    pub fn sound(&self)
        ensures shape { IsShape (facts_of self.now).shape }
        ensures named { (k : ℕ) → is_asked_for (facts_of self.now).asks k ≡ true → k < key_count (facts_of self.now).shape }
    {
        self.facts.sound();
    }

    /// A worker holds and runs keys of its graph alone.
    pub fn inside(&self)
        ensures mem { (k : ℕ) → key_count (facts_of self.now).shape ≤ k → (facts_of self.now).mem k ≡ false }
        ensures running { (k : ℕ) → key_count (facts_of self.now).shape ≤ k → (facts_of self.now).running k ≡ false }
    {
        self.facts.inside();
    }

    /// The facts alone.
    pub fn facts(&self) -> &FactTable
        ensures { result.now ≡ self.now }
    {
        &self.facts
    }

    /// The number of keys.
    pub fn keys(&self) -> u32
        ensures { result ≡ key_count (facts_of self.now).shape }
    {
        self.facts.keys()
    }

    /// The number of the worker.
    pub fn id(&self) -> u32
        ensures { result ≡ (facts_of self.now).id }
    {
        self.facts.id()
    }

    /// How many messages of the scheduler were taken.
    pub fn seen(&self) -> u64
        ensures { result ≡ (facts_of self.now).seen }
    {
        self.facts.seen()
    }

    /// The number of the next ask.
    pub fn next_ask(&self) -> u64
        ensures { result ≡ (facts_of self.now).next_ask }
    {
        self.facts.next_ask()
    }

    /// The attempt under which the scheduler gave the key to the worker.
    pub fn mine(&self, key: u32) -> Option<u64>
        ensures { result ≡ (facts_of self.now).mine key }
    {
        self.facts.mine(key)
    }

    /// Whether the key's block is held.
    pub fn in_memory(&self, key: u32) -> bool
        ensures { result ≡ (facts_of self.now).mem key }
    {
        self.facts.in_memory(key)
    }

    /// Whether the worker runs the key's task.
    pub fn is_running(&self, key: u32) -> bool
        ensures { result ≡ (facts_of self.now).running key }
    {
        self.facts.is_running(key)
    }

    /// Whether the scheduler was asked who holds the key, and hasn't answered.
    pub fn is_asked(&self, key: u32) -> bool
        ensures { result ≡ (facts_of self.now).asked key }
    {
        self.facts.is_asked(key)
    }

    /// Whether the scheduler wants a copy of the block here.
    pub fn is_sought(&self, key: u32) -> bool
        ensures { result ≡ (facts_of self.now).sought key }
    {
        self.facts.is_sought(key)
    }

    /// Whether a pending task depends on the key.
    pub fn is_awaited(&self, key: u32) -> bool
        ensures { result ≡ awaited (facts_of self.now) key }
    {
        self.facts.is_awaited(key)
    }

    /// Whether the worker has use for the block, and hasn't got it.
    pub fn is_wanted(&self, key: u32) -> bool
        ensures { result ≡ is_wanted (facts_of self.now) key }
    {
        self.facts.is_wanted(key)
    }

    /// Whether an ask to this peer is open.
    pub fn has_ask(&self, peer: u32) -> bool
        ensures { result ≡ is_some (ask_to (facts_of self.now).asks peer) }
    {
        self.facts.has_ask(peer)
    }

    /// The number of the open ask to a peer, if one is open.
    pub fn ask_number(&self, peer: u32) -> Option<u64>
        ensures { result ≡ option_map (λ a. a.number) (ask_to (facts_of self.now).asks peer) }
    {
        self.facts.ask_number(peer)
    }

    /// The items of the open ask to a peer, where it has this number.
    ///
    /// # Errors
    /// Where no memory is left.
    pub fn open_items(&self, peer: u32, number: u64) -> Result<Option<Vec<(u32, u64)>>, AllocError>
        ensures { IfOk result (λ items. option_map (λ v. v.items) items ≡ asked_items (ask_to (facts_of self.now).asks peer) number) }
    {
        self.facts.open_items(peer, number)
    }

    /// One more message of the scheduler was taken.
    pub fn take_message(&mut self)
        requires { (facts_of self.old).seen < 2 ^ 63 }
        ensures { facts_of self.new ≡ record (facts_of self.old) { seen = (facts_of self.old).seen + 1 } }
    {
        self.facts.take_message();
    }

    /// Gives the key to the worker under this attempt, or takes it away.
    pub fn set_mine(&mut self, key: u32, to: Option<u64>)
        requires { key < key_count (facts_of self.old).shape }
        ensures { facts_of self.new ≡ record (facts_of self.old) { mine = put (facts_of self.old).mine key to } }
    {
        self.facts.sound();
        self.facts.set_mine(key, to);
        self.plan.look(&self.facts, key);
        self.plan.look_all(&self.facts, self.facts.deps(key));
    }

    /// The task runs, or no longer does.
    pub fn set_running(&mut self, key: u32, to: bool)
        requires { key < key_count (facts_of self.old).shape }
        ensures { facts_of self.new ≡ record (facts_of self.old) { running = put (facts_of self.old).running key to } }
    {
        self.facts.sound();
        let count = recounted(self.count, self.facts.is_running(key), to);
        self.facts.set_running(key, to);
        self.plan.look(&self.facts, key);
        self.plan.look_all(&self.facts, self.facts.deps(key));
        self.count = count;
    }

    /// The block is held, or no longer is.
    pub fn set_in_memory(&mut self, key: u32, to: bool)
        requires { key < key_count (facts_of self.old).shape }
        ensures { facts_of self.new ≡ record (facts_of self.old) { mem = put (facts_of self.old).mem key to } }
    {
        self.facts.set_in_memory(key, to);
        self.plan.look(&self.facts, key);
        self.plan
            .look_all(&self.facts, self.dependents[key as usize].as_slice());
    }

    /// The scheduler was asked who holds the key, or has answered.
    pub fn set_asked(&mut self, key: u32, to: bool)
        requires { key < key_count (facts_of self.old).shape }
        ensures { facts_of self.new ≡ record (facts_of self.old) { asked = put (facts_of self.old).asked key to } }
    {
        self.facts.set_asked(key, to);
        self.plan.look(&self.facts, key);
    }

    /// The scheduler wants a copy of the block here, or no longer does.
    pub fn set_sought(&mut self, key: u32, to: bool)
        requires { key < key_count (facts_of self.old).shape }
        ensures { facts_of self.new ≡ record (facts_of self.old) { sought = put (facts_of self.old).sought key to } }
    {
        self.facts.set_sought(key, to);
        self.plan.look(&self.facts, key);
    }

    /// The task met a zero divisor here, or that is forgotten.
    pub fn set_failed(&mut self, key: u32, to: bool)
        requires { key < key_count (facts_of self.old).shape }
        ensures { facts_of self.new ≡ record (facts_of self.old) { failed = put (facts_of self.old).failed key to } }
    {
        self.facts.set_failed(key, to);
    }

    /// Says who else holds the key.
    pub fn set_holders(&mut self, key: u32, to: Holders)
        requires { key < key_count (facts_of self.old).shape }
        ensures { facts_of self.new ≡ record (facts_of self.old) { holders = put (facts_of self.old).holders key to } }
    {
        self.facts.set_holders(key, to);
        self.plan.look(&self.facts, key);
    }

    /// Opens an ask to a peer under the next number.
    ///
    /// # Errors
    /// Where no memory is left; all is then as before.
    pub fn open_ask(&mut self, peer: u32, items: Vec<(u32, u64)>) -> Result<(), AllocError>
        requires keys { (k : ℕ) → list_any (λ i. i.0 == k) items.items ≡ true → k < key_count (facts_of self.old).shape }
        requires room { (facts_of self.old).next_ask < 2 ^ 63 }
        ensures ok { OnOk result (facts_of self.new ≡ record (facts_of self.old) {
          asks = with_ask (record { peer = peer; number = (facts_of self.old).next_ask; items = items.items }) (facts_of self.old).asks;
          next_ask = (facts_of self.old).next_ask + 1;
        }) }
        ensures err { OnErr result (facts_of self.new ≡ facts_of self.old) }
    {
        let place = self.facts.place_for(peer);
        self.facts.open_ask(peer, items)?;
        self.plan
            .look_items(&self.facts, self.facts.items_at(place));
        Ok(())
    }

    /// Closes the ask to a peer.
    pub fn close_ask(&mut self, peer: u32)
        ensures { facts_of self.new ≡ record (facts_of self.old) { asks = without_ask (facts_of self.old).asks peer } }
    {
        'asks: while self.close_first(peer) {}
    }

    /// Closes the first ask to a peer, and says whether there was one.
    fn close_first(&mut self, peer: u32) -> bool
        ensures found { result ≡ is_some (ask_to (facts_of self.old).asks peer) }
        ensures facts { facts_of self.new ≡ record (facts_of self.old) { asks = without_first (facts_of self.old).asks peer } }
    {
        self.facts.sound();
        match self.facts.take_ask(peer) {
            Some(ask) => {
                self.plan.look_items(&self.facts, ask.items());
                true
            }
            None => false,
        }
    }
}

/// A count after one that was counted where `before` says so is counted where `after` says so.
fn recounted(count: u32, before: bool, after: bool) -> u32
    requires room { count < 2 ^ 31 }
    requires there { before ≡ true → 0 < count }
    ensures { result + cond before 1 0 ≡ count + cond after 1 0 }
{
    if before & !after {
        count - 1
    } else if after & !before {
        count + 1
    } else {
        count
    }
}
