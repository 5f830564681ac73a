//! The scheduler's facts with what is derived from them.
ghost use Rattle.std.specs.Prelude.{◌≡◌, ℕ, ◌<◌, ◌≤◌, true, false, None, Some, IfOk, OnOk};
ghost use Rattle.cluster_rules.specs.Sched.{sched_opening, keys, erred, known, need, ready, fed, waiters, blame};
ghost use Rattle.key_sets.specs.Sets.{has, IsFirst};
ghost use Rattle.task_table.specs.Changes.{with_change, Fits, changed_key};
ghost use Rattle.task_table.specs.Lists.{IsSetOf, is_at, is_placed, is_shared};
ghost use Rattle.task_table.specs.Tasks.{facts, IsTouched, IsRemembered, own_blame, queued_root, queued_other};

use crate::blame::{blame_by, blame_through};
use crate::change::{Change, key_of, put, worker_of};
use crate::levels::is_ready_by;
use crate::lists::{Lists, follow_lists, worker_on};
use crate::marks::{recall_erred, recall_held};
use crate::parts::{Parts, begin, follow_any};
use crate::rows::first_in_row;
use cluster_msgs::GraphShape;
use key_sets::KeySet;
use sched_facts::FactTable;
use standing::settle::is_needed;
use std::alloc::{AllocError, Global};
use std::marker::Model;

/// The scheduler's facts with what is derived from them, seen as the stored facts, the touched keys, and the keys that were
/// held and erred when touched keys were last forgotten.
#[derive(Drop)]
pub struct TaskTable {
    table: FactTable,
    parts: Parts,
    lists: Lists,
    held_before: KeySet,
    erred_before: KeySet,
}

impl Model for TaskTable {
    ghost use Rattle.task_table.specs.Tasks.{Tasks};

    ghost Value = { Tasks };

    ghost use Rattle.task_table.specs.Tables.{tasks_of, IsTable};

    ghost view = { tasks_of };

    ghost invariant = { IsTable };
}

impl TaskTable {
    /// Nobody has joined and nothing is wanted. No key is touched.
    ///
    /// # Errors
    /// Where no memory is left.
    pub fn new(
        alloc: Global,
        shape: GraphShape,
        clients: u32,
        saturation: u32,
        allowed: Option<u32>,
    ) -> Result<TaskTable, AllocError>
        requires clients { clients ≤ 16 }
        requires saturation { (1 ≤ saturation) × (saturation ≤ 1000) }
        ensures facts { IfOk result (λ t. facts t ≡ sched_opening (record { shape = shape; clients = clients; saturation = saturation; allowed = allowed })) }
        ensures touched { IfOk result (λ t. (k : ℕ) → has t.touched k ≡ false) }
    {
        shape.sound();
        let lists = Lists::new(alloc, shape.keys())?;
        let held_before = KeySet::new(alloc, shape.keys())?;
        let erred_before = KeySet::new(alloc, shape.keys())?;
        let table = FactTable::new(alloc, shape, clients, saturation, allowed)?;
        let graph = table.shape();
        let mut parts = Parts::new(alloc, graph)?;
        begin(&table, &mut parts);
        Ok(TaskTable {
            table,
            parts,
            lists,
            held_before,
            erred_before,
        })
    }

    /// The facts, with every question about them that is not derived.
    pub fn table(&self) -> &FactTable
        ensures { result.now ≡ self.now.stored }
    {
        &self.table
    }

    /// Touched keys are keys, and all others are held and erred as they were before.
    pub fn remembered(&self)
        ensures { IsRemembered (facts self.now) self.now }
    {
        let _table = &self.table;
    }

    /// Room for one more worker. Nothing else changes, with or without memory. No other call but `new` takes memory.
    ///
    /// # Errors
    /// Where no memory is left.
    pub fn make_room(&mut self) -> Result<(), AllocError>
        ensures facts { facts self.new ≡ facts self.old }
        ensures rest { self.new ≡ record self.old { stored = self.new.stored } }
        ensures room { OnOk result ((facts self.new).last_worker < self.new.stored.room) }
    {
        self.table.make_room()
    }

    /// One change of one fact. All that is derived is settled at once.
    pub fn apply(&mut self, change: Change)
        requires { Fits (facts self.old) self.old.stored.room change }
        ensures facts { facts self.new ≡ with_change (facts self.old) change }
        ensures touched { IsTouched (facts self.old) (facts self.new) self.old self.new }
        ensures named { (k : ℕ) → changed_key change ≡ Some k → has self.new.touched k ≡ true }
    {
        self.table.sound();
        let key = key_of(change);
        let left = worker_on(&self.table, key);
        put(&mut self.table, change);
        self.table.sound();
        follow_lists(&self.table, &mut self.lists, key, worker_of(change), left);
        follow_any(&self.table, &mut self.parts, key);
    }

    /// No key is touched any more; what is held and erred now is what was so before.
    pub fn forget(&mut self)
        ensures stored { self.new.stored ≡ self.old.stored }
        ensures touched { (k : ℕ) → has self.new.touched k ≡ false }
    {
        self.table.sound();
        recall_held(&self.table, &self.parts.touched, &mut self.held_before);
        recall_erred(
            &self.parts.levels.erred,
            &self.parts.touched,
            &mut self.erred_before,
        );
        self.parts.touched.clear();
    }

    /// The first touched key from this one on.
    pub fn first_touched(&self, from: u32) -> Option<u32>
        ensures { IsFirst (has self.now.touched) from result }
    {
        self.parts.touched.first_from(from)
    }

    /// Whether the key was held before.
    pub fn was_held(&self, key: u32) -> bool
        ensures { result ≡ has self.now.held_before key }
    {
        self.held_before.contains(key)
    }

    /// Whether the key was erred before.
    pub fn was_erred(&self, key: u32) -> bool
        ensures { result ≡ has self.now.erred_before key }
    {
        self.erred_before.contains(key)
    }

    /// The first key from this one on that is ready, on no worker, and without dependencies.
    pub fn first_root(&self, from: u32) -> Option<u32>
        ensures { IsFirst (queued_root (facts self.now)) from result }
    {
        self.table.sound();
        self.parts.queues.roots.first_from(from)
    }

    /// The first key from this one on that is ready, on no worker, and has dependencies.
    pub fn first_other(&self, from: u32) -> Option<u32>
        ensures { IsFirst (queued_other (facts self.now)) from result }
    {
        self.table.sound();
        self.parts.queues.others.first_from(from)
    }

    /// The keys on a worker.
    pub fn placed(&self) -> &KeySet
        ensures { IsSetOf (keys (facts self.now)) (is_placed (facts self.now)) result.now }
    {
        self.table.sound();
        &self.lists.placed
    }

    /// The keys that two workers or more hold.
    pub fn shared(&self) -> &KeySet
        ensures { IsSetOf (keys (facts self.now)) (is_shared (facts self.now)) result.now }
    {
        self.table.sound();
        &self.lists.shared
    }

    /// The first key from this one on that the worker holds or has.
    pub fn first_at(&self, worker: u32, from: u32) -> Option<u32>
        ensures { IsFirst (is_at (facts self.now) worker) from result }
    {
        first_in_row(&self.lists.rows, worker, from)
    }

    /// Whether the key is known. Where there is no such key it is not.
    pub fn is_known(&self, key: u32) -> bool
        ensures { result ≡ known (facts self.now) key }
    {
        self.table.sound();
        let is_there = key < self.table.keys();
        is_there & self.parts.levels.known.is_set(key)
    }

    /// Whether the key is erred. Where there is no such key it is not.
    pub fn is_erred(&self, key: u32) -> bool
        ensures { result ≡ erred (facts self.now) key }
    {
        self.table.sound();
        let is_there = key < self.table.keys();
        is_there & self.parts.levels.erred.is_set(key)
    }

    /// Whether the key is ready. Where there is no such key it is not.
    pub fn is_ready(&self, key: u32) -> bool
        ensures { result ≡ ready (facts self.now) key }
    {
        self.table.sound();
        if key < self.table.keys() {
            is_ready_by(&self.parts.levels, key)
        } else {
            false
        }
    }

    /// Whether the key is needed.
    pub fn is_needed(&self, key: u32) -> bool
        requires { key < keys (facts self.now) }
        ensures { result ≡ need (facts self.now) key }
    {
        is_needed(&self.table, &self.parts.levels.waiting, key)
    }

    /// How many dependents of the key are needed, not held and not erred.
    pub fn waiter_count(&self, key: u32) -> u32
        requires { key < keys (facts self.now) }
        ensures { result ≡ waiters (facts self.now) key }
    {
        self.parts.levels.waiting.leaders(key)
    }

    /// Whether each dependency of the key is held.
    pub fn is_fed(&self, key: u32) -> bool
        requires { key < keys (facts self.now) }
        ensures { result ≡ fed (facts self.now) key }
    {
        self.parts.levels.missing.leaders(key) == 0
    }

    /// The key that an erred key is blamed on. A key that is not erred has none. It walks down the dependencies.
    pub fn blame(&self, key: u32) -> Option<u32>
        ensures { result ≡ blame (facts self.now) key }
    {
        let mut at = key;
        while let Some(next) = self.blame_next(at) {
            at = next;
        }
        self.own_blame(at)
    }

    /// The dependency that is blamed for the same, where the key is erred without an error of its own.
    fn blame_next(&self, key: u32) -> Option<u32>
        ensures below { (d : ℕ) → result ≡ Some d → d < key }
        ensures same { (d : ℕ) → result ≡ Some d → blame (facts self.now) d ≡ blame (facts self.now) key }
        ensures own { result ≡ None → blame (facts self.now) key ≡ own_blame (facts self.now) key }
    {
        self.table.sound();
        blame_through(&self.table, &self.parts.levels.erred, key)
    }

    /// What a key is blamed on by itself.
    fn own_blame(&self, key: u32) -> Option<u32>
        ensures { result ≡ own_blame (facts self.now) key }
    {
        blame_by(self.is_erred(key), self.table().is_bad(key), key)
    }
}
