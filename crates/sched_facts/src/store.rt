//! The facts in rows. Each call changes one fact, or answers one.
#![tactic(auto, unfolding(crate::specs::Stored::facts_of))]

ghost use Rattle.std.specs.Prelude.{◌≡◌, ℕ, ◌+◌, ◌<◌, ◌≤◌, ◌^◌, false, length, None, IfOk, OnOk};
ghost use Rattle.fact_rows.specs.Rows.{cell, height, read, width};
ghost use Rattle.cluster_msgs.specs.Shape.{work_of, nbytes_of};
ghost use Rattle.cluster_rules.specs.Functions.{put, put_pair};
ghost use Rattle.cluster_rules.specs.Sched.{keys, holds, sched_opening};
ghost use Rattle.sched_facts.specs.Stored.{Stored, facts_of, IsStored};

use crate::sheets::Sheets;
use cluster_msgs::GraphShape;
use fact_rows::{Grid, Row};
use std::alloc::{AllocError, Global};
use std::marker::Model;

/// The stored facts, without anything that is derived.
#[derive(Drop)]
pub struct FactStore {
    alloc: Global,
    shape: GraphShape,
    clients: u32,
    saturation: u32,
    allowed: Option<u32>,
    want: Grid<bool>,
    has: Sheets<Option<u64>>,
    on: Row<Option<(u32, u64)>>,
    steal: Row<Option<(u32, bool)>>,
    bad: Row<bool>,
    losses: Row<u32>,
    threads: Row<Option<u32>>,
    sent: Row<u64>,
    fence: Sheets<u64>,
    room: u32,
    last: u32,
    counter: u64,
    finishes: u64,
}

impl Model for FactStore {
    ghost use Rattle.sched_facts.specs.Stored.{Stored};

    ghost Value = { Stored };

    ghost use Rattle.sched_facts.specs.Stores.{stored, IsInOrder};

    ghost view = { stored };

    ghost invariant = { IsInOrder };
}

impl FactStore {
    /// Nobody has joined and nothing is wanted.
    pub fn new(
        alloc: Global,
        shape: GraphShape,
        clients: u32,
        saturation: u32,
        allowed: Option<u32>,
    ) -> Result<FactStore, AllocError>
        requires { clients ≤ 16 }
        ensures facts { IfOk result (λ store. facts_of store ≡ sched_opening (record { shape = shape; clients = clients; saturation = saturation; allowed = allowed })) }
        ensures room { IfOk result (λ store. store.room ≡ 0) }
    {
        let wide = shape.keys();
        let threads = Row::filled(alloc, 1, None)?;
        let sent = Row::filled(alloc, 1, 0)?;
        let rows = KeyRows::new(alloc, wide)?;
        let grids = Grids::new(alloc, wide, clients)?;
        Ok(FactStore {
            alloc,
            shape,
            clients,
            saturation,
            allowed,
            want: grids.want,
            has: grids.has,
            on: rows.on,
            steal: rows.steal,
            bad: rows.bad,
            losses: rows.losses,
            threads,
            sent,
            fence: grids.fence,
            room: 0,
            last: 0,
            counter: 1,
            finishes: 0,
        })
    }

    /// The rows are as long as there are keys, and as many as there is room for.
    pub fn ordered(&self)
        ensures { IsStored self.now }
    {
        let _shape = &self.shape;
    }

    pub fn shape(&self) -> &GraphShape
        ensures { result.now ≡ (facts_of self.now).setting.shape }
    {
        &self.shape
    }

    pub fn keys(&self) -> u32
        ensures { result ≡ keys (facts_of self.now) }
    {
        self.shape.keys()
    }

    /// The work of a key, in bytes.
    pub fn work(&self, key: u32) -> u64
        requires { key < keys (facts_of self.now) }
        ensures { result ≡ work_of (facts_of self.now).setting.shape key }
    {
        self.shape.work(key)
    }

    /// The bytes of a key's block.
    pub fn nbytes(&self, key: u32) -> u64
        requires { key < keys (facts_of self.now) }
        ensures { result ≡ nbytes_of (facts_of self.now).setting.shape key }
    {
        self.shape.nbytes(key)
    }

    pub fn clients(&self) -> u32
        ensures { result ≡ (facts_of self.now).setting.clients }
    {
        self.clients
    }

    pub fn saturation(&self) -> u32
        ensures { result ≡ (facts_of self.now).setting.saturation }
    {
        self.saturation
    }

    /// How often a key's worker may leave while the key is assigned to it, where that is bounded.
    pub fn allowed(&self) -> Option<u32>
        ensures { result ≡ (facts_of self.now).setting.allowed }
    {
        self.allowed
    }

    pub fn last_worker(&self) -> u32
        ensures { result ≡ (facts_of self.now).last_worker }
    {
        self.last
    }

    pub fn counter(&self) -> u64
        ensures { result ≡ (facts_of self.now).counter }
    {
        self.counter
    }

    pub fn finishes(&self) -> u64
        ensures { result ≡ (facts_of self.now).finishes }
    {
        self.finishes
    }

    pub fn wants(&self, client: u32, key: u32) -> bool
        requires client { client ≤ (facts_of self.now).setting.clients }
        requires key { key < keys (facts_of self.now) }
        ensures { result ≡ (facts_of self.now).want client key }
    {
        self.want.get(client, key)
    }

    pub fn set_want(&mut self, client: u32, key: u32, to: bool)
        requires client { client ≤ (facts_of self.old).setting.clients }
        requires key { key < keys (facts_of self.old) }
        ensures facts { facts_of self.new ≡ record (facts_of self.old) { want = put_pair (facts_of self.old).want client key to } }
        ensures room { self.new.room ≡ self.old.room }
    {
        self.want.set(client, key, to);
    }

    /// The copy that the worker holds. A worker without a row holds none.
    pub fn copy_at(&self, worker: u32, key: u32) -> Option<u64>
        ensures { result ≡ (facts_of self.now).has worker key }
    {
        self.has.read(worker, key)
    }

    /// Whether the worker holds the key.
    pub fn holds(&self, worker: u32, key: u32) -> bool
        ensures { result ≡ holds (facts_of self.now) worker key }
    {
        self.copy_at(worker, key).is_some()
    }

    pub fn set_copy(&mut self, worker: u32, key: u32, to: Option<u64>)
        requires worker { worker ≤ (facts_of self.old).last_worker }
        requires key { key < keys (facts_of self.old) }
        ensures facts { facts_of self.new ≡ record (facts_of self.old) { has = put_pair (facts_of self.old).has worker key to } }
        ensures room { self.new.room ≡ self.old.room }
    {
        self.has.set(worker, key, to);
    }

    pub fn on(&self, key: u32) -> Option<(u32, u64)>
        ensures { result ≡ (facts_of self.now).on key }
    {
        self.on.read(key)
    }

    pub fn set_on(&mut self, key: u32, to: Option<(u32, u64)>)
        requires { key < keys (facts_of self.old) }
        ensures facts { facts_of self.new ≡ record (facts_of self.old) { on = put (facts_of self.old).on key to } }
        ensures room { self.new.room ≡ self.old.room }
    {
        self.on.set(key, to);
    }

    pub fn steal(&self, key: u32) -> Option<(u32, bool)>
        ensures { result ≡ (facts_of self.now).steal key }
    {
        self.steal.read(key)
    }

    pub fn set_steal(&mut self, key: u32, to: Option<(u32, bool)>)
        requires { key < keys (facts_of self.old) }
        ensures facts { facts_of self.new ≡ record (facts_of self.old) { steal = put (facts_of self.old).steal key to } }
        ensures room { self.new.room ≡ self.old.room }
    {
        self.steal.set(key, to);
    }

    pub fn is_bad(&self, key: u32) -> bool
        ensures { result ≡ (facts_of self.now).bad key }
    {
        self.bad.test(key as usize)
    }

    pub fn set_bad(&mut self, key: u32, to: bool)
        requires { key < keys (facts_of self.old) }
        ensures facts { facts_of self.new ≡ record (facts_of self.old) { bad = put (facts_of self.old).bad key to } }
        ensures room { self.new.room ≡ self.old.room }
    {
        self.bad.set(key, to);
    }

    /// How often the key's worker left while the key was assigned to it.
    pub fn losses(&self, key: u32) -> u32
        requires { key < keys (facts_of self.now) }
        ensures { result ≡ (facts_of self.now).losses key }
    {
        self.losses.get(key)
    }

    pub fn set_losses(&mut self, key: u32, to: u32)
        requires { key < keys (facts_of self.old) }
        ensures facts { facts_of self.new ≡ record (facts_of self.old) { losses = put (facts_of self.old).losses key to } }
        ensures room { self.new.room ≡ self.old.room }
    {
        self.losses.set(key, to);
    }

    /// The worker's threads, where it is connected.
    pub fn threads(&self, worker: u32) -> Option<u32>
        ensures { result ≡ (facts_of self.now).threads worker }
    {
        self.threads.read(worker)
    }

    pub fn set_threads(&mut self, worker: u32, to: Option<u32>)
        requires { worker ≤ self.old.room }
        ensures facts { facts_of self.new ≡ record (facts_of self.old) { threads = put (facts_of self.old).threads worker to } }
        ensures room { self.new.room ≡ self.old.room }
    {
        self.threads.set(worker, to);
    }

    /// One more number was given to a worker.
    pub fn count_worker(&mut self)
        requires { (facts_of self.old).last_worker < self.old.room }
        ensures facts { facts_of self.new ≡ record (facts_of self.old) { last_worker = (facts_of self.old).last_worker + 1 } }
        ensures room { self.new.room ≡ self.old.room }
    {
        self.last += 1;
    }

    /// How many workers there is room for.
    pub fn room(&self) -> u32
        ensures { result ≡ self.now.room }
    {
        self.room
    }

    /// Room for one more worker. The facts stay as they are, with or without memory.
    pub fn make_room(&mut self) -> Result<(), AllocError>
        requires { self.old.room < 2 ^ 31 }
        ensures facts { facts_of self.new ≡ facts_of self.old }
        ensures room { OnOk result (self.new.room ≡ self.old.room + 1) }
        ensures least { self.old.room ≤ self.new.room }
        ensures most { self.new.room ≤ self.old.room + 1 }
    {
        self.has.add(self.alloc, None)?;
        self.fence.add(self.alloc, 0)?;
        self.threads.push(None)?;
        self.sent.push(0)?;
        self.room += 1;
        Ok(())
    }

    /// The next attempt or copy.
    pub fn next_number(&mut self) -> u64
        requires { (facts_of self.old).counter < 2 ^ 62 }
        ensures number { result ≡ (facts_of self.old).counter }
        ensures facts { facts_of self.new ≡ record (facts_of self.old) { counter = (facts_of self.old).counter + 1 } }
        ensures room { self.new.room ≡ self.old.room }
    {
        let number = self.counter;
        self.counter += 1;
        number
    }

    pub fn count_finish(&mut self)
        requires { (facts_of self.old).finishes < 2 ^ 62 }
        ensures facts { facts_of self.new ≡ record (facts_of self.old) { finishes = (facts_of self.old).finishes + 1 } }
        ensures room { self.new.room ≡ self.old.room }
    {
        self.finishes += 1;
    }

    /// How many messages went to the worker.
    pub fn sent(&self, worker: u32) -> u64
        requires { worker ≤ (facts_of self.now).last_worker }
        ensures { result ≡ (facts_of self.now).sent worker }
    {
        self.sent.get(worker)
    }

    pub fn set_sent(&mut self, worker: u32, to: u64)
        requires { worker ≤ (facts_of self.old).last_worker }
        ensures facts { facts_of self.new ≡ record (facts_of self.old) { sent = put (facts_of self.old).sent worker to } }
        ensures room { self.new.room ≡ self.old.room }
    {
        self.sent.set(worker, to);
    }

    /// The place of the last message that took the key away from the worker.
    pub fn fence(&self, worker: u32, key: u32) -> u64
        requires worker { worker ≤ (facts_of self.now).last_worker }
        requires key { key < keys (facts_of self.now) }
        ensures { result ≡ (facts_of self.now).fence worker key }
    {
        self.fence.get(worker, key)
    }

    pub fn set_fence(&mut self, worker: u32, key: u32, to: u64)
        requires worker { worker ≤ (facts_of self.old).last_worker }
        requires key { key < keys (facts_of self.old) }
        ensures facts { facts_of self.new ≡ record (facts_of self.old) { fence = put_pair (facts_of self.old).fence worker key to } }
        ensures room { self.new.room ≡ self.old.room }
    {
        self.fence.set(worker, key, to);
    }
}

/// The rows by key of a store that begins: no key has a place, none is to be stolen, none is bad, and none lost a worker.
#[derive(Drop)]
struct KeyRows {
    on: Row<Option<(u32, u64)>>,
    steal: Row<Option<(u32, bool)>>,
    bad: Row<bool>,
    losses: Row<u32>,
}

impl KeyRows {
    fn new(alloc: Global, wide: u32) -> Result<KeyRows, AllocError>
        ensures on { IfOk result (λ rows. (k : ℕ) → read rows.on None k ≡ None) }
        ensures steal { IfOk result (λ rows. (k : ℕ) → read rows.steal None k ≡ None) }
        ensures bad { IfOk result (λ rows. (k : ℕ) → read rows.bad false k ≡ false) }
        ensures losses { IfOk result (λ rows. (k : ℕ) → read rows.losses 0 k ≡ 0) }
        ensures places { IfOk result (λ rows. length rows.on ≡ wide) }
        ensures steals { IfOk result (λ rows. length rows.steal ≡ wide) }
        ensures faults { IfOk result (λ rows. length rows.bad ≡ wide) }
        ensures counts { IfOk result (λ rows. length rows.losses ≡ wide) }
    {
        let count = wide as usize;
        Ok(KeyRows {
            on: Row::filled(alloc, count, None)?,
            steal: Row::filled(alloc, count, None)?,
            bad: Row::filled(alloc, count, false)?,
            losses: Row::filled(alloc, count, 0)?,
        })
    }
}

/// The facts by two numbers of a store that begins: nobody wants or holds a key, and no key was taken from a worker.
#[derive(Drop)]
struct Grids {
    want: Grid<bool>,
    has: Sheets<Option<u64>>,
    fence: Sheets<u64>,
}

impl Grids {
    fn new(alloc: Global, wide: u32, clients: u32) -> Result<Grids, AllocError>
        requires { clients ≤ 16 }
        ensures want { IfOk result (λ grids. cell grids.want false ≡ (λ i k. false)) }
        ensures has { IfOk result (λ grids. cell grids.has None ≡ (λ i k. None)) }
        ensures fence { IfOk result (λ grids. cell grids.fence 0 ≡ (λ i k. 0)) }
        ensures wants { IfOk result (λ grids. (width grids.want ≡ wide) × (height grids.want ≡ clients + 1)) }
        ensures copies { IfOk result (λ grids. (width grids.has ≡ wide) × (height grids.has ≡ 1)) }
        ensures fences { IfOk result (λ grids. (width grids.fence ≡ wide) × (height grids.fence ≡ 1)) }
    {
        Ok(Grids {
            want: grid_of(alloc, wide, clients + 1, false)?,
            has: Sheets::new(alloc, wide, None)?,
            fence: Sheets::new(alloc, wide, 0)?,
        })
    }
}

/// A grid of so many rows of equal members.
fn grid_of<T: Copy + Drop>(
    alloc: Global,
    wide: u32,
    count: u32,
    value: T,
) -> Result<Grid<T>, AllocError>
    ensures height { IfOk result (λ grid. height grid ≡ count) }
    ensures width { IfOk result (λ grid. width grid ≡ wide) }
    ensures same { IfOk result (λ grid. cell grid value ≡ (λ i k. value)) }
{
    let mut grid = Grid::empty(alloc, wide);
    add_rows(alloc, &mut grid, wide, count, value)?;
    Ok(grid)
}

/// Rows of equal members at the end of a grid.
fn add_rows<T: Copy + Drop>(
    alloc: Global,
    grid: &mut Grid<T>,
    wide: u32,
    count: u32,
    value: T,
) -> Result<(), AllocError>
    requires { width grid.old ≡ wide }
    ensures height { OnOk result (height grid.new ≡ height grid.old + count) }
    ensures kept { height grid.old ≤ height grid.new }
    ensures width { width grid.new ≡ width grid.old }
    ensures same { cell grid.new value ≡ cell grid.old value }
{
    for _row in 0..count {
        add_row(alloc, grid, wide, value)?;
    }
    Ok(())
}

/// A row of equal members at the end of a grid.
fn add_row<T: Copy + Drop>(
    alloc: Global,
    grid: &mut Grid<T>,
    wide: u32,
    value: T,
) -> Result<(), AllocError>
    requires { width grid.old ≡ wide }
    ensures height { OnOk result (height grid.new ≡ height grid.old + 1) }
    ensures kept { height grid.old ≤ height grid.new }
    ensures width { width grid.new ≡ width grid.old }
    ensures same { cell grid.new value ≡ cell grid.old value }
{
    let row = match Row::filled(alloc, wide as usize, value) {
        Ok(row) => row,
        Err(error) => return Err(error),
    };
    match grid.push(row) {
        Ok(()) => Ok(()),
        Err(error) => Err(error),
    }
}
