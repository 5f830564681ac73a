//! The scheduler's facts: one call for each change of a fact, and for each question that needs no derived row.
//!
//! Beside the facts it keeps running sums: how many keys, how much work and how many bytes are at each worker, and how
//! many workers hold and how many clients want each key. So no question visits all keys.
ghost use Rattle.std.specs.Prelude.{◌≡◌, ℕ, ◌+◌, ◌<◌, ◌≤◌, ◌^◌, true, false, None, Some, IfOk, OnOk, length, is_some};
ghost use Rattle.cluster_rules.specs.Functions.{put, put_pair};
ghost use Rattle.cluster_rules.specs.Sched.{IsSound, sched_opening, keys, held, wanted, holds, is_on, connected, workers, tasks, occupancy, bytes_held, holder_count};
ghost use Rattle.cluster_rules.specs.SchedTable.{joined};
ghost use Rattle.sched_facts.specs.Stored.{facts_of};
ghost use Rattle.sched_facts.specs.Kept.{IsFresh};
ghost use Rattle.cluster_rules.specs.Sched.{is_for};

use crate::store::FactStore;
use crate::sums::{
    add_sums, is_positive, is_there, lower, lower_at, one_more, raise, raise_at, sum_at, where_so,
};
use cluster_msgs::GraphShape;
use fact_rows::Row;
use std::alloc::{AllocError, Global};
use std::marker::Model;

/// The scheduler's facts with their running sums, seen as the stored facts, which `facts_of` makes facts.
#[derive(Drop)]
pub struct FactTable {
    store: FactStore,
    tasks: Row<u64>,
    work: Row<u64>,
    bytes: Row<u64>,
    holders: Row<u64>,
    wanters: Row<u64>,
}

impl Model for FactTable {
    ghost use Rattle.sched_facts.specs.Stored.{Stored};

    ghost Value = { Stored };

    ghost view = { λ s. s.store };

    ghost use Rattle.sched_facts.specs.Tables.{IsKept};

    ghost invariant = { IsKept };
}

impl FactTable {
    /// Nobody has joined and nothing is wanted.
    ///
    /// # Errors
    /// Where no memory is left.
    pub fn new(
        alloc: Global,
        shape: GraphShape,
        clients: u32,
        saturation: u32,
        allowed: Option<u32>,
    ) -> Result<FactTable, AllocError>
        requires clients { clients ≤ 16 }
        requires saturation { (1 ≤ saturation) × (saturation ≤ 1000) }
        ensures { IfOk result (λ table. facts_of table ≡ sched_opening (record { shape = shape; clients = clients; saturation = saturation; allowed = allowed })) }
    {
        let count = shape.keys() as usize;
        shape.sound();
        let holders = Row::filled(alloc, count, 0)?;
        let wanters = Row::filled(alloc, count, 0)?;
        let tasks = Row::filled(alloc, 1, 0)?;
        let work = Row::filled(alloc, 1, 0)?;
        let bytes = Row::filled(alloc, 1, 0)?;
        let store = FactStore::new(alloc, shape, clients, saturation, allowed)?;
        Ok(FactTable {
            store,
            tasks,
            work,
            bytes,
            holders,
            wanters,
        })
    }

    /// No fact names a key, a worker or a client that is not there.
    pub fn sound(&self)
        ensures { IsSound (facts_of self.now) }
    {
        let _store = &self.store;
    }

    /// Each copy and each attempt is below the next.
    pub fn fresh(&self)
        ensures { IsFresh (facts_of self.now) }
    {
        let _store = &self.store;
    }

    pub fn shape(&self) -> &GraphShape
        ensures { result.now ≡ (facts_of self.now).setting.shape }
    {
        self.store.shape()
    }

    /// How many keys there are.
    pub fn keys(&self) -> u32
        ensures { result ≡ keys (facts_of self.now) }
    {
        self.store.keys()
    }

    /// How many clients there are. They count from 1.
    pub fn clients(&self) -> u32
        ensures { result ≡ (facts_of self.now).setting.clients }
    {
        self.store.clients()
    }

    /// How many tenths of its threads a worker may be given in tasks.
    pub fn saturation(&self) -> u32
        ensures { result ≡ (facts_of self.now).setting.saturation }
    {
        self.store.saturation()
    }

    /// How often a key's worker may leave while the key is assigned to it, where that is bounded.
    pub fn allowed(&self) -> Option<u32>
        ensures { result ≡ (facts_of self.now).setting.allowed }
    {
        self.store.allowed()
    }

    /// The greatest number that a worker got. They count from 1.
    pub fn last_worker(&self) -> u32
        ensures { result ≡ (facts_of self.now).last_worker }
    {
        self.store.last_worker()
    }

    /// The next attempt or copy.
    pub fn counter(&self) -> u64
        ensures { result ≡ (facts_of self.now).counter }
    {
        self.store.counter()
    }

    /// How many finishes counted.
    pub fn finishes(&self) -> u64
        ensures { result ≡ (facts_of self.now).finishes }
    {
        self.store.finishes()
    }

    /// Whether the client wants the key.
    pub fn wants(&self, client: u32, key: u32) -> bool
        requires client { client ≤ (facts_of self.now).setting.clients }
        requires key { key < keys (facts_of self.now) }
        ensures { result ≡ (facts_of self.now).want client key }
    {
        self.store.wants(client, key)
    }

    /// The client wants the key from now on, or no longer.
    pub fn set_want(&mut self, client: u32, key: u32, to: bool)
        requires first { 1 ≤ client }
        requires client { client ≤ (facts_of self.old).setting.clients }
        requires key { key < keys (facts_of self.old) }
        ensures { facts_of self.new ≡ record (facts_of self.old) { want = put_pair (facts_of self.old).want client key to } }
    {
        let did = self.store.wants(client, key);
        raise(&mut self.wanters, key, where_so(to, 1));
        lower(&mut self.wanters, key, where_so(did, 1));
        self.store.set_want(client, key, to);
    }

    /// Whether some client wants the key.
    pub fn is_wanted(&self, key: u32) -> bool
        ensures { result ≡ wanted (facts_of self.now) key }
    {
        is_positive(sum_at(&self.wanters, key))
    }

    /// The copy of the key that the worker holds.
    pub fn copy_at(&self, worker: u32, key: u32) -> Option<u64>
        ensures { result ≡ (facts_of self.now).has worker key }
    {
        self.store.copy_at(worker, key)
    }

    /// Whether the worker holds the key.
    pub fn holds(&self, worker: u32, key: u32) -> bool
        ensures { result ≡ holds (facts_of self.now) worker key }
    {
        self.store.holds(worker, key)
    }

    /// The worker holds this copy of the key, or none.
    fn set_copy(&mut self, worker: u32, key: u32, to: Option<u64>)
        requires worker { connected (facts_of self.old) worker ≡ true }
        requires key { key < keys (facts_of self.old) }
        requires fresh { (c : ℕ) → to ≡ Some c → c < (facts_of self.old).counter }
        ensures { facts_of self.new ≡ record (facts_of self.old) { has = put_pair (facts_of self.old).has worker key to } }
    {
        let had = self.store.holds(worker, key);
        let has = is_there(to);
        let size = self.store.nbytes(key);
        raise(&mut self.bytes, worker, where_so(has, size));
        lower(&mut self.bytes, worker, where_so(had, size));
        raise(&mut self.holders, key, where_so(has, 1));
        lower(&mut self.holders, key, where_so(had, 1));
        self.store.set_copy(worker, key, to);
    }

    /// The worker no longer holds the key.
    pub fn drop_copy(&mut self, worker: u32, key: u32)
        requires worker { connected (facts_of self.old) worker ≡ true }
        requires key { key < keys (facts_of self.old) }
        ensures { facts_of self.new ≡ record (facts_of self.old) { has = put_pair (facts_of self.old).has worker key None } }
    {
        self.set_copy(worker, key, None);
    }

    /// The worker holds a new copy of the key.
    pub fn new_copy(&mut self, worker: u32, key: u32)
        requires worker { connected (facts_of self.old) worker ≡ true }
        requires key { key < keys (facts_of self.old) }
        requires room { (facts_of self.old).counter < 2 ^ 62 }
        ensures { facts_of self.new ≡ record (facts_of self.old) { has = put_pair (facts_of self.old).has worker key (Some (facts_of self.old).counter); counter = (facts_of self.old).counter + 1 } }
    {
        let copy = self.next_number();
        self.set_copy(worker, key, Some(copy));
    }

    /// The next attempt or copy, which is given once.
    fn next_number(&mut self) -> u64
        requires { (facts_of self.old).counter < 2 ^ 62 }
        ensures number { result ≡ (facts_of self.old).counter }
        ensures facts { facts_of self.new ≡ record (facts_of self.old) { counter = (facts_of self.old).counter + 1 } }
    {
        self.store.next_number()
    }

    /// Whether some worker holds the key.
    pub fn is_held(&self, key: u32) -> bool
        ensures { result ≡ held (facts_of self.now) key }
    {
        is_positive(sum_at(&self.holders, key))
    }

    /// How many workers hold the key.
    pub fn holder_count(&self, key: u32) -> u64
        ensures { result ≡ holder_count (facts_of self.now) key }
    {
        sum_at(&self.holders, key)
    }

    /// The worker that the key was given to, and under which attempt.
    pub fn on(&self, key: u32) -> Option<(u32, u64)>
        ensures { result ≡ (facts_of self.now).on key }
    {
        self.store.on(key)
    }

    /// The key is at this place, or at none, and is not to be stolen.
    fn set_place(&mut self, key: u32, to: Option<(u32, u64)>)
        requires key { key < keys (facts_of self.old) }
        requires place { (w a : ℕ) → to ≡ Some (w, a) → (connected (facts_of self.old) w ≡ true) × (a < (facts_of self.old).counter) }
        ensures { facts_of self.new ≡ record (facts_of self.old) { on = put (facts_of self.old).on key to; steal = put (facts_of self.old).steal key None } }
    {
        let from = self.store.on(key);
        let size = self.store.work(key);
        raise_at(&mut self.tasks, to, 1);
        lower_at(&mut self.tasks, from, 1);
        raise_at(&mut self.work, to, size);
        lower_at(&mut self.work, from, size);
        self.store.set_on(key, to);
        self.store.set_steal(key, None);
    }

    /// The key is on no worker, and is not to be stolen.
    pub fn unassign(&mut self, key: u32)
        requires { key < keys (facts_of self.old) }
        ensures { facts_of self.new ≡ record (facts_of self.old) { on = put (facts_of self.old).on key None; steal = put (facts_of self.old).steal key None } }
    {
        self.set_place(key, None);
    }

    /// The key is given to the worker under a new attempt, and is not to be stolen.
    pub fn assign(&mut self, key: u32, worker: u32)
        requires key { key < keys (facts_of self.old) }
        requires worker { connected (facts_of self.old) worker ≡ true }
        requires room { (facts_of self.old).counter < 2 ^ 62 }
        ensures { facts_of self.new ≡ record (facts_of self.old) { on = put (facts_of self.old).on key (Some (worker, (facts_of self.old).counter)); steal = put (facts_of self.old).steal key None; counter = (facts_of self.old).counter + 1 } }
    {
        let attempt = self.next_number();
        self.set_place(key, Some((worker, attempt)));
    }

    /// The thief that is to get the key, and whether the victim refused.
    pub fn steal(&self, key: u32) -> Option<(u32, bool)>
        ensures { result ≡ (facts_of self.now).steal key }
    {
        self.store.steal(key)
    }

    /// The key, which was given to a worker, is to be stolen or was refused.
    pub fn mark_steal(&mut self, key: u32, to: Option<(u32, bool)>)
        requires key { key < keys (facts_of self.old) }
        requires on { is_some ((facts_of self.old).on key) ≡ true }
        ensures { facts_of self.new ≡ record (facts_of self.old) { steal = put (facts_of self.old).steal key to } }
    {
        self.store.set_steal(key, to);
    }

    /// Whether the key has an error of its own.
    pub fn is_bad(&self, key: u32) -> bool
        ensures { result ≡ (facts_of self.now).bad key }
    {
        self.store.is_bad(key)
    }

    /// The key has an error of its own, or has none any more.
    pub fn set_bad(&mut self, key: u32, to: bool)
        requires { key < keys (facts_of self.old) }
        ensures { facts_of self.new ≡ record (facts_of self.old) { bad = put (facts_of self.old).bad key to } }
    {
        self.store.set_bad(key, to);
    }

    /// How often the key's worker left while the key was assigned to it.
    pub fn losses(&self, key: u32) -> u32
        requires { key < keys (facts_of self.now) }
        ensures { result ≡ (facts_of self.now).losses key }
    {
        self.store.losses(key)
    }

    /// The key has lost its worker once more.
    pub fn count_loss(&mut self, key: u32)
        requires key { key < keys (facts_of self.old) }
        requires room { (facts_of self.old).losses key < 2 ^ 31 }
        ensures { facts_of self.new ≡ record (facts_of self.old) { losses = put (facts_of self.old).losses key ((facts_of self.old).losses key + 1) } }
    {
        let count = self.store.losses(key) + 1;
        self.store.set_losses(key, count);
    }

    /// The key has no error of its own and no losses.
    pub fn forgive(&mut self, key: u32)
        requires { key < keys (facts_of self.old) }
        ensures { facts_of self.new ≡ record (facts_of self.old) { bad = put (facts_of self.old).bad key false; losses = put (facts_of self.old).losses key 0 } }
    {
        self.store.set_bad(key, false);
        self.store.set_losses(key, 0);
    }

    /// The worker's threads, where it is connected.
    pub fn threads(&self, worker: u32) -> Option<u32>
        ensures { result ≡ (facts_of self.now).threads worker }
    {
        self.store.threads(worker)
    }

    /// Whether the worker is connected.
    pub fn is_connected(&self, worker: u32) -> bool
        ensures { result ≡ connected (facts_of self.now) worker }
    {
        self.store.threads(worker).is_some()
    }

    /// How many keys are on the worker.
    pub fn tasks(&self, worker: u32) -> u64
        ensures { result ≡ tasks (facts_of self.now) worker }
    {
        sum_at(&self.tasks, worker)
    }

    /// The work of all keys on the worker, in bytes.
    pub fn occupancy(&self, worker: u32) -> u64
        ensures { result ≡ occupancy (facts_of self.now) worker }
    {
        sum_at(&self.work, worker)
    }

    /// The bytes of all keys that the worker holds.
    pub fn bytes_held(&self, worker: u32) -> u64
        ensures { result ≡ bytes_held (facts_of self.now) worker }
    {
        sum_at(&self.bytes, worker)
    }

    /// How many workers are connected.
    pub fn connected_count(&self) -> u32
        ensures { result ≡ length (workers (facts_of self.now)) }
    {
        self.sound();
        let mut count = 0u32;
        for before in 0..self.last_worker() {
            count = one_more(count, self.is_connected(before + 1));
        }
        count
    }

    /// Room for one more worker. The facts stay as they are, with or without memory.
    ///
    /// # Errors
    /// Where no memory is left.
    pub fn make_room(&mut self) -> Result<(), AllocError>
        ensures facts { facts_of self.new ≡ facts_of self.old }
        ensures room { OnOk result ((facts_of self.new).last_worker < self.new.room) }
    {
        if self.store.last_worker() < self.store.room() {
            return Ok(());
        }
        match add_sums(&mut self.tasks, &mut self.work, &mut self.bytes) {
            Ok(()) => self.store.make_room(),
            Err(error) => Err(error),
        }
    }

    /// The next number is connected, with this many threads.
    pub fn join(&mut self, threads: u32)
        requires room { (facts_of self.old).last_worker < self.old.room }
        requires threads { (1 ≤ threads) × (threads ≤ 16) }
        requires workers { length (workers (facts_of self.old)) < 64 }
        requires numbers { (facts_of self.old).last_worker < 1024 }
        ensures { facts_of self.new ≡ joined (facts_of self.old) threads }
    {
        let number = self.store.last_worker() + 1;
        self.store.set_threads(number, Some(threads));
        self.store.count_worker();
    }

    /// A worker that holds nothing and was given nothing is no longer connected.
    pub fn disconnect(&mut self, worker: u32)
        requires worker { connected (facts_of self.old) worker ≡ true }
        requires holds { (k : ℕ) → holds (facts_of self.old) worker k ≡ false }
        requires on { (k : ℕ) → is_on (facts_of self.old) worker k ≡ false }
        ensures { facts_of self.new ≡ record (facts_of self.old) { threads = put (facts_of self.old).threads worker None } }
    {
        self.store.set_threads(worker, None);
    }

    /// One more finish counted.
    pub fn count_finish(&mut self)
        requires { (facts_of self.old).finishes < 2 ^ 62 }
        ensures { facts_of self.new ≡ record (facts_of self.old) { finishes = (facts_of self.old).finishes + 1 } }
    {
        self.store.count_finish();
    }

    /// How many messages went to the worker.
    pub fn sent(&self, worker: u32) -> u64
        requires { worker ≤ (facts_of self.now).last_worker }
        ensures { result ≡ (facts_of self.now).sent worker }
    {
        self.store.sent(worker)
    }

    /// One more message goes to the worker.
    pub fn count_sent(&mut self, worker: u32)
        requires worker { worker ≤ (facts_of self.old).last_worker }
        requires room { (facts_of self.old).sent worker < 2 ^ 62 }
        ensures { facts_of self.new ≡ record (facts_of self.old) { sent = put (facts_of self.old).sent worker ((facts_of self.old).sent worker + 1) } }
    {
        let place = self.store.sent(worker) + 1;
        self.store.set_sent(worker, place);
    }

    /// The place of the last message that took the key away from the worker, else 0.
    pub fn fence(&self, worker: u32, key: u32) -> u64
        requires worker { worker ≤ (facts_of self.now).last_worker }
        requires key { key < keys (facts_of self.now) }
        ensures { result ≡ (facts_of self.now).fence worker key }
    {
        self.store.fence(worker, key)
    }

    /// The last message that went to the worker took the key away.
    pub fn raise_fence(&mut self, worker: u32, key: u32)
        requires worker { worker ≤ (facts_of self.old).last_worker }
        requires key { key < keys (facts_of self.old) }
        ensures { facts_of self.new ≡ record (facts_of self.old) { fence = put_pair (facts_of self.old).fence worker key ((facts_of self.old).sent worker) } }
    {
        let place = self.store.sent(worker);
        self.store.set_fence(worker, key, place);
    }
}

/// Whether a place is this worker's.
pub fn is_on_worker(worker: u32, place: Option<(u32, u64)>) -> bool
    ensures { result ≡ is_for worker place }
{
    match place {
        Some((other, _)) => other == worker,
        None => false,
    }
}
