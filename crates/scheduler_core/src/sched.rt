//! The scheduler's core.
ghost use Rattle.std.specs.Prelude.{◌≡◌, ◌↔◌, ◌+◌, ◌<◌, ◌≤◌, ◌^◌, false, true, IfOk, IfSome, OnOk, None};
ghost use Rattle.cluster_rules.specs.Sched.{sched_opening, is_above, keys, known, blame, phase};
ghost use Rattle.cluster_rules.specs.SchedTable.{sched_takes};
ghost use Rattle.cluster_rules.specs.SchedStep.{sched_step};
ghost use Rattle.cluster_laws.specs.Settled.{IsSettled};
ghost use Rattle.cluster_laws.specs.Attempts.{AttemptsEndForACause};
ghost use Rattle.scheduler_core.specs.Cores.{facts};
ghost use Rattle.scheduler_core.specs.Killed.{IsKilled};
ghost use Rattle.cluster_rules.specs.Runs.{event_limit};
ghost use Rattle.scheduler_core.specs.Sent.{appended, sent_by, HasGrown};

use crate::event::carry_out;
use crate::phase::phase;
use cluster_msgs::{GraphShape, Outbox, Phase, SchedEvent, Stop};
use cluster_rules::Facts;
use sched_changes::asking::{allowed_of, losses_of};
use sched_changes::{drop_for, is_above, steal_for, takes};
use std::alloc::{AllocError, Global};
use std::marker::Model;
use task_table::TaskTable;

/// A core takes at most this many events.
const EVENT_LIMIT: u64 = 1_099_511_627_776;

/// The scheduler's core, seen as its stored facts, whether it stopped for want of memory, and the count of its events.
#[derive(Drop)]
pub struct Sched {
    alloc: Global,
    table: TaskTable,
    stopped: bool,
    taken: u64,
}

impl Model for Sched {
    ghost use Rattle.scheduler_core.specs.Cores.{Core};

    ghost Value = { Core };

    ghost use Rattle.scheduler_core.specs.Inner.{seen_core, IsCore};

    ghost view = { seen_core };

    ghost invariant = { IsCore };
}

impl Sched {
    /// The scheduler of a cluster that starts, over this graph: nobody has joined and nothing is wanted. It serves so many
    /// clients, and gives a worker at most `saturation` tenths of its threads in tasks without dependencies. A key whose worker
    /// left more than `allowed` times while the key was assigned to it has an error of its own.
    ///
    /// # Errors
    /// Where no memory is left.
    pub fn new(
        alloc: Global,
        shape: GraphShape,
        clients: u32,
        saturation: u32,
        allowed: Option<u32>,
    ) -> Result<Sched, AllocError>
        requires clients { clients ≤ 16 }
        requires saturation { (1 ≤ saturation) × (saturation ≤ 1000) }
        ensures facts { IfOk result (λ sched. facts sched ≡ sched_opening (record { shape = shape; clients = clients; saturation = saturation; allowed = allowed })) }
        ensures runs { IfOk result (λ sched. sched.stopped ≡ false) }
        ensures taken { IfOk result (λ sched. sched.taken ≡ 0) }
    {
        let table = TaskTable::new(alloc, shape, clients, saturation, allowed)?;
        Ok(Sched {
            alloc,
            table,
            stopped: false,
            taken: 0,
        })
    }

    /// Takes an event, also one that no honest peer sends, and appends what is to be sent to the lists of `out`: to
    /// connected workers by ascending worker, to each first what it lost, then its new tasks, then its answer; to clients
    /// by ascending client and key, then the answer to a client; and the number of a worker that joined. A key keeps its
    /// worker and its attempt, unless the event ends the attempt: by its finish, its error, the worker's yes to a steal,
    /// the worker's leaving, or a free-keys to it.
    ///
    /// # Errors
    /// `Memory` where no memory is left: the core has stopped then, and answers so to every later event, and each list of
    /// `out` has a front of the event's own messages behind what it had, maybe none. Else `Spent` exactly where the core
    /// has taken 2^40 events. Else `Refused` exactly where the worker is not connected, the client is not there, a key is
    /// out of range, Balance or Evict has no choice, Replicate names a key that is not held or a worker that holds it, or
    /// Join names no thread or more than 16, or meets the limits of 64
    /// connected workers or of 1,024 numbers. After the latter two all is as before.
    pub fn on(&mut self, event: SchedEvent, out: &mut Outbox) -> Result<(), Stop>
        // The event is taken: the facts, what is to be sent, and what is counted.
        ensures facts { OnOk result (facts self.new ≡ (sched_step (facts self.old) event).facts) }
        ensures out { OnOk result (out.new ≡ appended out.old (sent_by (sched_step (facts self.old) event))) }
        ensures taken { OnOk result (self.new.taken ≡ self.old.taken + 1) }
        ensures runs { OnOk result (self.new.stopped ≡ false) }
        ensures attempts { OnOk result (AttemptsEndForACause (facts self.old) event (facts self.new)) }
        ensures possible { OnOk result ((self.old.stopped ≡ false) × (self.old.taken < event_limit) × (sched_takes (facts self.old) event ≡ true)) }

        // Refused and spent.
        ensures refused { (result ≡ Err Stop.Refused) ↔ ((self.old.stopped ≡ false) × (self.old.taken < event_limit) × (sched_takes (facts self.old) event ≡ false)) }
        ensures refused_core { result ≡ Err Stop.Refused → self.new ≡ self.old }
        ensures refused_out { result ≡ Err Stop.Refused → out.new ≡ out.old }
        ensures spent { (result ≡ Err Stop.Spent) ↔ ((self.old.stopped ≡ false) × (self.old.taken ≡ event_limit)) }
        ensures spent_core { result ≡ Err Stop.Spent → self.new ≡ self.old }
        ensures spent_out { result ≡ Err Stop.Spent → out.new ≡ out.old }

        // Want of memory stops the core for good.
        ensures memory { result ≡ Err Stop.Memory → self.new.stopped ≡ true }
        ensures memory_out { result ≡ Err Stop.Memory → self.old.stopped ≡ false → HasGrown out.old (sent_by (sched_step (facts self.old) event)) out.new }
        ensures stopped { self.old.stopped ≡ true → result ≡ Err Stop.Memory }
        ensures stopped_core { self.old.stopped ≡ true → self.new ≡ self.old }
        ensures stopped_out { self.old.stopped ≡ true → out.new ≡ out.old }
        ensures setting { (facts self.new).setting ≡ (facts self.old).setting }
    {
        if self.stopped {
            return Err(Stop::Memory);
        }
        if self.taken >= EVENT_LIMIT {
            return Err(Stop::Spent);
        }
        self.table.sound();
        let steal = steal_for(&self.table, &event);
        let drop = drop_for(&self.table, &event);
        if !takes(&self.table, &event, steal, drop) {
            return Err(Stop::Refused);
        }
        match carry_out(self.alloc, &mut self.table, &event, steal, drop, out) {
            Ok(()) => {
                self.taken += 1;
                Ok(())
            }
            Err(_) => {
                self.stopped = true;
                Err(Stop::Memory)
            }
        }
    }

    /// Whether the scheduler takes an event, or refuses it. Takes no memory.
    pub fn takes(&self, event: &SchedEvent) -> bool
        ensures { result ≡ sched_takes (facts self.now) event.now }
    {
        self.table.sound();
        let steal = steal_for(&self.table, event);
        let drop = drop_for(&self.table, event);
        takes(&self.table, event, steal, drop)
    }

    /// Until it stops, after every event, honest or not: only known keys have facts, only ready keys are on workers, and a
    /// ready key is on none only where no worker could take it.
    pub fn settled(&self)
        ensures { self.now.stopped ≡ false → IsSettled (facts self.now) }
    {
        let _table = &self.table;
    }

    /// The state of a key: the first that fits. It is `Forgotten` where there is no such key. Takes no memory.
    pub fn phase(&self, key: u32) -> Phase
        ensures { result ≡ phase (facts self.now) key }
    {
        phase(&self.table, key)
    }

    /// Whether the key is in the cone of a wanted key. Takes no memory.
    pub fn known(&self, key: u32) -> bool
        ensures { result ≡ known (facts self.now) key }
    {
        self.table.is_known(key)
    }

    /// The key that an erred key is blamed on, itself or one of its cone, and `None` exactly where the key is not erred.
    /// Takes no memory.
    pub fn blame(&self, key: u32) -> Option<u32>
        ensures { result ≡ blame (facts self.now) key }
    {
        self.table.blame(key)
    }

    /// How often the key's worker left while the key was assigned to it, since the key was last not known. A key that is
    /// not there has lost none. Takes no memory.
    pub fn losses(&self, key: u32) -> u32
        ensures { result ≡ (facts self.now).losses key }
    {
        self.table.sound();
        if key < self.table.keys() {
            losses_of(&self.table, key)
        } else {
            0
        }
    }

    /// How often the key's worker left, where that is more often than is allowed: it is once more then, and the key has an error
    /// of its own. None of every other key, and once the core has stopped. Takes no memory.
    #[tactic(auto, using(crate::proofs::KilledLemmas::killed_is))]
    pub fn killed(&self, key: u32) -> Option<u32>
        ensures killed { IfSome result (IsKilled (facts self.now) key) }
        ensures none { result ≡ None → self.now.stopped ≡ false → is_above (facts self.now).setting.allowed ((facts self.now).losses key) ≡ false }
    {
        if self.stopped {
            return None;
        }
        self.settled();
        let losses = self.losses(key);
        if is_above(self.allowed(), losses) {
            Some(losses)
        } else {
            None
        }
    }

    /// Whether the key has an error of its own: it met a zero divisor, or was killed. Takes no memory.
    pub fn is_bad(&self, key: u32) -> bool
        ensures { result ≡ (facts self.now).bad key }
    {
        self.table.table().is_bad(key)
    }

    /// How often a key's worker may leave while the key is assigned to it, where that is bounded. Takes no memory.
    pub fn allowed(&self) -> Option<u32>
        ensures { result ≡ (facts self.now).setting.allowed }
    {
        allowed_of(&self.table)
    }

    /// How many finishes counted. Takes no memory.
    pub fn finishes(&self) -> u64
        ensures { result ≡ (facts self.now).finishes }
    {
        self.table.table().finishes()
    }

    /// The graph. Takes no memory.
    pub fn shape(&self) -> &GraphShape
        ensures { result.now ≡ (facts self.now).setting.shape }
    {
        self.table.table().shape()
    }
}

impl Facts for Sched {
    ghost use Rattle.sched_facts.specs.Stored.{facts_of};

    ghost facts = { λ s. facts_of s.stored };

    fn sound(&self) {
        self.table.sound();
    }

    fn keys(&self) -> u32 {
        self.table.keys()
    }

    fn needed(&self, key: u32) -> bool {
        self.table.needed(key)
    }

    fn held(&self, key: u32) -> bool {
        self.table.held(key)
    }

    fn erred(&self, key: u32) -> bool {
        self.table.erred(key)
    }

    fn holds(&self, worker: u32, key: u32) -> bool {
        self.table.holds(worker, key)
    }

    fn on(&self, key: u32) -> Option<u32> {
        self.table.on(key)
    }

    fn last_worker(&self) -> u32 {
        self.table.last_worker()
    }

    fn connected(&self, worker: u32) -> bool {
        self.table.connected(worker)
    }

    fn threads(&self, worker: u32) -> u32 {
        self.table.threads(worker)
    }

    fn tasks(&self, worker: u32) -> u32 {
        self.table.tasks(worker)
    }

    fn occupancy(&self, worker: u32) -> u64 {
        self.table.occupancy(worker)
    }

    fn bytes_held(&self, worker: u32) -> u64 {
        self.table.bytes_held(worker)
    }

    fn holders(&self, key: u32) -> u32 {
        self.table.holders(key)
    }

    fn waiters(&self, key: u32) -> u32 {
        self.table.waiters(key)
    }

    fn asked_steal(&self, key: u32) -> bool {
        self.table.asked_steal(key)
    }

    fn full(&self, worker: u32) -> bool {
        self.table.full(worker)
    }
}
