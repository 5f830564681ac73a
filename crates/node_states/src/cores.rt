//! The three cores, as a book has them.
ghost use Rattle.std.specs.Prelude.{◌≡◌, false, true, IfSome};
ghost use Rattle.cluster_msgs.specs.Labels.{ErrorFits};
ghost use Rattle.cluster_msgs.specs.Shape.{deps_of};
ghost use Rattle.scheduler_core.specs.Cores.{facts};
ghost use Rattle.scheduler_core.specs.Killed.{IsKilled};
ghost use Rattle.node_states.specs.Opening.{IsOpening};

use crate::choice::Plan;
use crate::evidence::{ClientCause, SchedCause, SchedOut, WorkerCause, WorkerOut};
use cluster_msgs::{ClientOut, Instructions, Label, Outbox, Stop};
use gather_client::ClientCore;
use node_links::Machine;
use sched_changes::is_above;
use scheduler_core::Sched;
use std::alloc::Global;
use std::marker::{Model, PhantomData};
use worker_core::WorkerCore;

/// The most bytes of the scheduler's history, and of another node's.
pub const SCHEDULER_BYTES: u64 = 1 << 28;

pub const NODE_BYTES: u64 = 1 << 25;

/// The scheduler's core, with what its node goes by. As long as memory doesn't end inside it (`torn`), it goes by the label's graph and by what the
/// label allows, and each key that it counts as bad is faulty, or its worker left more often than is allowed.
#[derive(Drop)]
pub struct SchedulingCore<L: Label> {
    alloc: Global,
    core: Sched,
    plan: Plan,
    torn: bool,
    label: PhantomData<L>,
}

impl<L: Label> Model for SchedulingCore<L> {
    ghost use Rattle.std.specs.Prelude.{◌≡◌, false};
    ghost use Rattle.scheduler_core.specs.Cores.{facts};
    ghost use Rattle.node_states.specs.Fitting.{SchedFits};
    ghost use Rattle.node_states.specs.Machines.{SchedState};

    ghost Value = { SchedState };

    ghost view = { λ c. record { core = c.core; plan = c.plan; torn = c.torn } };

    ghost invariant = { λ c. c.torn ≡ false → SchedFits L.facts (facts c.core) };
}

impl<L: Label> SchedulingCore<L> {
    /// The core of a scheduler that starts, over the label's graph.
    #[tactic(auto, using(crate::proofs::SchedLaw::opening_fits))]
    pub fn new(alloc: Global, core: Sched, plan: Plan) -> Self
        requires opening { IsOpening (facts core) }
        requires graph { L.facts.deps ≡ deps_of (facts core).setting.shape }
        requires allowed { L.facts.allowed ≡ (facts core).setting.allowed }
        ensures { result ≡ record { core = core; plan = plan; torn = false } }
    {
        SchedulingCore {
            alloc,
            core,
            plan,
            torn: false,
            label: PhantomData,
        }
    }

    /// The core.
    pub fn core(&self) -> &Sched
        ensures { result.now ≡ self.now.core }
    {
        &self.core
    }

    /// Whether the key has an error of its own that isn't of its losses, as long as memory didn't end inside the core. Where the run is told, its
    /// operation meets a zero divisor then.
    #[tactic(auto, using(crate::proofs::SchedLaw::at_fault))]
    pub fn is_at_fault(&self, key: u32) -> bool
        ensures { result ≡ true → ErrorFits L.facts key }
    {
        let is_bad = self.core.is_bad(key);
        let is_above = is_above(self.core.allowed(), self.core.losses(key));
        !self.torn & is_bad & !is_above
    }

    /// How often the key's worker left, where the key was killed and memory didn't end inside the core: once more than the label allows.
    pub fn killed(&self, key: u32) -> Option<u32>
        ensures killed { IfSome result (IsKilled (facts self.now.core) key) }
        ensures allowed { IfSome result (λ _. L.facts.allowed ≡ (facts self.now.core).setting.allowed) }
    {
        if self.torn {
            return None;
        }
        self.core.killed(key)
    }

    /// What its node goes by.
    pub fn plan(&self) -> &Plan
        ensures { result.now ≡ self.now.plan }
    {
        &self.plan
    }
}

impl<L: Label> Machine for SchedulingCore<L> {
    type Event = SchedCause<L>;

    type Out = SchedOut<L>;

    ghost use Rattle.std.specs.Prelude.{◌≡◌};
    ghost use Rattle.scheduler_core.specs.Cores.{facts};
    ghost use Rattle.node_states.specs.Fitting.{SchedEventFits};
    ghost use Rattle.node_states.specs.Machines.{SchedSays, SchedBy, scheduler_bytes};

    ghost says = { λ s. SchedSays (facts s.core) };

    ghost by = { λ s e t. (t.plan ≡ s.plan) × SchedBy (facts s.core) e (facts t.core) × SchedEventFits L.facts e };

    ghost taken = { λ s. s.core.taken };

    ghost limited = { λ n. n ≡ scheduler_bytes };

    #[tactic(auto, using(crate::proofs::SchedLaw::sched_fits, crate::proofs::SchedLaw::made_fits))]
    fn take(&mut self, event: SchedCause<L>, out: &mut SchedOut<L>) -> Result<(), Stop> {
        if self.torn {
            drop(event);
            return Err(Stop::Memory);
        }
        cluster_rules::Facts::sound(&self.core);
        let mut made = Outbox::new(self.alloc);
        match self.core.on(event.into_event(), &mut made) {
            Ok(()) => {
                *out = SchedOut::new(made);
                Ok(())
            }
            Err(Stop::Memory) => {
                drop(made);
                self.torn = true;
                Err(Stop::Memory)
            }
            Err(stop) => {
                drop(made);
                Err(stop)
            }
        }
    }
}

/// The core of worker `id`.
#[derive(Drop)]
pub struct WorkingCore<L: Label> {
    alloc: Global,
    pub id: u32,
    pub core: WorkerCore,
    label: PhantomData<L>,
}

impl<L: Label> WorkingCore<L> {
    /// The core of a worker, with its number.
    pub fn new(alloc: Global, id: u32, core: WorkerCore) -> Self
        ensures { (result.id ≡ id) × (result.core ≡ core) }
    {
        WorkingCore {
            alloc,
            id,
            core,
            label: PhantomData,
        }
    }
}

impl<L: Label> Machine for WorkingCore<L> {
    type Event = WorkerCause<L>;

    type Out = WorkerOut<L>;

    ghost use Rattle.std.specs.Prelude.{◌≡◌};
    ghost use Rattle.worker_core.specs.Core.{facts as worker_facts};
    ghost use Rattle.node_states.specs.Fitting.{WorkerEventFits};
    ghost use Rattle.node_states.specs.Machines.{WorkerSays, WorkerBy, node_bytes};

    ghost says = { λ s. WorkerSays s.id (worker_facts s.core) };

    ghost by = { λ s e t. (t.id ≡ s.id) × WorkerBy (worker_facts s.core) e (worker_facts t.core) × WorkerEventFits L.facts e };

    ghost taken = { λ s. s.core.events };

    ghost limited = { λ n. n ≡ node_bytes };

    #[tactic(auto, using(crate::proofs::WorkerLaw::out_fits))]
    fn take(&mut self, event: WorkerCause<L>, out: &mut WorkerOut<L>) -> Result<(), Stop> {
        let mut made = Instructions::new(self.alloc);
        match self.core.on(event.into_event(), &mut made) {
            Ok(()) => {
                *out = WorkerOut::new(made);
                Ok(())
            }
            Err(stop) => {
                drop(made);
                Err(stop)
            }
        }
    }
}

/// The core of client `id`.
#[derive(Drop)]
pub struct GatheringCore<L: Label> {
    pub id: u32,
    pub core: ClientCore,
    label: PhantomData<L>,
}

impl<L: Label> GatheringCore<L> {
    /// The core of a client, with its number.
    pub fn new(id: u32, core: ClientCore) -> Self
        ensures { (result.id ≡ id) × (result.core ≡ core) }
    {
        GatheringCore {
            id,
            core,
            label: PhantomData,
        }
    }
}

impl<L: Label> Machine for GatheringCore<L> {
    type Event = ClientCause<L>;

    type Out = ClientOut;

    ghost use Rattle.std.specs.Prelude.{◌≡◌};
    ghost use Rattle.gather_client.specs.CoreState.{client_facts};
    ghost use Rattle.node_states.specs.Fitting.{ClientEventFits};
    ghost use Rattle.node_states.specs.Machines.{ClientSays, ClientBy, node_bytes};

    ghost says = { λ s. ClientSays s.id (client_facts s.core) };

    ghost by = { λ s e t. (t.id ≡ s.id) × ClientBy (client_facts s.core) e (client_facts t.core) × ClientEventFits L.facts e };

    ghost taken = { λ s. s.core.events };

    ghost limited = { λ n. n ≡ node_bytes };

    fn take(&mut self, event: ClientCause<L>, out: &mut ClientOut) -> Result<(), Stop> {
        self.core.on(event.into_event(), out)
    }
}
