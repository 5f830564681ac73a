//! What the scheduler, a worker or a client does with one event that it is handed.
ghost use Rattle.std.specs.Prelude.{◌≡◌, ◌≢◌, ◌+◌, ◌<◌, true, length, is_ok, Err, OnOk};
ghost use Rattle.cluster_rules.specs.Client.{client_takes};
ghost use Rattle.cluster_rules.specs.SchedStep.{sched_step};
ghost use Rattle.cluster_rules.specs.SchedTable.{sched_takes};
ghost use Rattle.cluster_rules.specs.WorkerStep.{worker_takes};
ghost use Rattle.cluster_rules.specs.World.{is_client};
ghost use Rattle.cluster_rules.specs.WorldStep.{at_scheduler};
ghost use Rattle.cluster_nodes.specs.Kept.{IsNodes};
ghost use Rattle.cluster_nodes.specs.Turns.{in_world, nothing, worker_turned, client_turned};
ghost use Rattle.scheduler_core.specs.Cores.{facts};
ghost use Rattle.cluster_world.specs.Worlds.{cluster, world, setting};
ghost use Rattle.cluster_rules.specs.Runs.{event_limit};
ghost use Rattle.cluster_world.specs.Kept.{IsJoint, IsKept};
ghost use Rattle.cluster_world.specs.Outcomes.{IsTurned};

use crate::state::State;
use cluster_msgs::{ClientEvent, Outbox, SchedEvent, Stop, WorkerEvent};
use message_queues::{post_down, post_to_clients};
use scheduler_core::Sched;
use std::alloc::AllocError;

/// The answer of a core that has no cause to refuse its event: it took it, or memory ran out.
pub fn without_refusal(answer: Result<(), Stop>) -> Result<(), AllocError>
    requires refused { answer ≢ Err Stop.Refused }
    requires spent { answer ≢ Err Stop.Spent }
    ensures { is_ok result ≡ is_ok answer }
{
    match answer {
        Ok(()) => Ok(()),
        Err(Stop::Memory) => Err(AllocError),
        Err(Stop::Refused) => unreachable!(),
        Err(Stop::Spent) => unreachable!(),
    }
}

impl<J: Drop, B: Drop, F: Drop> State<J, B, F> {
    /// The scheduler takes an event that it doesn't refuse: its messages join their links. The nodes are those that it counts
    /// afterwards.
    ///
    /// # Errors
    /// Where no memory is left; what the world is then isn't said.
    pub fn scheduler_turn(&mut self, event: SchedEvent) -> Result<(), AllocError>
        requires nodes { IsNodes self.old.nodes }
        requires workers { length self.old.nodes.workers.items ≡ (sched_step (facts self.old.sched) event).facts.last_worker + 1 }
        requires clients { length self.old.nodes.clients.items ≡ (setting self.old).clients + 1 }
        requires takes { sched_takes (facts self.old.sched) event ≡ true }
        requires room { self.old.sched.taken < event_limit }
        ensures turned { OnOk result (IsTurned self.old self.new (in_world (cluster self.old) (at_scheduler (world self.old) event))) }
        ensures kept { IsKept self.old self.new }
    {
        let mut out = Outbox::new(self.alloc);
        without_refusal(Sched::on(&mut self.sched, event, &mut out))?;
        let Outbox {
            down,
            clients,
            joined: _joined,
        } = out;
        post_down(down, &mut self.nodes.down)?;
        post_to_clients(clients, &mut self.nodes.to_client)?;
        Ok(())
    }

    /// A worker that is alive takes an event that brings it no block, and that it doesn't refuse.
    ///
    /// # Errors
    /// Where no memory is left; what the world is then isn't said.
    pub fn worker_turn(&mut self, worker: u32, event: WorkerEvent) -> Result<(), AllocError>
        requires joint { IsJoint self.old }
        requires alive { (world self.old).alive worker ≡ true }
        requires takes { worker_takes ((world self.old).workers worker) event ≡ true }
        requires room { self.old.events < event_limit }
        ensures turned { OnOk result (IsTurned self.old self.new (worker_turned (cluster self.old) worker event nothing)) }
        ensures kept { IsKept self.old self.new }
    {
        let none = Vec::new(self.alloc);
        without_refusal(self.nodes.worker_turn(worker, event, none))
    }

    /// A client that is there takes an event that brings it no block, and that it doesn't refuse.
    ///
    /// # Errors
    /// Where no memory is left; what the world is then isn't said.
    pub fn client_turn(&mut self, client: u32, event: ClientEvent) -> Result<(), AllocError>
        requires joint { IsJoint self.old }
        requires there { is_client (world self.old) client ≡ true }
        requires takes { client_takes ((world self.old).clients client) event ≡ true }
        requires room { self.old.events < event_limit }
        ensures turned { OnOk result (IsTurned self.old self.new (client_turned (cluster self.old) client event nothing)) }
        ensures kept { IsKept self.old self.new }
    {
        let none = Vec::new(self.alloc);
        without_refusal(self.nodes.client_turn(client, event, none))
    }
}
