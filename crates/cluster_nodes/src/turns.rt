//! One worker or one client takes an event.
ghost use Rattle.std.specs.Prelude.{◌≡◌, ◌<◌, ◌≤◌, ◌+◌, ℕ, Err, true, false, length, OnOk};
ghost use Rattle.cluster_rules.specs.Runs.{event_limit};
ghost use Rattle.cluster_rules.specs.Sched.{Facts};
ghost use Rattle.cluster_rules.specs.WorkerStep.{worker_takes};
ghost use Rattle.cluster_rules.specs.Client.{client_takes};
ghost use Rattle.fact_rows.specs.Rows.{read};
ghost use Rattle.cluster_nodes.specs.Nodes.{world_of, cluster_of};
ghost use Rattle.cluster_nodes.specs.Turns.{among, worker_turned, client_turned};
ghost use Rattle.cluster_nodes.specs.Kept.{IsNodes, HasSameNodes, TookFew};

use crate::cores::{client_on, unspill, worker_on};
use crate::gone::{lost_by, released_by};
use crate::nodes::Nodes;
use crate::shelve::shelve;
use cluster_msgs::{ClientEvent, ClientOut, Instructions, Stop, WorkerEvent};
use message_queues::{post_client, post_worker};
use std::sync::Arc;

impl<B: Drop> Nodes<B> {
    /// A worker takes an event that brings it these blocks: its messages join its link, its requests are under way, and of
    /// the blocks it keeps what it then counts.
    ///
    /// # Errors
    /// `Refused` only where the worker doesn't take the event, `Spent` only where a core has taken 2^40 events, and `Memory`
    /// where no memory is left. What the nodes are then isn't said.
    pub fn worker_turn(
        &mut self,
        worker: u32,
        event: WorkerEvent,
        brought: Vec<(u32, Arc<B>)>,
    ) -> Result<(), Stop>
        requires nodes { IsNodes self.old }
        requires worker { worker < length self.old.workers.items }
        requires alive { read self.old.alive false worker ≡ true }
        ensures cluster { OnOk result ((f : Facts) → cluster_of f self.new ≡ worker_turned (cluster_of f self.old) worker event (among brought.items)) }
        ensures possible { OnOk result ((f : Facts) → worker_takes ((world_of f self.old).workers worker) event ≡ true) }
        ensures nodes { OnOk result (IsNodes self.new) }
        ensures same { OnOk result (HasSameNodes self.old self.new) }
        ensures few { OnOk result ((n : ℕ) → TookFew n self.old → TookFew (n + 1) self.new) }
        ensures refused { result ≡ Err Stop.Refused → (f : Facts) → worker_takes ((world_of f self.old).workers worker) event ≡ false }
        ensures spent { result ≡ Err Stop.Spent → (n : ℕ) → TookFew n self.old → event_limit ≤ n }
    {
        let mut out = Instructions::new(self.alloc);
        let gone = lost_by(self.alloc, &event)?;
        worker_on(&mut self.workers, worker, event, &mut out)?;
        let core = &self.workers[worker as usize];
        core.inside();
        let keys = self.shape.keys();
        let lost = gone.as_slice();
        unspill(&mut self.spilled, worker, core, keys, lost, self.strays);
        shelve(&mut self.held, worker, core, lost, brought);
        post_worker(self.alloc, worker, out, &mut self.up, &mut self.requests)?;
        Ok(())
    }

    /// A client takes an event that brings it these blocks: its messages join its link, its requests are under way, and of
    /// the blocks it keeps what it then has got.
    ///
    /// # Errors
    /// `Refused` only where the client doesn't take the event, `Spent` only where a core has taken 2^40 events, and `Memory`
    /// where no memory is left. What the nodes are then isn't said.
    pub fn client_turn(
        &mut self,
        client: u32,
        event: ClientEvent,
        brought: Vec<(u32, Arc<B>)>,
    ) -> Result<(), Stop>
        requires nodes { IsNodes self.old }
        requires client { client < length self.old.clients.items }
        ensures cluster { OnOk result ((f : Facts) → cluster_of f self.new ≡ client_turned (cluster_of f self.old) client event (among brought.items)) }
        ensures possible { OnOk result ((f : Facts) → client_takes ((world_of f self.old).clients client) event ≡ true) }
        ensures nodes { OnOk result (IsNodes self.new) }
        ensures same { OnOk result (HasSameNodes self.old self.new) }
        ensures few { OnOk result ((n : ℕ) → TookFew n self.old → TookFew (n + 1) self.new) }
        ensures refused { result ≡ Err Stop.Refused → (f : Facts) → client_takes ((world_of f self.old).clients client) event ≡ false }
        ensures spent { result ≡ Err Stop.Spent → (n : ℕ) → TookFew n self.old → event_limit ≤ n }
    {
        let mut out = ClientOut::new(self.alloc);
        let gone = released_by(self.alloc, &event)?;
        client_on(&mut self.clients, client, event, &mut out)?;
        let core = &self.clients[client as usize];
        core.inside();
        shelve(&mut self.got, client, core, gone.as_slice(), brought);
        post_client(
            self.alloc,
            client,
            out,
            &mut self.from_client,
            &mut self.requests,
        )?;
        Ok(())
    }
}
