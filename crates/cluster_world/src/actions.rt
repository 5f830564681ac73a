//! The actions of the scheduler and of the nodes: the rows of the table of events, but the one that ends an operation.
ghost use Rattle.std.specs.Prelude.{◌≡◌, ◌<◌, true, Some, OnOk, map};
ghost use Rattle.std.specs.Option.{option_map};
ghost use Rattle.cluster_msgs.specs.declared.events.Event.TheVariants as event;
ghost use Rattle.cluster_rules.specs.Worker.{would_start};
ghost use Rattle.cluster_rules.specs.World.{is_asker, is_connected, open_ask};
ghost use Rattle.cluster_rules.specs.Enabled.{enabled};
ghost use Rattle.cluster_world.specs.Worlds.{cluster, world};
ghost use Rattle.cluster_rules.specs.Runs.{event_limit};
ghost use Rattle.cluster_world.specs.Kept.{IsJoint, IsKept};
ghost use Rattle.cluster_world.specs.Outcomes.{IsMoved, IsUnended};

use crate::state::State;
use crate::turns::without_refusal;
use cluster_msgs::{Asker, ClientEvent, Event, KeyList, SchedEvent, WorkerEvent};
use cluster_nodes::blocks_here;
use cluster_rules::Facts;
use std::alloc::AllocError;

impl<J: Drop, B: Drop, F: Drop> State<J, B, F> {
    /// Carries an enabled event out that ends no operation.
    pub fn act(&mut self, e: &Event) -> Result<(), AllocError>
        requires joint { IsJoint self.old }
        requires room { self.old.events < event_limit }
        requires carried { map (λ d. d.parcel) (cluster self.old).blocks.carried ≡ (world self.old).answers }
        requires possible { enabled (world self.old) e.now ≡ true }
        requires unended { IsUnended e.now }
        ensures moved { OnOk result (IsMoved self.old self.new e.now) }
        ensures kept { IsKept self.old self.new }
    {
        match e {
            Event::Want { client, keys } => self.want(*client, keys),
            Event::Release { client, keys } => self.release(*client, keys),
            Event::Join { threads } => self.join(*threads),
            Event::Lose { worker } => {
                self.lose(*worker);
                Ok(())
            }
            Event::SeeLoss { worker } => self.see_loss(*worker),
            Event::Suspect { worker } => self.suspect(*worker),
            Event::DeliverDown { worker } => self.deliver_down(*worker),
            Event::DeliverUp { worker } => self.deliver_up(*worker),
            Event::DeliverToClient { client } => self.deliver_to_client(*client),
            Event::DeliverFromClient { client } => self.deliver_from_client(*client),
            Event::Start { worker } => self.start(*worker),
            Event::Finish { worker: _, key: _ } => Ok(()),
            Event::SendGather { asker, peer } => self.send_gather(*asker, *peer),
            Event::ServeGather { peer, asker, ask } => self.serve(*peer, *asker, *ask),
            Event::ArriveGather { asker, peer, ask } => self.arrive(*asker, *peer, *ask),
            Event::FailGather { asker, peer } => self.fail_gather(*asker, *peer),
            Event::Balance => self.balance(),
            Event::Evict => self.evict(),
            Event::Replicate { key, worker } => self.replicate(*key, *worker),
            Event::Spill { worker, key } => {
                self.spill(*worker, *key);
                Ok(())
            }
            Event::LoseSpilled { worker, key } => self.lose_spilled(*worker, *key),
        }
    }

    /// A client wants these keys.
    pub fn want(&mut self, client: u32, keys: &KeyList) -> Result<(), AllocError>
        requires joint { IsJoint self.old }
        requires room { self.old.events < event_limit }
        requires possible { enabled (world self.old) (event.Want client keys.now) ≡ true }
        ensures moved { OnOk result (IsMoved self.old self.new (event.Want client keys.now)) }
        ensures kept { IsKept self.old self.new }
    {
        let keys = keys.copy()?;
        self.client_turn(client, ClientEvent::Want(keys))
    }

    /// A client lets these keys go.
    pub fn release(&mut self, client: u32, keys: &KeyList) -> Result<(), AllocError>
        requires joint { IsJoint self.old }
        requires room { self.old.events < event_limit }
        requires possible { enabled (world self.old) (event.Release client keys.now) ≡ true }
        ensures moved { OnOk result (IsMoved self.old self.new (event.Release client keys.now)) }
        ensures kept { IsKept self.old self.new }
    {
        let keys = keys.copy()?;
        self.client_turn(client, ClientEvent::Release(keys))
    }

    /// A worker joins.
    pub fn join(&mut self, threads: u32) -> Result<(), AllocError>
        requires joint { IsJoint self.old }
        requires room { self.old.events < event_limit }
        requires possible { enabled (world self.old) (event.Join threads) ≡ true }
        ensures moved { OnOk result (IsMoved self.old self.new (event.Join threads)) }
        ensures kept { IsKept self.old self.new }
    {
        self.nodes.join(threads)?;
        self.scheduler_turn(SchedEvent::Join { threads })
    }

    /// A worker dies.
    pub fn lose(&mut self, worker: u32)
        requires joint { IsJoint self.old }
        requires possible { enabled (world self.old) (event.Lose worker) ≡ true }
        ensures moved { IsMoved self.old self.new (event.Lose worker) }
        ensures kept { IsKept self.old self.new }
    {
        self.nodes.lose(worker);
    }

    /// The scheduler sees that a worker is dead.
    pub fn see_loss(&mut self, worker: u32) -> Result<(), AllocError>
        requires joint { IsJoint self.old }
        requires room { self.old.events < event_limit }
        requires possible { enabled (world self.old) (event.SeeLoss worker) ≡ true }
        ensures moved { OnOk result (IsMoved self.old self.new (event.SeeLoss worker)) }
        ensures kept { IsKept self.old self.new }
    {
        self.sched.sound();
        self.scheduler_turn(SchedEvent::Leave { w: worker })?;
        self.nodes.cut_off(worker);
        Ok(())
    }

    /// The scheduler takes a worker for lost.
    pub fn suspect(&mut self, worker: u32) -> Result<(), AllocError>
        requires joint { IsJoint self.old }
        requires room { self.old.events < event_limit }
        requires possible { enabled (world self.old) (event.Suspect worker) ≡ true }
        ensures moved { OnOk result (IsMoved self.old self.new (event.Suspect worker)) }
        ensures kept { IsKept self.old self.new }
    {
        self.scheduler_turn(SchedEvent::Leave { w: worker })
    }

    /// A worker takes the first message of the scheduler.
    pub fn deliver_down(&mut self, worker: u32) -> Result<(), AllocError>
        requires joint { IsJoint self.old }
        requires room { self.old.events < event_limit }
        requires possible { enabled (world self.old) (event.DeliverDown worker) ≡ true }
        ensures moved { OnOk result (IsMoved self.old self.new (event.DeliverDown worker)) }
        ensures kept { IsKept self.old self.new }
    {
        without_refusal(self.nodes.deliver_down(worker))
    }

    /// The scheduler takes a worker's first message; one of a worker that isn't connected is dropped.
    pub fn deliver_up(&mut self, worker: u32) -> Result<(), AllocError>
        requires joint { IsJoint self.old }
        requires room { self.old.events < event_limit }
        requires possible { enabled (world self.old) (event.DeliverUp worker) ≡ true }
        ensures moved { OnOk result (IsMoved self.old self.new (event.DeliverUp worker)) }
        ensures kept { IsKept self.old self.new }
    {
        if self.is_connected(worker) {
            self.hear(worker)
        } else {
            let _dropped = self.nodes.take_up(worker);
            Ok(())
        }
    }

    /// The scheduler takes the first message of a worker that is connected.
    fn hear(&mut self, worker: u32) -> Result<(), AllocError>
        requires joint { IsJoint self.old }
        requires room { self.old.events < event_limit }
        requires possible { enabled (world self.old) (event.DeliverUp worker) ≡ true }
        requires connected { is_connected (world self.old) worker ≡ true }
        ensures moved { OnOk result (IsMoved self.old self.new (event.DeliverUp worker)) }
        ensures kept { IsKept self.old self.new }
    {
        match self.nodes.take_up(worker) {
            Some(up) => self.scheduler_turn(SchedEvent::FromWorker { w: worker, up }),
            None => Ok(()),
        }
    }

    /// A client takes the first message of the scheduler.
    pub fn deliver_to_client(&mut self, client: u32) -> Result<(), AllocError>
        requires joint { IsJoint self.old }
        requires room { self.old.events < event_limit }
        requires possible { enabled (world self.old) (event.DeliverToClient client) ≡ true }
        ensures moved { OnOk result (IsMoved self.old self.new (event.DeliverToClient client)) }
        ensures kept { IsKept self.old self.new }
    {
        without_refusal(self.nodes.deliver_to_client(client))
    }

    /// The scheduler takes a client's first message.
    pub fn deliver_from_client(&mut self, client: u32) -> Result<(), AllocError>
        requires joint { IsJoint self.old }
        requires room { self.old.events < event_limit }
        requires possible { enabled (world self.old) (event.DeliverFromClient client) ≡ true }
        ensures moved { OnOk result (IsMoved self.old self.new (event.DeliverFromClient client)) }
        ensures kept { IsKept self.old self.new }
    {
        match self.nodes.take_from_client(client) {
            Some(msg) => self.scheduler_turn(SchedEvent::FromClient { c: client, msg }),
            None => Ok(()),
        }
    }

    /// A worker starts its least ready key, with the blocks of the key's dependencies.
    pub fn start(&mut self, worker: u32) -> Result<(), AllocError>
        requires joint { IsJoint self.old }
        requires room { self.old.events < event_limit }
        requires possible { enabled (world self.old) (event.Start worker) ≡ true }
        ensures moved { OnOk result (IsMoved self.old self.new (event.Start worker)) }
        ensures kept { IsKept self.old self.new }
    {
        match self.would_start(worker) {
            Some(key) => self.start_key(worker, key),
            None => Ok(()),
        }
    }

    /// The same of the key.
    fn start_key(&mut self, worker: u32, key: u32) -> Result<(), AllocError>
        requires joint { IsJoint self.old }
        requires room { self.old.events < event_limit }
        requires alive { (world self.old).alive worker ≡ true }
        requires key { would_start ((world self.old).workers worker) ≡ Some key }
        ensures moved { OnOk result (IsMoved self.old self.new (event.Start worker)) }
        ensures kept { IsKept self.old self.new }
    {
        let deps = self.nodes.shape.deps(key);
        let inputs = blocks_here(self.alloc, &self.nodes.held, worker, deps)?;
        self.worker_turn(worker, WorkerEvent::Start)?;
        self.nodes.inputs.put(worker, key, inputs);
        Ok(())
    }

    /// An asker asks a peer for keys.
    pub fn send_gather(&mut self, asker: Asker, peer: u32) -> Result<(), AllocError>
        requires joint { IsJoint self.old }
        requires room { self.old.events < event_limit }
        requires possible { enabled (world self.old) (event.SendGather asker peer) ≡ true }
        ensures moved { OnOk result (IsMoved self.old self.new (event.SendGather asker peer)) }
        ensures kept { IsKept self.old self.new }
    {
        match asker {
            Asker::Worker(worker) => self.worker_turn(worker, WorkerEvent::Ask { peer }),
            Asker::Client(client) => self.client_turn(client, ClientEvent::Ask { peer }),
        }
    }

    /// A peer serves a request.
    pub fn serve(&mut self, peer: u32, asker: Asker, ask: u64) -> Result<(), AllocError>
        requires joint { IsJoint self.old }
        requires possible { enabled (world self.old) (event.ServeGather peer asker ask) ≡ true }
        ensures moved { OnOk result (IsMoved self.old self.new (event.ServeGather peer asker ask)) }
        ensures kept { IsKept self.old self.new }
    {
        self.nodes.serve(peer, asker, ask)
    }

    /// An asker takes an answer.
    pub fn arrive(&mut self, asker: Asker, peer: u32, ask: u64) -> Result<(), AllocError>
        requires joint { IsJoint self.old }
        requires room { self.old.events < event_limit }
        requires possible { enabled (world self.old) (event.ArriveGather asker peer ask) ≡ true }
        requires carried { map (λ d. d.parcel) (cluster self.old).blocks.carried ≡ (world self.old).answers }
        ensures moved { OnOk result (IsMoved self.old self.new (event.ArriveGather asker peer ask)) }
        ensures kept { IsKept self.old self.new }
    {
        without_refusal(self.nodes.arrive(asker, peer, ask))
    }

    /// An asker's open ask to a peer fails; what is under way for it stays there.
    pub fn fail_gather(&mut self, asker: Asker, peer: u32) -> Result<(), AllocError>
        requires joint { IsJoint self.old }
        requires room { self.old.events < event_limit }
        requires possible { enabled (world self.old) (event.FailGather asker peer) ≡ true }
        ensures moved { OnOk result (IsMoved self.old self.new (event.FailGather asker peer)) }
        ensures kept { IsKept self.old self.new }
    {
        match self.ask_number(asker, peer) {
            Some(ask) => self.fail_ask(asker, peer, ask),
            None => Ok(()),
        }
    }

    /// The same of the ask with this number.
    fn fail_ask(&mut self, asker: Asker, peer: u32, ask: u64) -> Result<(), AllocError>
        requires joint { IsJoint self.old }
        requires room { self.old.events < event_limit }
        requires there { is_asker (world self.old) asker ≡ true }
        requires ask { option_map (λ a. a.number) (open_ask (world self.old) asker peer) ≡ Some ask }
        ensures moved { OnOk result (IsMoved self.old self.new (event.FailGather asker peer)) }
        ensures kept { IsKept self.old self.new }
    {
        match asker {
            Asker::Worker(worker) => {
                self.worker_turn(worker, WorkerEvent::GatherFailed { peer, ask })
            }
            Asker::Client(client) => {
                self.client_turn(client, ClientEvent::GatherFailed { peer, ask })
            }
        }
    }

    /// A key that is to be stolen is asked back.
    pub fn balance(&mut self) -> Result<(), AllocError>
        requires joint { IsJoint self.old }
        requires room { self.old.events < event_limit }
        requires possible { enabled (world self.old) event.Balance ≡ true }
        ensures moved { OnOk result (IsMoved self.old self.new event.Balance) }
        ensures kept { IsKept self.old self.new }
    {
        self.scheduler_turn(SchedEvent::Balance)
    }

    /// A copy that isn't needed is to go.
    pub fn evict(&mut self) -> Result<(), AllocError>
        requires joint { IsJoint self.old }
        requires room { self.old.events < event_limit }
        requires possible { enabled (world self.old) event.Evict ≡ true }
        ensures moved { OnOk result (IsMoved self.old self.new event.Evict) }
        ensures kept { IsKept self.old self.new }
    {
        self.scheduler_turn(SchedEvent::Evict)
    }

    /// A worker is to have a copy of a key.
    pub fn replicate(&mut self, key: u32, worker: u32) -> Result<(), AllocError>
        requires joint { IsJoint self.old }
        requires room { self.old.events < event_limit }
        requires possible { enabled (world self.old) (event.Replicate key worker) ≡ true }
        ensures moved { OnOk result (IsMoved self.old self.new (event.Replicate key worker)) }
        ensures kept { IsKept self.old self.new }
    {
        self.scheduler_turn(SchedEvent::Replicate { key, w: worker })
    }

    /// A worker's key is spilled.
    pub fn spill(&mut self, worker: u32, key: u32)
        requires joint { IsJoint self.old }
        requires possible { enabled (world self.old) (event.Spill worker key) ≡ true }
        ensures moved { IsMoved self.old self.new (event.Spill worker key) }
        ensures kept { IsKept self.old self.new }
    {
        self.nodes.spill(worker, key);
    }

    /// A worker's spilled block is lost.
    pub fn lose_spilled(&mut self, worker: u32, key: u32) -> Result<(), AllocError>
        requires joint { IsJoint self.old }
        requires room { self.old.events < event_limit }
        requires possible { enabled (world self.old) (event.LoseSpilled worker key) ≡ true }
        ensures moved { OnOk result (IsMoved self.old self.new (event.LoseSpilled worker key)) }
        ensures kept { IsKept self.old self.new }
    {
        self.worker_turn(worker, WorkerEvent::DataLost { key })
    }
}
