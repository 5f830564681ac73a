//! The world of a whole cluster.
ghost use Rattle.std.specs.Prelude.{List, [], ◌∷◌, ◌++◌, ◌≡◌, ◌≢◌, ◌↔◌, ◌+◌, ◌-◌, ◌≤◌, ◌^◌, Bool, true, false, length, min, slice_get, IfOk, OnOk, Err, Some, None, is_some, IfSome};
ghost use Rattle.std.specs.Option.{option_copied};
ghost use Rattle.cluster_msgs.specs.Shape.{deps_of};
ghost use Rattle.cluster_msgs.specs.Values.{val};
ghost use Rattle.cluster_rules.specs.Client.{done};
ghost use Rattle.cluster_rules.specs.World.{under_way, worker_count};
ghost use Rattle.cluster_rules.specs.WorldStep.{world_step};
ghost use Rattle.cluster_rules.specs.Enabled.{enabled, progress, message};
ghost use Rattle.cluster_rules.specs.Runs.{legal, reached, Safe, WasKilled, event_limit};
ghost use Rattle.cluster_msgs.specs.declared.events.Event.{Event as EventFact};
ghost use Rattle.cluster_laws.specs.Blocks.{setting_of, opening_cluster};
ghost use Rattle.cluster_laws.specs.Moves.{world_after, cluster_step};
ghost use Rattle.cluster_world.specs.Worlds.{cluster, world, setting, running, IsReady, IsMade, IsMadeBy, IsTelling};
ghost use Rattle.safety_laws.specs.Attempts.{AttemptsEnd};
ghost use Rattle.cluster_world.specs.Safe.{IsSafeWorld, LosesFew};
ghost use Rattle.cluster_world.specs.Steps.{CountsStep, IfBlamed};

use crate::errors::StepError;
use crate::progress::{count_progress, nth_progress};
use crate::state::{Course, State};
use crate::step::take;
use cluster_msgs::{End, Event, GraphShape, JobSpec, Message};
use cluster_rules::Facts;
use safety_laws::schedules_are_safe;
use std::alloc::{AllocError, Global};
use std::marker::Model;

/// The scheduler, the workers and the clients of a cluster, with all that is under way between them, over a job and its
/// feed. Each event is one action of one of them.
///
/// Contracts see its state, of which `world` makes the world of the definitions, and `cluster` that world with its blocks.
#[derive(Drop)]
pub struct World<J: JobSpec> {
    state: State<J, J::Block, J::Feed>,
}

impl<J: JobSpec> Model for World<J> {
    ghost use Rattle.cluster_world.specs.declared.state.State.{State};

    ghost Value = { State J J.Block J.Feed };

    ghost view = { λ w. w.state };

    ghost use Rattle.cluster_world.specs.Kept.{IsWorld};

    ghost invariant = { λ w. IsWorld J.graph J.key_dims J.block_dims J.operation J.feed_fits J.feed_tells w.state };
}

impl<J: JobSpec> World<J> {
    /// A world in which no worker has joined and no client wants anything.
    ///
    /// # Errors
    /// Where no memory is left.
    pub fn new(
        alloc: Global,
        job: J,
        feed: J::Feed,
        clients: u32,
        saturation: u32,
        allowed: Option<u32>,
    ) -> Result<World<J>, AllocError>
        requires clients { clients ≤ 16 }
        requires saturation { (1 ≤ saturation) × (saturation ≤ 1000) }
        requires feed { J.feed_fits job feed }
        ensures opening { IfOk result (λ w. cluster w ≡ opening_cluster (setting_of (J.graph job) clients saturation allowed) (J.operation job)) }
        ensures ready { IfOk result (λ w. IsReady w) }
        ensures events { IfOk result (λ w. w.events ≡ 0) }
        ensures job { IfOk result (λ w. w.job ≡ job) }
        ensures feed { IfOk result (λ w. w.feed ≡ feed) }
        ensures made { IfOk result (λ w. IsMadeBy J.operation [] w) }
    {
        let graph = job.shape();
        graph.sound();
        let shape = graph.copy()?;
        let state = State::begin(alloc, job, feed, shape, clients, saturation, allowed)?;
        Ok(World { state })
    }

    /// Takes an event: the world goes on exactly as the definition says, and so do the blocks. A task's operation is run
    /// when it finishes, on the blocks that its worker had when it started.
    ///
    /// Where the feed tells what it holds, the outcome of each operation is that of the definition: the world goes to
    /// `world_step` of it by the job, and what events made it, these and then this one make the next. The feed tells after
    /// the call exactly where it did before.
    ///
    /// A key keeps its worker and its attempt, unless the event ends the attempt: the scheduler counts its finish, its error or
    /// the worker's yes to a steal, takes that the worker leaves, or sends the worker a free-keys with the key.
    ///
    /// # Errors
    /// `OutOfMemory` where no memory is left, and then at every later call. `Stopped` exactly where an earlier step
    /// answered `Feed`. Else `Spent` exactly where 2^40 events were taken. Else `NotEnabled` exactly where the event isn't
    /// enabled. After the latter three all is as before. `Feed` only where the feed's count of faults rose in this call: the
    /// world and its blocks stay.
    pub fn step(&mut self, e: &Event) -> Result<(), StepError>
        // The event is taken.
        ensures ready { OnOk result (IsReady self.old) }
        ensures possible { OnOk result (enabled (world self.old) e.now ≡ true) }
        ensures world { OnOk result ((met : Bool) × (world self.new ≡ world_after met (world self.old) e.now)) }
        ensures cluster { OnOk result (J.feed_tells self.old.job self.old.feed → cluster self.new ≡ cluster_step (J.operation self.old.job) (cluster self.old) e.now) }
        ensures attempts { OnOk result (AttemptsEnd (world self.old) e.now (world self.new)) }
        ensures goes { OnOk result (self.new.course ≡ self.old.course) }
        ensures events { OnOk result (self.new.events ≡ self.old.events + 1) }
        ensures by_values { OnOk result (J.feed_tells self.old.job self.old.feed →
            world self.new ≡ world_step (running J.operation self.old) (world self.old) e.now) }
        ensures made { OnOk result (J.feed_tells self.old.job self.old.feed → (es : List EventFact) → IsMadeBy J.operation es self.old →
            IsMadeBy J.operation (es ++ e.now ∷ []) self.new) }

        // What stays.
        ensures job { self.new.job ≡ self.old.job }
        ensures setting { setting self.new ≡ setting self.old }
        ensures tells { J.feed_tells self.new.job self.new.feed ↔ J.feed_tells self.old.job self.old.feed }
        ensures faults { CountsStep result (J.fault_count self.old.feed) (J.fault_count self.new.feed) }

        // What is refused.
        ensures not_enabled { (result ≡ Err StepError.NotEnabled) ↔ (IsReady self.old × (enabled (world self.old) e.now ≡ false)) }
        ensures not_enabled_stays { result ≡ Err StepError.NotEnabled → self.new ≡ self.old }
        ensures spent { (result ≡ Err StepError.Spent) ↔ ((self.old.course ≡ Course.Going) × (self.old.events ≡ event_limit)) }
        ensures spent_stays { result ≡ Err StepError.Spent → self.new ≡ self.old }
        ensures stopped { (result ≡ Err StepError.Stopped) ↔ (self.old.course ≡ Course.Fed) }
        ensures stopped_stays { result ≡ Err StepError.Stopped → self.new ≡ self.old }
        ensures feed { result ≡ Err StepError.Feed → self.new.course ≡ Course.Fed }
        ensures feed_stays { result ≡ Err StepError.Feed → cluster self.new ≡ cluster self.old }
        ensures feed_made { result ≡ Err StepError.Feed → (es : List EventFact) → IsMadeBy J.operation es self.old → IsMadeBy J.operation es self.new }
        ensures memory { result ≡ Err StepError.OutOfMemory → self.new.course ≡ Course.Starved }
        ensures starved { self.old.course ≡ Course.Starved → result ≡ Err StepError.OutOfMemory }
    {
        take(&mut self.state, e)
    }

    /// Whether the event is enabled; none is once memory ran out. Takes no memory.
    pub fn enabled(&self, e: &Event) -> bool
        ensures enabled { self.now.course ≢ Course.Starved → result ≡ enabled (world self.now) e.now }
        ensures starved { self.now.course ≡ Course.Starved → result ≡ false }
    {
        match self.state.course {
            Course::Starved => false,
            _ => self.state.enabled(e),
        }
    }

    /// How many messages, requests and answers are under way, and pairs of a key and a holder known to the workers that are
    /// alive and to the clients, or 2^64 - 1 where it is more; 0 once memory ran out. Takes no memory.
    pub fn under_way(&self) -> u64
        ensures count { self.now.course ≢ Course.Starved → result ≡ min (under_way (world self.now)) (2 ^ 64 - 1) }
        ensures starved { self.now.course ≡ Course.Starved → result ≡ 0 }
    {
        match self.state.course {
            Course::Starved => 0,
            _ => self.state.under_way(),
        }
    }

    /// The block that a client has got of a key: none exactly where the client hasn't got it. It has the key's lengths; where the
    /// feed tells what it holds, and in each world that legal events made, it is the key's value. Takes no memory.
    pub fn got(&self, client: u32, key: u32) -> Option<&J::Block>
        ensures block { option_copied result ≡ (cluster self.now).blocks.got client key }
        ensures present { self.now.course ≢ Course.Starved → is_some result ≡ ((world self.now).clients client).got key }
        ensures dims { self.now.course ≢ Course.Starved → IfSome result (λ b. J.block_dims b.now ≡ J.key_dims self.now.job key) }
        ensures value { IsTelling J.feed_tells self.now →
            IfSome result (λ b. val (deps_of (J.graph self.now.job)) (J.operation self.now.job) key ≡ Some b.now) }
        ensures made { IsMade J.operation self.now →
            IfSome result (λ b. val (deps_of (J.graph self.now.job)) (J.operation self.now.job) key ≡ Some b.now) }
    {
        self.state.block(client, key)
    }

    /// Schedule safety: it holds of every legal list of events of the world's job and setting. So a world that legal events
    /// made is safe, as each is whose feed tells what it holds: the scheduler has facts of known keys alone and only needed
    /// ones are held, a worker with no message under way agrees with it, and while a client waits and a worker is there,
    /// some progress event is enabled. And no key has lost its worker more often than once more than is allowed. It does
    /// nothing.
    pub fn is_safe(&self)
        ensures events { (es : List EventFact) → legal (running J.operation self.now) es → Safe (running J.operation self.now) es }
        ensures losses { (es : List EventFact) → legal (running J.operation self.now) es → LosesFew (reached (running J.operation self.now) es).sched }
        ensures made { IsTelling J.feed_tells self.now → IsMade J.operation self.now }
        ensures world { IsMade J.operation self.now → IsSafeWorld (world self.now) }
    {
        self.state.sched.sound();
        schedules_are_safe();
    }

    /// How a key that a client waited for ended, none where it didn't. In each world that legal events made, as each is whose
    /// feed tells what it holds, a key that erred is blamed on a key in its cone whose own operation meets a zero divisor, or
    /// that was killed in the course of those events: more of its workers left than it is allowed to lose. Takes no memory.
    pub fn done(&self, client: u32, key: u32) -> Option<End>
        ensures done { result ≡ done ((world self.now).clients client) key }
        ensures blame { (es : List EventFact) → IsMadeBy J.operation es self.now →
            IfBlamed (WasKilled (running J.operation self.now) es) (deps_of (J.graph self.now.job)) (val (deps_of (J.graph self.now.job)) (J.operation self.now.job)) key result }
    {
        self.state.done(client, key)
    }

    /// The job that it runs. Takes no memory.
    pub fn job(&self) -> &J
        ensures { result.now ≡ self.now.job }
    {
        &self.state.job
    }

    /// The graph. Takes no memory.
    pub fn shape(&self) -> &GraphShape
        ensures job { result.now ≡ J.graph self.now.job }
        ensures setting { result.now ≡ (setting self.now).shape }
    {
        self.state.job.shape()
    }

    /// How many clients there are. Takes no memory.
    pub fn clients(&self) -> u32
        ensures { result ≡ (setting self.now).clients }
    {
        self.state.clients
    }

    /// How many workers are alive or connected. Takes no memory.
    pub fn workers(&self) -> u64
        ensures { result ≡ worker_count (world self.now) }
    {
        self.state.worker_count()
    }

    /// How often the key's worker left while the key was assigned to it, since the key was last not known. A key that is
    /// not there has lost none. Takes no memory.
    pub fn losses(&self, key: u32) -> u32
        ensures { result ≡ (world self.now).sched.losses key }
    {
        self.state.sched.losses(key)
    }

    /// How often a key's worker may leave while the key is assigned to it, where that is bounded. Takes no memory.
    pub fn allowed(&self) -> Option<u32>
        ensures { result ≡ (world self.now).sched.setting.allowed }
    {
        self.state.sched.allowed()
    }

    /// How many finishes the scheduler counted. Takes no memory.
    pub fn finishes(&self) -> u64
        ensures { result ≡ (world self.now).sched.finishes }
    {
        self.state.sched.finishes()
    }

    /// How many progress events are enabled, or 2^64 - 1 where it is more; none is once memory ran out. Takes no memory.
    pub fn progress_count(&self) -> u64
        ensures count { self.now.course ≢ Course.Starved → result ≡ min (length (progress (world self.now))) (2 ^ 64 - 1) }
        ensures starved { self.now.course ≡ Course.Starved → result ≡ 0 }
    {
        match self.state.course {
            Course::Starved => 0,
            _ => count_progress(&self.state),
        }
    }

    /// The enabled progress event of this number, from 0, kind by kind in the order of the table of events, and within a
    /// kind by worker or asker, then peer, then key or ask. None exactly where there are at most as many, and once memory
    /// ran out. Takes no memory.
    pub fn progress(&self, n: u64) -> Option<Event>
        ensures event { self.now.course ≢ Course.Starved → result ≡ slice_get (progress (world self.now)) n }
        ensures starved { self.now.course ≡ Course.Starved → result ≡ None }
    {
        match self.state.course {
            Course::Starved => None,
            _ => nth_progress(&self.state, n),
        }
    }

    /// The message that the event would take from a link, or from what is under way: none exactly where it isn't enabled or
    /// takes none. Takes no memory.
    pub fn message(&self, e: &Event) -> Option<&Message>
        ensures message { self.now.course ≢ Course.Starved → option_copied result ≡ message (world self.now) e.now }
        ensures starved { self.now.course ≡ Course.Starved → option_copied result ≡ None }
    {
        match self.state.course {
            Course::Starved => None,
            _ => self.state.message(e),
        }
    }

    /// Gives the feed back, also after the world stopped. Takes no memory.
    pub fn into_feed(self) -> J::Feed
        ensures { result ≡ self.feed }
    {
        let World { state } = self;
        let State {
            alloc: _,
            clients: _,
            course: _,
            events: _,
            sched,
            nodes,
            job,
            feed,
        } = state;
        drop(sched);
        drop(nodes);
        drop(job);
        feed
    }
}
