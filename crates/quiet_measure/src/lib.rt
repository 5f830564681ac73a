//! A measure of what can still happen in a cluster with no help from outside, what each event does to it, and the formula
//! that it is within.
//!
//! `cluster_rules` stands below, with the world and its events, and `cluster_laws`, with what the nodes keep by themselves.
//! Quiet termination, `quiet_laws`, stands above. What is said here is of one world and one event, with what they need of
//! the world as premises; that these hold after every legal list of events is proved there.
#![tactic(auto)]

ghost use Rattle.std.specs.Prelude.{◌≡◌, ℕ, ◌<◌, ◌≤◌, List, ◌∷◌, true};
ghost use Rattle.cluster_msgs.specs.declared.events.Event.TheVariants.{DeliverToClient, DeliverDown, Start, Finish};
ghost use Rattle.cluster_msgs.specs.Shape.{key_count};
ghost use Rattle.cluster_msgs.specs.declared.messages.Down.{Down};
ghost use Rattle.cluster_msgs.specs.declared.messages.Down.TheVariants.{StealRequest};
ghost use Rattle.cluster_rules.specs.Sched.{Facts, connected, IsSound};
ghost use Rattle.cluster_rules.specs.SchedTable.{Changed};
ghost use Rattle.cluster_rules.specs.SchedStep.{drop_bad, settle};
ghost use Rattle.cluster_rules.specs.WorkerKept.{IsKept};
ghost use Rattle.cluster_rules.specs.World.{Job, World, is_client, is_connected};
ghost use Rattle.cluster_rules.specs.WorldStep.{world_step};
ghost use Rattle.cluster_rules.specs.Enabled.{enabled};
ghost use Rattle.quiet_measure.specs.Measure.{measure_at, links_weight, Falls};
ghost use Rattle.quiet_measure.specs.Turns.{FreeFalls, RefreshFalls, AcquireFalls, RemoveFalls, TaskFalls, SendFalls, ArriveFalls, FailFalls};
ghost use Rattle.quiet_measure.specs.Settles.{SettlesAt};
ghost use Rattle.quiet_measure.specs.Lighter.{IsLighter, under};
ghost use Rattle.quiet_measure.specs.Bounded.{StaysWithin};

/// The measure rises with the disturbances that are left.
pub fn the_measure_rises()
    ensures { (w : World) (b c : ℕ) → b ≤ c → measure_at b w ≤ measure_at c w }
{}

/// A client that takes a message lowers the measure, and so does a worker that starts a task, whose task ends, or that is
/// asked for a task back.
pub fn events_that_lower_the_measure()
    ensures to_client { (j : Job) (w : World) (c : ℕ) → enabled w (DeliverToClient c) ≡ true → is_client w c ≡ true →
        Falls w (world_step j w (DeliverToClient c)) }
    ensures start { (j : Job) (w : World) (i : ℕ) → IsSound w.sched → IsKept (w.workers i) → is_connected w i ≡ true → enabled w (Start i) ≡ true →
        Falls w (world_step j w (Start i)) }
    ensures finish { (j : Job) (w : World) (i k : ℕ) → IsSound w.sched → IsKept (w.workers i) → is_connected w i ≡ true →
        k < key_count (w.workers i).shape → enabled w (Finish i k) ≡ true → Falls w (world_step j w (Finish i k)) }
    ensures steal_request { (j : Job) (w : World) (i k a : ℕ) (ms : List Down) → w.down i ≡ StealRequest k a ∷ ms → IsSound w.sched →
        IsKept (w.workers i) → is_connected w i ≡ true → w.alive i ≡ true → Falls w (world_step j w (DeliverDown i)) }
{}

/// A worker that takes any other message of the scheduler lowers the measure: keys to free, an answer who holds a key,
/// replicas to acquire or to remove, or a task.
pub fn messages_to_workers_lower_the_measure()
    ensures free { FreeFalls }
    ensures refresh { RefreshFalls }
    ensures acquire { AcquireFalls }
    ensures remove { RemoveFalls }
    ensures task { TaskFalls }
{}

/// A worker or a client that asks a peer, takes an answer, or finds that the peer is dead lowers the measure.
pub fn gathers_lower_the_measure()
    ensures send { SendFalls }
    ensures arrive { ArriveFalls }
    ensures fail { FailFalls }
{}

/// What is under way weighs no more where each copy that goes lowers the deaths that are left of its key.
pub fn what_is_under_way_grows_lighter()
    ensures { (w : World) (g : Facts) (d e : ℕ → ℕ) → g.last_worker ≡ w.sched.last_worker → g.setting ≡ w.sched.setting →
        ((i : ℕ) → connected g i ≡ true → connected w.sched i ≡ true) → IsLighter w.sched g d e →
        links_weight e (under w g) ≤ links_weight d w }
{}

/// What settling leaves of a key.
pub fn facts_settle_key_by_key()
    ensures { (f : Facts) (g : Changed) → IsSound (drop_bad g.facts) → (k : ℕ) → SettlesAt (settle f g) k }
{}

/// The measure is within the formula of `rest`, with no cap.
pub fn the_measure_stays_within_the_formula()
    ensures { StaysWithin }
{}
