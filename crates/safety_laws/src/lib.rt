//! Schedule safety: what holds of every legal list of events, as laws about the definitions.
//!
//! `cluster_rules` stands below, with the world, which lists of events are legal and what is promised of them (`Safe`);
//! `cluster_laws`, with what the scheduler keeps by itself; and `pair_machine` and `pair_moves`, with one worker and one
//! key, and what each event is to them. The world of the simulator stands above. It carries *schedule safety*: a key gets
//! another attempt only once the earlier one has ended, and one that was given up was never started; only known keys have
//! facts, and only needed ones are held; at rest a worker has what the scheduler counts there; and while a client waits and a
//! worker is there, some progress event is enabled. Nothing is assumed but that the events are legal and the job is one.
#![tactic(auto)]

ghost use Rattle.std.specs.Prelude.{◌≡◌, ◌+◌, ◌≤◌, ℕ, List, Some, true};
ghost use Rattle.cluster_rules.specs.Sched.{Facts, IsSound};
ghost use Rattle.cluster_msgs.specs.declared.events.Event.{Event};
ghost use Rattle.cluster_rules.specs.Enabled.{enabled};
ghost use Rattle.cluster_rules.specs.World.{Job, IsJob, Drained};
ghost use Rattle.cluster_rules.specs.WorldStep.{world_step};
ghost use Rattle.cluster_rules.specs.Runs.{legal, reached, killed, OneAttempt, OnlyKnown, Agrees, IsLively, Safe, WasKilled};
ghost use Rattle.safety_laws.specs.Attempts.{AttemptsEnd};
ghost use Rattle.safety_laws.specs.Keys.{AreLetGo};
ghost use Rattle.safety_laws.specs.Released.{NoneReleases, leaves};
ghost use Rattle.safety_laws.specs.Lively.{IsAnswered, IsRefreshing, AreNamed, HaveThreads, AreServed};

/// A key gets another attempt only once the earlier one has ended, by the same event at the latest; and an attempt that
/// was given up is never started, neither before nor after.
pub fn attempts_are_disciplined()
    ensures { (j : Job) → IsJob j → (es : List Event) → legal j es → OneAttempt j es }
{}

/// An event that is enabled leaves each key its worker and its attempt, unless it ends the attempt: the scheduler counts the
/// attempt's finish or its error, or that the worker gave it up unstarted; it takes that the worker leaves; or it sends the
/// worker a free-keys with the key.
pub fn attempts_end_for_a_cause()
    ensures { (j : Job) → IsJob j → (es : List Event) → legal j es → (e : Event) → enabled (reached j es) e ≡ true →
        AttemptsEnd (reached j es) e (world_step j (reached j es) e) }
{}

/// The scheduler has facts only of known keys, and only needed keys are held.
pub fn only_known_keys_have_facts()
    ensures { (j : Job) → IsJob j → (es : List Event) → legal j es → OnlyKnown (reached j es).sched }
{}

/// A key outside the cone of every wanted key is forgotten, and the scheduler keeps no holder, assignment, steal, error or
/// loss of it. A key inside such a cone that isn't needed is released or erred, and not held.
pub fn unneeded_keys_are_let_go()
    ensures { (j : Job) → IsJob j → (es : List Event) → legal j es → AreLetGo (reached j es).sched }
{}

/// A worker that is alive and connected, with no message under way between it and the scheduler, holds and has exactly
/// what the scheduler counts there.
pub fn drained_workers_agree()
    ensures { (j : Job) → IsJob j → (es : List Event) → legal j es → (i : ℕ) → Drained (reached j es) i → Agrees (reached j es) i }
{}

/// While a client waits for a key and a worker is alive and connected, some progress event is enabled.
pub fn some_progress_is_enabled()
    ensures { (j : Job) → IsJob j → (es : List Event) → legal j es → IsLively (reached j es) }
{}

/// Schedule safety: each of the four that `Safe` says holds of every legal list. Facts that are sound have the setting of a
/// job.
pub fn schedules_are_safe()
    ensures job { (j : Job) → IsJob j → (es : List Event) → legal j es → Safe j es }
    ensures sound { (j : Job) (f : Facts) → IsSound f → f.setting ≡ j.setting → (es : List Event) → legal j es → Safe j es }
{}

/// An ask that is open has its request or its answer under way; what a connected worker has asked the scheduler, and
/// hasn't heard of, is under way; each worker that is named as a holder has joined; a worker that is alive has a thread; and
/// what each client waits for is known to it or on its way.
pub fn what_is_asked_is_under_way()
    ensures answered { (j : Job) → IsJob j → (es : List Event) → legal j es → IsAnswered (reached j es) }
    ensures refreshing { (j : Job) → IsJob j → (es : List Event) → legal j es → IsRefreshing (reached j es) }
    ensures named { (j : Job) → IsJob j → (es : List Event) → legal j es → AreNamed (reached j es) }
    ensures threads { (j : Job) → IsJob j → (es : List Event) → legal j es → HaveThreads (reached j es) }
    ensures served { (j : Job) → IsJob j → (es : List Event) → legal j es → AreServed (reached j es) }
{}

/// Where no client lets a key go, a key that was killed at some place stays killed.
pub fn killed_keys_stay_so()
    ensures { (j : Job) (es : List Event) → NoneReleases es → (k : ℕ) → WasKilled j es k → killed j es k ≡ true }
{}

/// A key that is killed lost its worker more often than is allowed, each time by an event that takes that a worker leaves.
pub fn killed_keys_lost_workers()
    ensures { (j : Job) (es : List Event) (k a : ℕ) → j.setting.allowed ≡ Some a → killed j es k ≡ true → a + 1 ≤ leaves es }
{}
