//! Quiet termination: with no help from outside a cluster comes to rest, after at most so many events as a formula says.
//!
//! `quiet_measure` stands below, with a measure of what can still happen and the formula that it is within, and `safety_laws`,
//! with what holds of every legal list of events. The bound that the program asks for, `quiet_bound`, and the simulated
//! cluster, which ends by this law, stand above. Nothing is assumed but that the events are legal and the job is one.
#![tactic(auto)]

ghost use Rattle.std.specs.Prelude.{◌≡◌, ℕ, ◌-◌, ◌^◌, ◌<◌, ◌≤◌, List, [], length, true};
ghost use Rattle.std.specs.List.{AllByRecursion};
ghost use Rattle.cluster_msgs.specs.declared.events.Asker.{Asker};
ghost use Rattle.cluster_msgs.specs.declared.events.Event.{Event};
ghost use Rattle.cluster_msgs.specs.declared.events.Event.TheVariants.{ServeGather};
ghost use Rattle.cluster_rules.specs.Sched.{IsSound};
ghost use Rattle.cluster_rules.specs.World.{Job, IsJob, World, rest};
ghost use Rattle.cluster_rules.specs.WorldStep.{world_step};
ghost use Rattle.cluster_rules.specs.Enabled.{enabled, progress};
ghost use Rattle.cluster_rules.specs.Runs.{Run, legal, reached, run_from};
ghost use Rattle.safety_laws.specs.Joint.{IsPaired};
ghost use Rattle.quiet_measure.specs.Asks.{IsOfAsk, AreAsks};
ghost use Rattle.quiet_measure.specs.Bounded.{IsBounded, most_events};
ghost use Rattle.quiet_measure.specs.Measure.{measure, Falls};
ghost use Rattle.quiet_laws.specs.Old.{AreOld, AreFenced};
ghost use Rattle.quiet_laws.specs.Events.{UpFalls, LetterFalls, LossFalls};
ghost use Rattle.quiet_laws.specs.Calm.{AreWhole, AreVainInTime, AreTrueQuestions, AreOfOthers};
ghost use Rattle.quiet_laws.specs.Quiet.{IsQuiet, QuietlyEnds, ProgressFalls, IsWithin};

/// The scheduler lowers the measure where it takes a message of a worker or of a client, or sees that a worker is lost: after
/// every legal list of events in which copies that are named were drawn.
pub fn events_of_the_scheduler()
    ensures up { (j : Job) → IsJob j → (es : List Event) → legal j es → UpFalls j (reached j es) }
    ensures letter { (j : Job) → IsJob j → (es : List Event) → legal j es → LetterFalls j (reached j es) }
    ensures loss { (j : Job) → IsJob j → (es : List Event) → legal j es → LossFalls j (reached j es) }
{}

/// A peer that serves a gather lowers the measure.
pub fn served_gathers_lower_the_measure()
    ensures { (j : Job) (w : World) (p : ℕ) (a : Asker) (n : ℕ) → IsSound w.sched → IsPaired w → AllByRecursion (IsOfAsk w) w.requests →
        enabled w (ServeGather p a n) ≡ true → Falls w (world_step j w (ServeGather p a n)) }
{}

/// What the measure rests on, after every list of events: copies that are named were drawn, no fence is above what was sent, a
/// task comes with a list for each of its dependencies, and an answer that nobody holds a key finds no task that waits for it.
pub fn what_the_measure_rests_on()
    ensures old { (j : Job) (es : List Event) → AreOld (reached j es) }
    ensures fenced { (j : Job) (es : List Event) → AreFenced (reached j es).sched }
    ensures whole { (j : Job) → IsJob j → (es : List Event) → legal j es → AreWhole (reached j es) }
    ensures vain { (j : Job) → IsJob j → (es : List Event) → legal j es → AreVainInTime (reached j es) }
{}

/// Asks are in order after every legal list of events.
pub fn asks_stay_in_order()
    ensures { (j : Job) → IsJob j → (es : List Event) → legal j es → AreAsks (reached j es) }
{}

/// What a worker asks the scheduler is true by the time that it comes, and so no answer names the worker that asked.
pub fn questions_are_true_when_they_come()
    ensures truths { (j : Job) → IsJob j → (es : List Event) → legal j es → AreTrueQuestions (reached j es) }
    ensures others { (j : Job) → IsJob j → (es : List Event) → legal j es → AreOfOthers (reached j es) }
{}

/// No list names more keys than there are after every legal list of events, and so the measure is within the formula.
pub fn reached_worlds_stay_within()
    ensures bounded { (j : Job) → IsJob j → (es : List Event) → legal j es → IsBounded (reached j es) }
    ensures within { (j : Job) → IsJob j → (es : List Event) → legal j es → measure (reached j es) ≤ most_events (reached j es) }
{}

/// Where each progress event lowers the measure and the measure is within the formula, quiet lists end within it, and leave
/// nothing to wait for.
pub fn quiet_lists_end_where_the_measure_falls()
    ensures { (j : Job) → IsJob j → ProgressFalls j → IsWithin j → (es : List Event) → legal j es → QuietlyEnds j (reached j es) }
{}

/// Quiet termination: from any world that legal events led to, a list of progress events that is legal has at most as many
/// members as the formula says, and one that can't be made longer leaves no client that waits for a key, or no worker that is
/// alive and connected.
pub fn comes_to_rest()
    ensures { (j : Job) → IsJob j → (es : List Event) (w : World) → Run j es w → QuietlyEnds j w }
{}

/// So a list of progress events that is as long as `rest` says, and shorter than 2^128 - 1, can't be made longer.
pub fn none_is_longer()
    ensures { (j : Job) → IsJob j → (es qs : List Event) → legal j es → IsQuiet j (reached j es) qs → length qs < 2 ^ 128 - 1 →
        length qs ≡ rest (reached j es) → progress (run_from j (reached j es) qs) ≡ [] }
{}
