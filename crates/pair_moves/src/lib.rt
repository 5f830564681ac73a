//! The scheduler's events as moves of each pair of a worker and a key, and a worker's events as moves of its own pairs: laws
//! about the definitions.
//!
//! `pair_machine` stands below, with the moves and what they keep, `cluster_rules`, with the events, and `cluster_laws`, with
//! what the scheduler keeps by itself. The laws of the whole world's safety, `safety_laws`, stand above. It carries the step
//! from the table of events to one pair: of *schedule safety*, that whatever event the scheduler takes, what holds of each
//! pair of a worker that stays connected goes on to hold. The lemmas on a worker's events stand in `proofs/WorkerMoves.antt`,
//! where `safety_laws` takes them.
#![tactic(auto)]

ghost use Rattle.std.specs.Prelude.{◌≡◌, true};
ghost use Rattle.cluster_msgs.specs.declared.cores.SchedEvent.{SchedEvent};
ghost use Rattle.cluster_rules.specs.Sched.{Facts, IsSound};
ghost use Rattle.cluster_rules.specs.SchedTable.{sched_takes};
ghost use Rattle.cluster_rules.specs.SchedStep.{sched_step};
ghost use Rattle.cluster_laws.specs.Settled.{IsSettled};
ghost use Rattle.pair_moves.specs.Projection.{IsNumbered, EventKeeps};

/// An event that is taken keeps what holds of each worker that is connected afterwards and each key, whatever the worker
/// and its links are.
pub fn each_event_keeps_every_pair()
    ensures pairs { (f : Facts) (e : SchedEvent) → IsSound f → IsSettled f → IsNumbered f → sched_takes f e ≡ true → EventKeeps f e }
    ensures numbers { (f : Facts) (e : SchedEvent) → IsSettled f → IsNumbered f → IsNumbered (sched_step f e).facts }
{}
