//! What errors a cluster's nodes tell of, where the blocks that they work on fit the label of the run.
ghost use Rattle.cluster_msgs.specs.Shape.{IsShape};
ghost use Rattle.cluster_msgs.specs.declared.cores.SchedEvent.{SchedEvent};
ghost use Rattle.cluster_msgs.specs.declared.cores.WorkerEvent.{WorkerEvent};
ghost use Rattle.cluster_msgs.specs.declared.cores.ClientEvent.{ClientEvent};
ghost use Rattle.cluster_rules.specs.Sched.{Facts};
ghost use Rattle.cluster_rules.specs.SchedStep.{sched_step};
ghost use Rattle.cluster_rules.specs.Worker.{WorkerFacts};
ghost use Rattle.cluster_rules.specs.WorkerStep.{worker_step};
ghost use Rattle.cluster_rules.specs.Client.{ClientFacts, client_step};
ghost use Rattle.node_states.specs.Fitting.{SchedFits, ClientFits, SchedEventFits, ClientEventFits, WorkerEventFits, InstructionsFit, LettersFit};

use cluster_msgs::Label;

/// A worker reports an error only of a task that ended by a zero divisor.
#[tactic(auto, using(crate::proofs::WorkerLaw::out_fits))]
pub fn workers_err_after_zero_divisors<L: Label>()
    ensures { (w : WorkerFacts) (e : WorkerEvent) → WorkerEventFits L.facts e → InstructionsFit L.facts (worker_step w e).out }
{}

/// Where the bad keys of a scheduler are faulty or have lost more workers than are allowed, each blame that it tells is in the cone of the key that
/// failed, and faulty where losses aren't bounded.
#[tactic(auto, using(crate::proofs::SchedLaw::letters_fit))]
pub fn blames_are_faulty<L: Label>()
    ensures { (f : Facts) (e : SchedEvent) → IsShape f.setting.shape → SchedEventFits L.facts e → SchedFits L.facts f → LettersFit L.facts (sched_step f e).clients }
{}

/// Where a client is told failures with blames that fit, all that it knows have such.
#[tactic(auto, using(crate::proofs::ClientLaw::client_fits))]
pub fn clients_know_right_blames<L: Label>()
    ensures { (c : ClientFacts) (e : ClientEvent) → ClientEventFits L.facts e → ClientFits L.facts c → ClientFits L.facts (client_step c e).facts }
{}
