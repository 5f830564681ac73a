//! One event of a simulation.
ghost use Rattle.std.specs.Prelude.{ℕ};
ghost use Rattle.cluster_sim.specs.Acts.{CountsSim, Stays};
ghost use Rattle.cluster_sim.specs.Plans.{plan_of, IsPlan};
ghost use Rattle.cluster_sim.specs.Turns.{IsBetween, IsDrawn, AfterTurn, DrawnTurn};

use crate::act::{SimError, act};
use crate::choice::Choice;
use crate::choose::choose;
use crate::ended::Ending;
use crate::plan::SimPlan;
use crate::run::Run;
use crate::seen::tells_failure;
use cluster_msgs::{JobSpec, KeyList};
use cluster_world::World;

/// Makes the next event, or tells that the simulation is over.
///
/// # Errors
/// `Stuck` where the client waits and nothing moves, else those of the event.
pub fn turn<J: JobSpec>(
    world: &mut World<J>,
    plan: &SimPlan,
    wanted: &KeyList,
    run: &mut Run,
) -> Result<Option<Ending>, SimError>
    requires plan { IsPlan (plan_of plan.now) }
    requires between { IsBetween (plan_of plan.now) wanted.now world.old run.old }
    ensures turn { AfterTurn (plan_of plan.now) wanted.now world.old world.new run.old run.new result }
    ensures drawn { (number : ℕ) → IsDrawn J.operation J.feed_tells (plan_of plan.now) wanted.now number world.old run.old →
        DrawnTurn J.operation J.feed_tells (plan_of plan.now) wanted.now number world.old world.new run.old run.new result }
    ensures stays { Stays J.feed_tells world.old world.new }
    ensures faults { CountsSim result (J.fault_count world.old.feed) (J.fault_count world.new.feed) }
{
    let word = run.words.word();
    match choose(world, plan, wanted, &run.standing, &run.seen, word) {
        Choice::Over { failure } => Ok(Some(Ending { failure })),
        Choice::Still => Err(SimError::Stuck),
        Choice::Make { event, kind } => {
            let told = tells_failure(world.message(&event));
            act(world, &mut run.tally, &event)?;
            run.go_on(kind);
            run.seen.look(world, wanted, told);
            Ok(None)
        }
    }
}
