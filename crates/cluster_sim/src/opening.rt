//! The opening events.
ghost use Rattle.std.specs.Prelude.{◌≡◌, [], Err, OnOk, replicate};
ghost use Rattle.cluster_msgs.specs.declared.events.Event.TheVariants.{Join};
ghost use Rattle.cluster_msgs.specs.Shape.{key_count};
ghost use Rattle.cluster_rules.specs.Draw.{opening_events};
ghost use Rattle.cluster_world.specs.Worlds.{setting};
ghost use Rattle.run_report.specs.Counts.{IsCountOf};
ghost use Rattle.cluster_sim.specs.Acts.{CountsSim, Stays};
ghost use Rattle.cluster_sim.specs.Plans.{plan_of, IsPlan};
ghost use Rattle.cluster_sim.specs.Openings.{IsOpening, AreWanted, HasOpened};

use crate::act::{SimError, act};
use crate::ended::CLIENT;
use crate::plan::SimPlan;
use cluster_msgs::{Event, JobSpec, KeyList};
use cluster_world::World;
use run_report::Tally;

/// The first workers join, and the client wants all keys at once.
///
/// # Errors
/// Those of the events.
pub fn make_opening<J: JobSpec>(
    world: &mut World<J>,
    plan: &SimPlan,
    wanted: &KeyList,
    tally: &mut Tally,
) -> Result<(), SimError>
    requires plan { IsPlan (plan_of plan.now) }
    requires opening { IsOpening J.operation world.old }
    requires wanted { AreWanted (key_count (setting world.old).shape) wanted.now }
    requires tally { IsCountOf tally.old [] }
    ensures opened { OnOk result (HasOpened J.operation J.feed_tells wanted.now plan.now.workers (opening_events (plan_of plan.now) wanted.now) world.old world.new tally.new) }
    ensures stays { Stays J.feed_tells world.old world.new }
    ensures faults { CountsSim result (J.fault_count world.old.feed) (J.fault_count world.new.feed) }
    ensures spent { result ≡ Err SimError.Spent → ⊥ }
    ensures stuck { result ≡ Err SimError.Stuck → ⊥ }
{
    join_all(world, plan, tally)?;
    let keys = wanted.copy()?;
    let want = Event::Want {
        client: CLIENT,
        keys,
    };
    act(world, tally, &want)
}

/// The first workers join, one after another.
fn join_all<J: JobSpec>(
    world: &mut World<J>,
    plan: &SimPlan,
    tally: &mut Tally,
) -> Result<(), SimError>
    requires plan { IsPlan (plan_of plan.now) }
    requires opening { IsOpening J.operation world.old }
    requires tally { IsCountOf tally.old [] }
    ensures opened { OnOk result (HasOpened J.operation J.feed_tells [] plan.now.workers (replicate plan.now.workers (Join plan.now.threads)) world.old world.new tally.new) }
    ensures stays { Stays J.feed_tells world.old world.new }
    ensures faults { CountsSim result (J.fault_count world.old.feed) (J.fault_count world.new.feed) }
    ensures spent { result ≡ Err SimError.Spent → ⊥ }
    ensures stuck { result ≡ Err SimError.Stuck → ⊥ }
{
    for _number in 0..plan.workers {
        let join = Event::Join {
            threads: plan.threads,
        };
        act(world, tally, &join)?;
    }
    Ok(())
}
