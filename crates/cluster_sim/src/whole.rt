//! Whole simulations.
ghost use Rattle.std.specs.Prelude.{◌≡◌, ◌↔◌, ℕ, List, None, Err, IfOk, IfSome, OnOk};
ghost use Rattle.std.specs.Option.{option_map};
ghost use Rattle.cluster_msgs.specs.declared.events.Event.{Event};
ghost use Rattle.cluster_msgs.specs.Shape.{key_count, deps_of};
ghost use Rattle.cluster_msgs.specs.Values.{val};
ghost use Rattle.cluster_rules.specs.Draw.{Served, over};
ghost use Rattle.cluster_world.specs.Worlds.{world as world_of, setting, running, IsMade};
ghost use Rattle.cluster_world.specs.declared.state.Course.TheVariants.{Going};
ghost use Rattle.cluster_rules.specs.Runs.{event_limit};
ghost use Rattle.cluster_sim.specs.Acts.{CountsSim, Stays};
ghost use Rattle.cluster_sim.specs.Drawn.{word_of};
ghost use Rattle.cluster_sim.specs.Plans.{plan_of, IsPlan};
ghost use Rattle.cluster_sim.specs.Openings.{IsOpening, AreWanted};
ghost use Rattle.cluster_sim.specs.Turns.{IsBetween, IsDrawn, AfterPlay, DrawnPlay};
ghost use Rattle.cluster_sim.specs.Led.{IsLeftAlone};
ghost use Rattle.cluster_sim.specs.Simulations.{IsSimulated, IsReported, IsDeserted, IsUnfinished, HasAll};
ghost use Rattle.cluster_sim.specs.Faults.{key_of, IsBounded, IfBlamed};

use crate::act::SimError;
use crate::ended::{Ending, Fault, fault_of};
use crate::opening::make_opening;
use crate::plan::SimPlan;
use crate::position::Standing;
use crate::run::Run;
use crate::seen::Seen;
use crate::turn::turn;
use crate::words::Words;
use cluster_msgs::{JobSpec, KeyList, Report};
use cluster_world::World;
use run_report::Tally;
use std::alloc::Global;

/// How a simulation ended: after so many turns, with the report of its events, and with what is to blame where the client
/// was told of a failure.
#[derive(Drop)]
pub struct SimEnd {
    pub turns: u64,
    pub report: Report,
    pub fault: Option<Fault>,
}

/// Simulates a cluster until client 1 has got all wanted keys or was told of a failure: of those that it failed on, the
/// least key's is told. The events are exactly those that the rules draw by the words of `rand_pcg`'s
/// `Lcg64Xsh32::new(number, 1)`, one word a turn; where the world's feed tells what it holds, each outcome is that of the
/// job's definition, and the events are legal and safe. It always returns.
///
/// The rules end a simulation too where its turns are spent, of which so many are left as progress events can follow one
/// another. Here nobody counts them: by quiet termination a turn is left wherever something moves.
///
/// # Errors
/// `Stuck` and `Spent` only while the client waits still: it hasn't got all, and was told of no failure. `Stuck` only where
/// nothing moves and no worker is alive and connected, whatever the feed answers: so never by a plan that leaves a worker at
/// every point. `Spent` only once the world took 2^40 events, and where the feed tells, only where the rules go on
/// after those. `Feed` only where the feed's count of faults rose in this call. `OutOfMemory` where no memory is left.
pub fn simulate<J: JobSpec>(
    alloc: Global,
    world: &mut World<J>,
    number: u64,
    plan: &SimPlan,
    wanted: &KeyList,
) -> Result<SimEnd, SimError>
    requires plan { IsPlan (plan_of plan.now) }
    requires opening { IsOpening J.operation world.old }
    requires wanted { AreWanted (key_count (setting world.old).shape) wanted.now }

    // The events are those that are drawn, to this end, with their report.
    ensures served { IfOk result (λ end. J.feed_tells world.old.job world.old.feed →
        IsReported (running J.operation world.old) (word_of number) (plan_of plan.now) wanted.now (Served end.turns (option_map key_of end.fault)) (world_of world.new) end.report) }
    ensures deserted { result ≡ Err SimError.Stuck → J.feed_tells world.old.job world.old.feed →
        IsDeserted (running J.operation world.old) (word_of number) (plan_of plan.now) wanted.now (world_of world.new) }

    ensures made { OnOk result (J.feed_tells world.old.job world.old.feed → IsMade J.operation world.new) }
    ensures going { OnOk result (world.new.course ≡ Going) }

    // A failure names a needed key that is at fault or was killed by these events, and comes exactly where the client hasn't
    // got all.
    ensures all { IfOk result (λ end. (end.fault ≡ None) ↔ HasAll (world_of world.new) wanted.now) }
    ensures blame { IfOk result (λ end. J.feed_tells world.old.job world.old.feed →
        (es : List Event) → IsSimulated (running J.operation world.old) (word_of number) (plan_of plan.now) wanted.now es (Served end.turns (option_map key_of end.fault)) (world_of world.new) →
        IfBlamed (running J.operation world.old) es (deps_of (setting world.old).shape) (val (deps_of (setting world.old).shape) (J.operation world.old.job)) wanted.now end.fault) }

    // Told or not, a killed key comes with one loss more than is allowed, and no more than the script takes workers away.
    ensures bounded { IfOk result (λ end. IfSome end.fault (IsBounded (setting world.old).allowed (plan_of plan.now).script)) }

    // The causes of what is no result, and what stays.
    ensures faults { CountsSim result (J.fault_count world.old.feed) (J.fault_count world.new.feed) }
    ensures stuck { result ≡ Err SimError.Stuck → IsLeftAlone (setting world.old) (plan_of plan.now) wanted.now (world_of world.new) }
    ensures spent { result ≡ Err SimError.Spent → world.new.events ≡ event_limit }
    ensures spent_waits { result ≡ Err SimError.Spent → over ((world_of world.new).clients 1) ≡ None }
    ensures cut_off { result ≡ Err SimError.Spent → J.feed_tells world.old.job world.old.feed →
        IsUnfinished (running J.operation world.old) (word_of number) (plan_of plan.now) wanted.now event_limit }
    ensures stays { Stays J.feed_tells world.old world.new }
{
    world.is_safe();
    world.shape().sound();
    let mut tally = Tally::new(alloc);
    make_opening(world, plan, wanted, &mut tally)?;
    let mut seen = Seen {
        got: 0,
        failure: None,
    };
    seen.look(world, wanted, false);
    let mut run = Run {
        standing: Standing::new(),
        seen,
        words: Words::new(number),
        tally,
    };
    let end = play(world, plan, wanted, &mut run)?;
    let report = run.tally.report(alloc, world.shape())?;
    let fault = fault_of(world, end.failure);
    Ok(SimEnd {
        turns: run.standing.turns,
        report,
        fault,
    })
}

/// Makes the events of a simulation that has opened, up to its end.
fn play<J: JobSpec>(
    world: &mut World<J>,
    plan: &SimPlan,
    wanted: &KeyList,
    run: &mut Run,
) -> Result<Ending, SimError>
    requires plan { IsPlan (plan_of plan.now) }
    requires between { IsBetween (plan_of plan.now) wanted.now world.old run.old }
    ensures play { AfterPlay (plan_of plan.now) wanted.now world.new run.new result }
    ensures drawn { (number : ℕ) → IsDrawn J.operation J.feed_tells (plan_of plan.now) wanted.now number world.old run.old →
        DrawnPlay J.operation J.feed_tells (plan_of plan.now) wanted.now number world.new run.new result }
    ensures stays { Stays J.feed_tells world.old world.new }
    ensures faults { CountsSim result (J.fault_count world.old.feed) (J.fault_count world.new.feed) }
{
    'turns: loop {
        let next = turn(world, plan, wanted, run)?;
        match next {
            Some(end) => return Ok(end),
            None => {}
        }
    }
}
