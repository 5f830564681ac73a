//! One event of the world, counted.
ghost use Rattle.std.specs.Prelude.{◌≡◌, ◌++◌, ◌∷◌, ◌<◌, ◌^◌, ◌-◌, true, [], List, length, OnOk, Err};
ghost use Rattle.cluster_rules.specs.Enabled.{enabled, message};
ghost use Rattle.cluster_rules.specs.Report.{Taken, is_join, how_many};
ghost use Rattle.cluster_world.specs.Worlds.{world as world_of};
ghost use Rattle.cluster_rules.specs.Runs.{event_limit};
ghost use Rattle.cluster_world.specs.declared.state.Course.TheVariants.{Going};
ghost use Rattle.run_report.specs.Counts.{IsCountOf};
ghost use Rattle.cluster_sim.specs.Acts.{CountsSim, Stays, IsAct, IsCause, cause};

use cluster_msgs::{Event, JobSpec};
use cluster_world::{StepError, World};
use run_report::Tally;
use std::alloc::AllocError;
use thiserror::Error;

/// Why a simulation gave no result.
#[derive(Clone, Copy, Debug, Error)]
pub enum SimError {
    #[error("nothing moves")]
    Stuck,
    #[error("the feed failed")]
    Feed,
    #[error("all events were taken")]
    Spent,
    #[error("out of memory")]
    OutOfMemory,
}

impl From<AllocError> for SimError {
    ghost use Rattle.std.specs.Prelude.{◌≡◌};
    ghost use Rattle.cluster_sim.specs.declared.act.SimError.TheVariants.{OutOfMemory};

    ghost from_gives = { λ _ e. e ≡ OutOfMemory };

    fn from(_error: AllocError) -> SimError {
        SimError::OutOfMemory
    }
}

/// Makes an enabled event, and counts it.
pub fn act<J: JobSpec>(
    world: &mut World<J>,
    tally: &mut Tally,
    event: &Event,
) -> Result<(), SimError>
    requires going { world.old.course ≡ Going }
    requires enabled { enabled (world_of world.old) event.now ≡ true }
    ensures done { OnOk result (IsAct J.operation J.feed_tells world.old event.now world.new) }
    ensures counted { OnOk result ((es : List Taken) → length es < 2 ^ 64 - 1 → how_many is_join es < 2 ^ 32 - 1 → IsCountOf tally.old es →
        IsCountOf tally.new (es ++ (event.now, message (world_of world.old) event.now) ∷ [])) }
    ensures stays { Stays J.feed_tells world.old world.new }
    ensures faults { CountsSim result (J.fault_count world.old.feed) (J.fault_count world.new.feed) }
    ensures spent { result ≡ Err SimError.Spent → world.new.events ≡ event_limit }
    ensures spent_stays { result ≡ Err SimError.Spent → world.new ≡ world.old }
    ensures spent_before { result ≡ Err SimError.Spent → world.old.events ≡ event_limit }
    ensures stuck { result ≡ Err SimError.Stuck → ⊥ }
{
    tally.count(event, world.message(event))?;
    match world.step(event) {
        Ok(()) => Ok(()),
        Err(error) => Err(cause_of(error)),
    }
}

/// What a simulation answers where the world refuses an event.
fn cause_of(error: StepError) -> SimError
    requires { IsCause error }
    ensures { result ≡ cause error }
{
    match error {
        StepError::Feed => SimError::Feed,
        StepError::Spent => SimError::Spent,
        StepError::OutOfMemory => SimError::OutOfMemory,
        StepError::NotEnabled => unreachable!(),
        StepError::Stopped => unreachable!(),
    }
}
