//! One step of a world.
ghost use Rattle.std.specs.Prelude.{◌≡◌};
ghost use Rattle.cluster_world.specs.declared.state.Course.TheVariants as course;
ghost use Rattle.cluster_world.specs.Kept.{IsWorld};
ghost use Rattle.cluster_world.specs.Taken.{IsStep};

use crate::errors::StepError;
use crate::events::advance;
use crate::state::{Course, State};
use cluster_msgs::{Event, JobSpec};
use cluster_rules::Facts;

/// A world takes at most this many events, 2^40.
const EVENT_LIMIT: u64 = 1_099_511_627_776;

/// Takes an event, or says why not.
///
/// # Errors
/// `OutOfMemory` where no memory is left, and then at every later call. `Stopped` exactly where an earlier step answered
/// `Feed`. Else `Spent` exactly where 2^40 events were taken. Else `NotEnabled` exactly where the event isn't enabled.
/// `Feed` only where the feed's count of faults rose in this call.
pub fn take<J: JobSpec>(state: &mut State<J, J::Block, J::Feed>, e: &Event) -> Result<(), StepError>
    requires world { IsWorld J.graph J.key_dims J.block_dims J.operation J.feed_fits J.feed_tells state.old }
    ensures step { IsStep J.operation J.feed_tells J.fault_count e.now result state.old state.new }
    ensures world { IsWorld J.graph J.key_dims J.block_dims J.operation J.feed_fits J.feed_tells state.new }
{
    match state.course {
        Course::Fed => Err(StepError::Stopped),
        Course::Starved => Err(StepError::OutOfMemory),
        Course::Going => take_going(state, e),
    }
}

/// The same while the world goes on.
fn take_going<J: JobSpec>(
    state: &mut State<J, J::Block, J::Feed>,
    e: &Event,
) -> Result<(), StepError>
    requires world { IsWorld J.graph J.key_dims J.block_dims J.operation J.feed_fits J.feed_tells state.old }
    requires going { state.old.course ≡ course.Going }
    ensures step { IsStep J.operation J.feed_tells J.fault_count e.now result state.old state.new }
    ensures world { IsWorld J.graph J.key_dims J.block_dims J.operation J.feed_fits J.feed_tells state.new }
{
    if state.events >= EVENT_LIMIT {
        return Err(StepError::Spent);
    }
    if !state.enabled(e) {
        return Err(StepError::NotEnabled);
    }
    state.sched.sound();
    advance(state, e)
}
