//! One event that is enabled: each row of the table of events.
ghost use Rattle.std.specs.Prelude.{◌≡◌, ◌↔◌, ◌<◌, ◌≤◌, ◌==◌, ℕ, [], None, true, IfOk, OnOk, cond, is_none};
ghost use Rattle.cluster_msgs.specs.Jobs.{blocks_of, value_of};
ghost use Rattle.cluster_msgs.specs.declared.events.Event.TheVariants as event;
ghost use Rattle.cluster_rules.specs.Enabled.{enabled};
ghost use Rattle.fact_rows.specs.Rows.{cell};
ghost use Rattle.cluster_nodes.specs.Nodes.{blocks_at};
ghost use Rattle.cluster_nodes.specs.Turns.{among};
ghost use Rattle.cluster_world.specs.Worlds.{world, setting};
ghost use Rattle.cluster_rules.specs.Runs.{event_limit};
ghost use Rattle.cluster_world.specs.Kept.{IsSame, IsWhole, LengthsFit};
ghost use Rattle.cluster_world.specs.Steps.{Advances, CountsStep};
ghost use Rattle.cluster_world.specs.Outcomes.{IsPerformed, IsUnended, CountsPerform, FeedLeaves};

use crate::errors::{Broken, StepError};
use crate::state::{Course, State};
use crate::turns::without_refusal;
use cluster_msgs::{Event, JobSpec, Outcome, Sequence, WorkerEvent};
use message_queues::Shelf;
use std::alloc::{AllocError, Global};
use std::sync::Arc;

/// Carries an enabled event out and counts it, or stops.
///
/// # Errors
/// `Feed` only where the feed's count of faults rose in this call, else `OutOfMemory`.
pub fn advance<J: JobSpec>(
    state: &mut State<J, J::Block, J::Feed>,
    e: &Event,
) -> Result<(), StepError>
    requires whole { IsWhole J.graph J.key_dims J.block_dims state.old }
    requires feed { J.feed_fits state.old.job state.old.feed }
    requires possible { enabled (world state.old) e.now ≡ true }
    requires room { state.old.events < event_limit }
    ensures advances { Advances (LengthsFit J.key_dims J.block_dims state.old.job) (J.feed_tells state.old.job state.old.feed) (J.operation state.old.job) e.now result state.old state.new }
    ensures job { state.new.job ≡ state.old.job }
    ensures clients { state.new.clients ≡ state.old.clients }
    ensures setting { setting state.new ≡ setting state.old }
    ensures few { state.new.events ≤ event_limit }
    ensures fits { J.feed_fits state.old.job state.new.feed }
    ensures tells { J.feed_tells state.old.job state.new.feed ↔ J.feed_tells state.old.job state.old.feed }
    ensures faults { CountsStep result (J.fault_count state.old.feed) (J.fault_count state.new.feed) }
{
    match perform(state, e) {
        Ok(()) => {
            state.events += 1;
            Ok(())
        }
        Err(Broken::Feed) => {
            state.course = Course::Fed;
            Err(StepError::Feed)
        }
        Err(Broken::Memory) => {
            state.course = Course::Starved;
            Err(StepError::OutOfMemory)
        }
    }
}

/// Carries an enabled event out. Where the feed tells what it holds, the outcome of an operation that ends is that of
/// the definition.
///
/// # Errors
/// `Feed` only where the feed's count of faults rose in this call, and then all but the feed is as before. Else `Memory`;
/// what the world is then isn't said.
fn perform<J: JobSpec>(state: &mut State<J, J::Block, J::Feed>, e: &Event) -> Result<(), Broken>
    requires whole { IsWhole J.graph J.key_dims J.block_dims state.old }
    requires feed { J.feed_fits state.old.job state.old.feed }
    requires possible { enabled (world state.old) e.now ≡ true }
    requires room { state.old.events < event_limit }
    ensures performed { OnOk result (IsPerformed (LengthsFit J.key_dims J.block_dims state.old.job) (J.feed_tells state.old.job state.old.feed) (J.operation state.old.job) state.old state.new e.now) }
    ensures same { IsSame state.old state.new }
    ensures fits { J.feed_fits state.old.job state.new.feed }
    ensures tells { J.feed_tells state.old.job state.new.feed ↔ J.feed_tells state.old.job state.old.feed }
    ensures faults { CountsPerform result (J.fault_count state.old.feed) (J.fault_count state.new.feed) }
    ensures left { FeedLeaves result state.old state.new }
{
    match e {
        Event::Finish { worker, key } => finish(state, *worker, *key),
        other => carry(state, other),
    }
}

/// The same of an event that ends no operation.
fn carry<J: JobSpec>(state: &mut State<J, J::Block, J::Feed>, e: &Event) -> Result<(), Broken>
    requires whole { IsWhole J.graph J.key_dims J.block_dims state.old }
    requires feed { J.feed_fits state.old.job state.old.feed }
    requires possible { enabled (world state.old) e.now ≡ true }
    requires room { state.old.events < event_limit }
    requires unended { IsUnended e.now }
    ensures performed { OnOk result (IsPerformed (LengthsFit J.key_dims J.block_dims state.old.job) (J.feed_tells state.old.job state.old.feed) (J.operation state.old.job) state.old state.new e.now) }
    ensures same { IsSame state.old state.new }
    ensures fits { J.feed_fits state.old.job state.new.feed }
    ensures tells { J.feed_tells state.old.job state.new.feed ↔ J.feed_tells state.old.job state.old.feed }
    ensures faults { CountsPerform result (J.fault_count state.old.feed) (J.fault_count state.new.feed) }
    ensures left { FeedLeaves result state.old state.new }
{
    state.act(e)?;
    Ok(())
}

/// A worker's task finishes: its operation is run on the blocks that it started with.
fn finish<J: JobSpec>(
    state: &mut State<J, J::Block, J::Feed>,
    worker: u32,
    key: u32,
) -> Result<(), Broken>
    requires whole { IsWhole J.graph J.key_dims J.block_dims state.old }
    requires feed { J.feed_fits state.old.job state.old.feed }
    requires possible { enabled (world state.old) (event.Finish worker key) ≡ true }
    requires room { state.old.events < event_limit }
    ensures performed { OnOk result (IsPerformed (LengthsFit J.key_dims J.block_dims state.old.job) (J.feed_tells state.old.job state.old.feed) (J.operation state.old.job) state.old state.new (event.Finish worker key)) }
    ensures same { IsSame state.old state.new }
    ensures fits { J.feed_fits state.old.job state.new.feed }
    ensures tells { J.feed_tells state.old.job state.new.feed ↔ J.feed_tells state.old.job state.old.feed }
    ensures faults { CountsPerform result (J.fault_count state.old.feed) (J.fault_count state.new.feed) }
    ensures left { FeedLeaves result state.old state.new }
{
    let none = Sequence::new(state.alloc);
    let inputs = inputs_of(&state.nodes.inputs, worker, key, &none);
    let outcome = state.job.run(&mut state.feed, key, inputs)?;
    let zero = is_zero(&outcome);
    let brought = shared(state.alloc, key, outcome)?;
    let done = WorkerEvent::Done { key, zero };
    without_refusal(state.nodes.worker_turn(worker, done, brought))?;
    Ok(())
}

/// The blocks that a task started with; these where there are none.
fn inputs_of<'a, B: Drop>(
    shelf: &'a Shelf<Sequence<Arc<B>>>,
    worker: u32,
    key: u32,
    none: &'a Sequence<Arc<B>>,
) -> &'a [Arc<B>]
    requires { none.now ≡ [] }
    ensures { blocks_of result.now ≡ blocks_at (cell shelf.now None worker key) }
{
    match shelf.look(worker, key) {
        Some(inputs) => inputs.as_slice(),
        None => none.as_slice(),
    }
}

/// Whether an operation met a zero divisor.
fn is_zero<B: Drop>(outcome: &Outcome<B>) -> bool
    ensures { result ≡ is_none (value_of outcome.now) }
{
    match outcome {
        Outcome::Value(_) => false,
        Outcome::Zero => true,
    }
}

/// The block of an outcome with its key, if there is one.
fn shared<B: Drop>(
    alloc: Global,
    key: u32,
    outcome: Outcome<B>,
) -> Result<Vec<(u32, Arc<B>)>, AllocError>
    ensures { IfOk result (λ pairs. (q : ℕ) → among pairs.items q ≡ cond (key == q) (value_of outcome) None) }
{
    let mut pairs = Vec::new(alloc);
    match outcome {
        Outcome::Value(block) => {
            let block = Arc::new(alloc, block)?;
            pairs.push((key, block))?;
            Ok(pairs)
        }
        Outcome::Zero => Ok(pairs),
    }
}
