//! One key's operation on the blocks that are kept.
ghost use Rattle.std.specs.Prelude.{◌≡◌, ◌<◌, ◌↔◌, ℕ, ℤ, List, IsSome, IfOk};
ghost use Rattle.std.specs.List.{All};
ghost use Rattle.cluster_msgs.specs.Shape.{key_count, deps_of};
ghost use Rattle.cluster_msgs.specs.Values.{val};
ghost use Rattle.graph_run.specs.Evaluations.{IfMade, CountsStep, value_of_step};
ghost use Rattle.graph_run.specs.Kept.{HaveDims, AreValues};
ghost use Rattle.graph_run.specs.Slots.{block_at};

use crate::evaluation::Step;
use crate::slots::gathered;
use crate::traced::TracedJob;
use cluster_msgs::{Outcome, RunFail};
use std::alloc::Global;
use std::sync::Arc;

/// Runs a key on the blocks of its dependencies, which it shares meanwhile.
///
/// # Errors
/// `Feed` only where the feed's count of faults rose in this call, and `OutOfMemory` where no memory is left.
pub fn run_key<J: TracedJob>(
    alloc: Global,
    job: &J,
    feed: &mut J::Feed,
    slots: &[Option<Arc<J::Block>>],
    key: u32,
) -> Result<Step<J::Block>, RunFail>
    requires key { key < key_count (J.graph job.now) }
    requires feed { J.feed_fits job.now feed.old }
    requires kept { All (λ k. IsSome (block_at slots.now k)) (deps_of (J.graph job.now) key) }
    requires dims { HaveDims J.block_dims (J.key_dims job.now) slots.now }
    ensures value { IfOk result (λ s. J.feed_tells job.now feed.old → AreValues (deps_of (J.graph job.now)) (J.operation job.now) slots.now →
        value_of_step s ≡ val (deps_of (J.graph job.now)) (J.operation job.now) key) }
    ensures given { IfOk result (λ s. (holds : List ℕ → List ℕ) (named : ℕ → List ℕ → ℤ) → J.agrees feed.new holds
        → J.has job.now feed.old holds named
        → AreValues (deps_of (J.graph job.now)) (J.made_of job.now named) slots.now
        → value_of_step s ≡ val (deps_of (J.graph job.now)) (J.made_of job.now named) key) }
    ensures dims { IfOk result (λ s. IfMade s (λ b. J.block_dims b ≡ J.key_dims job.now key)) }
    ensures fits { J.feed_fits job.now feed.new }
    ensures tells { J.feed_tells job.now feed.new ↔ J.feed_tells job.now feed.old }
    ensures agreed { (holds : List ℕ → List ℕ) → J.agrees feed.new holds → J.agrees feed.old holds }
    ensures same { (holds : List ℕ → List ℕ) (named : ℕ → List ℕ → ℤ) →
        J.has job.now feed.new holds named ↔ J.has job.now feed.old holds named }
    ensures faults { CountsStep result (J.fault_count feed.old) (J.fault_count feed.new) }
{
    let graph = job.shape();
    graph.sound();
    let inputs = gathered(alloc, slots, graph.deps(key))?;
    let outcome = job.run_traced(feed, key, inputs.as_slice())?;
    match outcome {
        Outcome::Value(block) => {
            let block = Arc::new(alloc, block)?;
            Ok(Step::Made(block))
        }
        Outcome::Zero => Ok(Step::Zero),
    }
}
